//! Laws of the octets that are written, each the contract of a function that does nothing.
ghost use Rattle.std.specs.Prelude.{◌≡◌, ℕ, List};
ghost use Rattle.nd_base.specs.declared.octets.Order.{Order};
ghost use Rattle.nd_grammar.specs.Stream.{id_octets};
ghost use Rattle.nd_grammar.specs.Reader.{identifier};
ghost use Rattle.ndr_prim.specs.Context.{identifier_octets, identifier as read_identifier};

/// The identifier of a context handle is written and read in the octets that a stream has for it.
pub fn identifiers_are_entries()
    ensures written { (order : Order) (id : List ℕ) → identifier_octets order id ≡ id_octets order id }
    ensures read { (order : Order) (octets os : List ℕ) → read_identifier order os ≡ identifier order octets os }
{}
