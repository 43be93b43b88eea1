//! Laws over the octets of primitives, each the contract of a function that does nothing.
ghost use Rattle.std.specs.Prelude.{◌≡◌, ◌≢◌, ℕ, ◌<◌, ◌^◌, ℤ, List, length, IsTrue};
ghost use Rattle.nd_base.specs.declared.octets.Order.{Order};
ghost use Rattle.nd_types.specs.declared.types.Primitive.{Primitive};
ghost use Rattle.nd_types.specs.declared.types.Primitive.TheVariants.{Boolean};
ghost use Rattle.nd_types.specs.Table.{width, in_range};
ghost use Rattle.nd_types.specs.Number.{AreOctets, value_of_octets, written};
ghost use Rattle.ndr_prim.specs.Context.{attributes_of, identifier_of, context_octets};

/// Reading what was written gives the value back.
pub fn read_after_write()
    ensures { (order : Order) (p : Primitive) (z : ℤ) → IsTrue (in_range p z)
        → value_of_octets order p (written order p z) ≡ z }
{}

/// Writing what was read gives the octets back, but for a boolean, where each octet but zero means 1.
pub fn write_after_read()
    ensures { (order : Order) (p : Primitive) (octets : List ℕ) → p ≢ Boolean → length octets ≡ width p
        → AreOctets octets → written order p (value_of_octets order p octets) ≡ octets }
{}

/// Reading a context handle that was written gives its attributes and its identifier back.
pub fn context_after_write()
    ensures { (order : Order) (attributes : ℕ) (id : List ℕ) → attributes < 2 ^ 32 → length id ≡ 16
        → (attributes_of order (context_octets order attributes id) ≡ attributes) × (identifier_of order (context_octets order attributes id) ≡ id) }
{}

/// Writing a context handle that was read gives its octets back.
pub fn context_after_read()
    ensures { (order : Order) (octets : List ℕ) → length octets ≡ 20 → AreOctets octets
        → context_octets order (attributes_of order octets) (identifier_of order octets) ≡ octets }
{}
