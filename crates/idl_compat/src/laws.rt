//! Laws over the definitions, each the contract of a function that does nothing.
ghost use Rattle.std.specs.Prelude.{◌≡◌, ◌<◌, ℕ, List, Some, slice_get};
ghost use Rattle.nd_base.specs.declared.octets.Order.{Order};
ghost use Rattle.nd_types.specs.declared.interface.Interface.{Interface};
ghost use Rattle.nd_types.specs.declared.types.Operation.{Operation};
ghost use Rattle.nd_types.specs.declared.types.Side.{Side};
ghost use Rattle.nd_value.specs.declared.value.Graph.{Graph};
ghost use Rattle.nd_value.specs.Fitting.{setting_of};
ghost use Rattle.nd_value.specs.Conforms.{Conforms};
ghost use Rattle.nd_grammar.specs.Stream.{Represents};
ghost use Rattle.idl_compat.specs.declared.pairs.TypePair.{TypePair};
ghost use Rattle.idl_compat.specs.Comparison.{Alike, IsPair, IsCompared, IsOneAnswer};
ghost use Rattle.idl_compat.specs.Carry.{carry};
ghost use Rattle.idl_compat.specs.declared.compared.Compared.{Compared};
ghost use Rattle.idl_compat.specs.declared.compared.Compared.TheVariants.{Yes};
ghost use Rattle.idl_compat.specs.Needed.{IsNeeded};

/// Of two interfaces whose first operations are alike, octets represent a graph that conforms to a side of such an operation of the
/// old one exactly if they represent the carried graph, and it conforms, under the new one.
pub fn alike_streams()
    ensures carried { (old new : Interface) (m : List TypePair) (n : ℕ) → Alike old new m n → (i : ℕ) → i < n
        → (o q : Operation) → slice_get old.operations i ≡ Some o → slice_get new.operations i ≡ Some q
        → (s : Side) (order : Order) (octets : List ℕ) (g : Graph)
        → Represents (setting_of old o s) order octets g → Conforms (setting_of old o s) g
        → Represents (setting_of new q s) order octets (carry m g) × Conforms (setting_of new q s) (carry m g) }
    ensures carried_back { (old new : Interface) (m : List TypePair) (n : ℕ) → Alike old new m n → (i : ℕ) → i < n
        → (o q : Operation) → slice_get old.operations i ≡ Some o → slice_get new.operations i ≡ Some q
        → (s : Side) (order : Order) (octets : List ℕ) (g : Graph)
        → Represents (setting_of new q s) order octets (carry m g) → Conforms (setting_of new q s) (carry m g)
        → Represents (setting_of old o s) order octets g × Conforms (setting_of old o s) g }
{}

/// Each type that an operation reaches has a partner, where these operations are alike.
pub fn needed_types()
    ensures { (old new : Interface) (m : List TypePair) (n : ℕ) → Alike old new m n → (t : ℕ) → IsNeeded old n t → (u : ℕ) × IsPair m t u }
{}

/// Two interfaces have exactly one answer. At most one: two that hold are of one kind, with equal numbers. And it is not so that none holds.
pub fn one_answer()
    ensures at_most { (old new : Interface) (c d : Compared) → IsCompared old new c → IsCompared old new d → IsOneAnswer c d }
    ensures not_none { (old new : Interface) → ((c : Compared) → IsCompared old new c → ⊥) → ⊥ }
{}

/// An interface with a UUID is compatible with itself.
pub fn reflexive()
    ensures { (i : Interface) (u : ℕ) → i.uuid ≡ Some u → (m : List TypePair) × IsCompared i i (Yes m) }
{}

/// A version that is compatible with one that is compatible with a third is compatible with the third.
pub fn transitive()
    ensures { (first second third : Interface) (m n : List TypePair) → IsCompared first second (Yes m) → IsCompared second third (Yes n)
        → (p : List TypePair) × IsCompared first third (Yes p) }
{}
