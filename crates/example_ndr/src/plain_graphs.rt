//! Laws of graphs of primitives, each the contract of a function that does nothing.
ghost use Rattle.std.specs.Prelude.{◌≡◌, ℕ, ◌<◌, ◌^◌, true, List, length, slice_get, Some};
ghost use Rattle.nd_types.specs.declared.interface.Interface.{Interface};
ghost use Rattle.nd_types.specs.declared.types.Operation.{Operation};
ghost use Rattle.nd_types.specs.declared.types.Side.{Side};
ghost use Rattle.nd_types.specs.Table.{Table};
ghost use Rattle.nd_types.specs.Numbers.{has_number_roots};
ghost use Rattle.nd_types.specs.Plain.{IsPlainInterface};
ghost use Rattle.example_ndr.specs.Simple.{has_simple_cells};
ghost use Rattle.nd_value.specs.declared.value.Graph.{Graph};
ghost use Rattle.nd_value.specs.Conforms.{Conforms, HasFewNodes, MisfitAt, IsFirstMisfit};
ghost use Rattle.nd_value.specs.Fitting.{setting_of};

/// A graph of a side whose roots are primitives, with few cells, each of a simple type, and few nodes, conforms where it has no first misfit.
pub fn numbers_exact()
    ensures { (i : Interface) (op : ℕ) (o : Operation) (s : Side) (g : Graph) → has_number_roots i.types s o ≡ true
        → has_simple_cells i.types g ≡ true
        → slice_get i.operations op ≡ Some o → ((m : MisfitAt) → ¬ IsFirstMisfit (setting_of i o s) g m)
        → length g.cells < 2 ^ 32 → HasFewNodes g → Conforms (setting_of i o s) g }
{}

/// Cells of a plain interface are of simple types.
pub fn plain_cells_are_simple()
    ensures { (types : Table) (operations : List Operation) (g : Graph) → IsPlainInterface types operations → has_simple_cells types g ≡ true }
{}

/// A graph of an operation of a plain interface, with few cells and few nodes, conforms where it has no first misfit.
pub fn plain_exact()
    ensures { (i : Interface) (op : ℕ) (o : Operation) (s : Side) (g : Graph) → IsPlainInterface i.types i.operations
        → slice_get i.operations op ≡ Some o → ((m : MisfitAt) → ¬ IsFirstMisfit (setting_of i o s) g m)
        → length g.cells < 2 ^ 32 → HasFewNodes g → Conforms (setting_of i o s) g }
{}
