//! What those who run a plan look up, as laws: each is the contract of a function that does nothing.
pub mod sides;

ghost use Rattle.std.specs.Prelude.{◌≡◌, ◌<◌, ℕ, ◌+◌, ◌*◌, ℤ, true, false, List, [], ◌∷◌, ◌++◌, length, slice_get, None, Some};
ghost use Rattle.nd_types.specs.declared.types.TypeDef.{TypeDef};
ghost use Rattle.nd_types.specs.declared.types.TypeDef.TheVariants.{Enum, Prim};
ghost use Rattle.nd_types.specs.declared.types.Primitive.{Primitive};
ghost use Rattle.nd_types.specs.declared.types.Operation.{Operation};
ghost use Rattle.nd_types.specs.declared.types.Side.{Side};
ghost use Rattle.nd_types.specs.Table.{Table, type_at};
ghost use Rattle.nd_types.specs.Layout.{hoists};
ghost use Rattle.nd_types.specs.Roots.{Root, roots_of, root_name};
ghost use Rattle.ndr_code.specs.declared.instr.Instr.{Instr};
ghost use Rattle.ndr_code.specs.declared.instr.Instr.TheVariants.{Hoist, Call, Ret};
ghost use Rattle.ndr_code.specs.declared.lists.EnumList.{EnumList};
ghost use Rattle.ndr_code.specs.declared.lists.PlanLine.TheVariants.{Entry, Checks};
ghost use Rattle.ndr_code.specs.Code.{place_run, whole_run, place_at, whole_at, code_of, value_roots, pipe_roots, root_run, checks_run, pipe_run};
ghost use Rattle.ndr_code.specs.Code.{side_code, side_at, root_at, checks_at, pipe_at, entries_of, line_at, sides_of, side_number, values_of};
ghost use Rattle.ndr_code.specs.Code.{enumerators};
ghost use Rattle.ndr_code.specs.Runs.{IsRunAt};

/// A run that is at an address begins with the instruction at that address, and is followed from the next address on. What comes after the first part
/// of a run is as far after as that part is long.
pub fn runs_are_followed()
    ensures first { (code : List Instr) (at : ℕ) (i : Instr) (is : List Instr) → IsRunAt code at (i ∷ is) → slice_get code at ≡ Some i }
    ensures next { (code : List Instr) (at : ℕ) (i : Instr) (is : List Instr) → IsRunAt code at (i ∷ is) → IsRunAt code (at + 1) is }
    ensures part { (code : List Instr) (at : ℕ) (xs ys : List Instr) → IsRunAt code at (xs ++ ys) → IsRunAt code at xs }
    ensures behind { (code : List Instr) (at : ℕ) (xs ys : List Instr) → IsRunAt code at (xs ++ ys) → IsRunAt code (at + length xs) ys }
{}

/// The place run of each type is at the type's place address, and its whole run at its whole address: for a type that hoists the maximum count and a
/// call of the place run, for any other the place run itself.
pub fn runs_of_types()
    ensures place { (table : Table) (operations : List Operation) (t : ℕ) (d : TypeDef) → type_at table t ≡ Some d
        → IsRunAt (code_of table operations) (place_at table t) (place_run (place_at table) (whole_at table) table t d) }
    ensures hoisted { (table : Table) (operations : List Operation) (t : ℕ) (d : TypeDef) → type_at table t ≡ Some d → hoists table t ≡ true
        → IsRunAt (code_of table operations) (whole_at table t) (Hoist ∷ Call (place_at table t) ∷ Ret ∷ []) }
    ensures whole { (table : Table) (operations : List Operation) (t : ℕ) (d : TypeDef) → type_at table t ≡ Some d → hoists table t ≡ false
        → IsRunAt (code_of table operations) (whole_at table t) (place_run (place_at table) (whole_at table) table t d) }
    ensures same { (table : Table) (t : ℕ) → hoists table t ≡ false → place_at table t ≡ whole_at table t }
{}

/// The runs of a side of an operation are at their addresses: that of the i-th root that is no pipe, that of the agreements, that of the i-th pipe.
pub fn runs_of_sides()
    ensures side { (table : Table) (operations : List Operation) (n : ℕ) (o : Operation) → slice_get operations n ≡ Some o → (s : Side)
        → IsRunAt (code_of table operations) (side_at table operations n o s) (side_code table o s) }
    ensures root { (table : Table) (operations : List Operation) (n : ℕ) (o : Operation) → slice_get operations n ≡ Some o
        → (s : Side) (i : ℕ) (r : Root) → slice_get (value_roots (roots_of table s o)) i ≡ Some r
        → IsRunAt (code_of table operations) (root_at table operations n o s i) (root_run table r) }
    ensures checks { (table : Table) (operations : List Operation) (n : ℕ) (o : Operation) → slice_get operations n ≡ Some o → (s : Side)
        → IsRunAt (code_of table operations) (checks_at table operations n o s) (checks_run table o s) }
    ensures pipe { (table : Table) (operations : List Operation) (n : ℕ) (o : Operation) → slice_get operations n ≡ Some o
        → (s : Side) (i : ℕ) (r : Root) → slice_get (pipe_roots (roots_of table s o)) i ≡ Some r
        → IsRunAt (code_of table operations) (pipe_at table operations n o s i) (pipe_run table r) }
{}

/// The lines of a side begin where the list of starts says, and have the addresses of its runs, in their order.
pub fn lines_of_sides()
    ensures start { (table : Table) (operations : List Operation) (n : ℕ) (o : Operation) → slice_get operations n ≡ Some o → (s : Side)
        → slice_get (sides_of table operations) (2 * n + side_number s) ≡ Some (line_at table operations n o s) }
    ensures root { (table : Table) (operations : List Operation) (n : ℕ) (o : Operation) → slice_get operations n ≡ Some o
        → (s : Side) (i : ℕ) (r : Root) → slice_get (value_roots (roots_of table s o)) i ≡ Some r
        → slice_get (entries_of table operations) (line_at table operations n o s + i)
        ≡ Some (Entry n s (root_name o r.param) (root_at table operations n o s i)) }
    ensures checks { (table : Table) (operations : List Operation) (n : ℕ) (o : Operation) → slice_get operations n ≡ Some o → (s : Side)
        → slice_get (entries_of table operations) (line_at table operations n o s + length (value_roots (roots_of table s o)))
        ≡ Some (Checks n s (checks_at table operations n o s)) }
    ensures pipe { (table : Table) (operations : List Operation) (n : ℕ) (o : Operation) → slice_get operations n ≡ Some o
        → (s : Side) (i : ℕ) (r : Root) → slice_get (pipe_roots (roots_of table s o)) i ≡ Some r
        → slice_get (entries_of table operations) (line_at table operations n o s + length (value_roots (roots_of table s o)) + 1 + i)
        ≡ Some (Entry n s (root_name o r.param) (pipe_at table operations n o s i)) }
{}

/// The list of an enumerated type has the values of its enumerators. A primitive has no list. The lists are in the order of the types' numbers.
pub fn lists_of_enumerated_types()
    ensures listed { (table : Table) (t : ℕ) (values : List ℤ) → type_at table t ≡ Some (Enum values)
        → enumerators (values_of table) t ≡ Some values }
    ensures unlisted { (table : Table) (t : ℕ) (p : Primitive) → type_at table t ≡ Some (Prim p) → enumerators (values_of table) t ≡ None }
    ensures in_order { (table : Table) (i j : ℕ) (a b : EnumList) → slice_get (values_of table) i ≡ Some a → slice_get (values_of table) j ≡ Some b
        → i < j → a.of.0 < b.of.0 }
{}
