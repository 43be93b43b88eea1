//! Laws of walks and builders, each the contract of a function that does nothing.
ghost use Rattle.std.specs.Prelude.{◌≡◌, ◌++◌, ◌∷◌, ◌≤◌, ◌+◌, ◌*◌, ℕ, ℤ, List, length, drop};
ghost use Rattle.nd_base.specs.declared.octets.Order.{Order};
ghost use Rattle.nd_types.specs.declared.types.Primitive.{Primitive};
ghost use Rattle.nd_types.specs.Table.{width};
ghost use Rattle.nd_value.specs.Tree.{Trees, Flat, flat, count, take_trees, drop_trees};
ghost use Rattle.nd_flat.specs.FlatForm.{row_values, num_flats, num_trees};
ghost use Rattle.nd_flat.specs.Building.{Building, with_numbers};
ghost use Rattle.nd_flat.specs.Built.{Adds};

/// After a node of a walk at least its children are left.
pub fn children_are_left()
    ensures { (old new : Trees) (f : Flat) → flat old ≡ f ∷ flat new → f.1 ≤ count new }
{}

/// The numbers of a row that a walk gives are the first values that were left.
pub fn row_is_first()
    ensures { (old new : Trees) (zs : List ℤ) → flat old ≡ num_flats zs ++ flat new
        → (take_trees (length zs) old ≡ num_trees zs) × (drop_trees (length zs) old ≡ new) }
{}

/// A row that a builder takes is its numbers as values, after the nodes that are there.
pub fn row_is_added()
    ensures { (zs : List ℤ) (old new : Building) → new ≡ with_numbers zs old → Adds (num_trees zs) old new }
{}

/// The first numbers of a row, and the others.
pub fn row_is_parted()
    ensures { (o : Order) (p : Primitive) (n k m : ℕ) (os : List ℕ) → n ≡ k + m
        → row_values o p n os ≡ row_values o p k os ++ row_values o p m (drop (k * width p) os) }
{}
