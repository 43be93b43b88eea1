// The items of nodes, one node after the other.
ghost use Rattle.std.specs.Prelude.{reverse, ◌≡◌, ◌<◌, ◌≤◌, ◌+◌, ◌++◌, ◌∷◌, [], ℕ, ℤ, true, false, List, length, Option, None, Some, option_copied};
ghost use Rattle.std.specs.Prelude.{IfOk, IsErrOf, IsOk};
ghost use Rattle.nd_types.specs.declared.types.Primitive.{Primitive as PrimitiveValue};
ghost use Rattle.nd_types.specs.Table.{selected as arm_selected, type_at};
ghost use Rattle.nd_value.specs.Deferral.{Placed_cells};
ghost use Rattle.nd_value.specs.Nodes.{selected_types};
ghost use Rattle.nd_value.specs.Tree.{Label, Trees, count as count_of};
ghost use Rattle.nd_value.specs.Tree as labels;
ghost use Rattle.nd_flat.specs.FlatForm.{armed_count};
ghost use Rattle.nd_grammar.specs.Entry.{Actual, Align, Context, Entry, Num, Number, Offset, Tag, Text};
ghost use Rattle.ndr_explain.specs.Cursors.{level_paths, level_places, level_types, name_text, paths_from, places_from, types_from};
ghost use Rattle.ndr_explain.specs.Explained.{home_flats, label_in};
ghost use Rattle.ndr_trace_value.specs.declared.progress.Halt.TheVariants as halts;
ghost use Rattle.ndr_trace_value.specs.Left.{GoesDown, HaveTaken, items_left, least_items, total};
ghost use Rattle.ndr_trace_value.specs.Naming.{HasNamed, IsFine, IsNaming, named_by, names_in};
ghost use Rattle.ndr_trace_value.specs.Tracing.{Known, IsEnded, IsFrom, IsGround, IsSpot, IsTracing, entry_at};
ghost use Rattle.ndr_trace_value.specs.Walking.{AreThere, ComesTo, HavePaid, IsNode, IsPaid, IsReady, IsSeen, flat_shape, own_due, values_due};
ghost use Rattle.ndr_trace_value.specs.Walking.{width_by};

use crate::cells::{Cells, name_cell};
use crate::members::{reach, seen_node};
use crate::pointers::{PointerSpot, next_node, only_pointer};
use crate::progress::{Ground, Halt, Progress, Spot, count, gap, item};
use crate::search::Search;
use crate::shapes::{Shape, as_seen};
use nd_types::{Arm, Arms, Class, TypeDef, TypeId, Types};
use nd_value::Home;
use ndr_explain::{HomeName, Level, Levels, children, next_levels, type_of};
use ndr_prim::width_of;
use text_grammar::selected;

/// A walk over the items of a log: how far it came, the cells that are named, and what is kept for an agreement that fails.
#[derive(Drop)]
pub struct Walker<'a> {
    pub progress: Progress,
    pub cells: Cells,
    pub search: Search<'a>,
}

/// Walks over the nodes of a level and of all below it. `max` is the maximum count in front of the home's value, or 0.
pub fn walk_level<'a>(
    ground: &Ground<'a>,
    walker: &mut Walker<'a>,
    home: Home,
    name: HomeName<'a>,
    max: u32,
    from: &Option<PointerSpot>,
    first: Level<'a>,
) -> Result<(), Halt>
    requires some { 0 < length (level_types first) }
    ensures goes { (k : Known) → IsGround k ground.now → IsFrom k home from.now → (n : ℕ) (left : Trees)
        → AreThere k home max (level_types first.entry) (level_paths (name_text name.entry) first.entry) (level_places first.entry) n left
        → (rest : List Entry) → IsTracing k walker.old.progress (values_due k home (level_types first.entry) n left ++ rest)
        → (names : Placed_cells) → IsNaming k walker.old.cells (names_in (values_due k home (level_types first.entry) n left) ++ names)
        → IfOk result (λ _. IsTracing k walker.new.progress rest
        × HasNamed k walker.old.cells walker.new.cells (values_due k home (level_types first.entry) n left) names) }
    ensures ends { (k : Known) → IsGround k ground.now → IsFrom k home from.now → (n : ℕ) (left : Trees)
        → AreThere k home max (level_types first.entry) (level_paths (name_text name.entry) first.entry) (level_places first.entry) n left
        → (rest : List Entry) → IsTracing k walker.old.progress (values_due k home (level_types first.entry) n left ++ rest)
        → (names : Placed_cells) → IsNaming k walker.old.cells (names_in (values_due k home (level_types first.entry) n left) ++ names)
        → IsErrOf result halts.Here → IsEnded k walker.new.progress }
    ensures paid { IfOk result (λ _. IsPaid walker.old walker.new) }
    ensures taken { IfOk result (λ _. total (least_items ground.now.interface.now.types) (level_types first.entry) + walker.old.progress.next
        ≤ walker.new.progress.next) }
{
    let mut levels = Levels {
        top: first,
        below: Vec::new(ground.alloc),
    };
    while let Some(next) = take_node(ground, walker, home, name, max, from, levels)? {
        levels = next;
    }
    Ok(())
}

// Passes the node at which levels are. Gives those of the node after it, if there is one.
fn take_node<'a>(
    ground: &Ground<'a>,
    walker: &mut Walker<'a>,
    home: Home,
    name: HomeName<'a>,
    max: u32,
    from: &Option<PointerSpot>,
    levels: Levels<'a>,
) -> Result<Option<Levels<'a>>, Halt>
    requires some { 0 < length (level_types levels.top) }
    ensures goes { (k : Known) → IsGround k ground.now → IsFrom k home from.now → (n : ℕ) (left : Trees)
        → AreThere k home max (types_from levels.entry.top (reverse levels.entry.below.items))
        (paths_from (name_text name.entry) levels.entry.top (reverse levels.entry.below.items))
        (places_from levels.entry.top (reverse levels.entry.below.items)) n left
        → (rest : List Entry)
        → IsTracing k walker.old.progress (values_due k home (types_from levels.entry.top (reverse levels.entry.below.items)) n left ++ rest)
        → (names : Placed_cells)
        → IsNaming k walker.old.cells (names_in (values_due k home (types_from levels.entry.top (reverse levels.entry.below.items)) n left) ++ names)
        → IfOk result (ComesTo k home max (name_text name.entry)
        (values_due k home (types_from levels.entry.top (reverse levels.entry.below.items)) n left) rest names walker.old walker.new) }
    ensures ends { (k : Known) → IsGround k ground.now → IsFrom k home from.now → (n : ℕ) (left : Trees)
        → AreThere k home max (types_from levels.entry.top (reverse levels.entry.below.items))
        (paths_from (name_text name.entry) levels.entry.top (reverse levels.entry.below.items))
        (places_from levels.entry.top (reverse levels.entry.below.items)) n left
        → (rest : List Entry)
        → IsTracing k walker.old.progress (values_due k home (types_from levels.entry.top (reverse levels.entry.below.items)) n left ++ rest)
        → (names : Placed_cells)
        → IsNaming k walker.old.cells (names_in (values_due k home (types_from levels.entry.top (reverse levels.entry.below.items)) n left) ++ names)
        → IsErrOf result halts.Here → IsEnded k walker.new.progress }
    ensures paid { IfOk result (λ _. IsPaid walker.old walker.new) }
    ensures taken { IfOk result (λ r. items_left ground.now.interface.now.types (Some levels.entry) + walker.old.progress.next
        ≤ items_left ground.now.interface.now.types r + walker.new.progress.next) }
    ensures down { IfOk result (GoesDown ground.now.interface.now.types levels.entry) }
{
    let Levels { top, below } = levels;
    let of = type_of(top);
    let spot = Spot {
        home,
        name,
        top,
        below: &below,
        from,
    };
    reach(ground, walker, &spot)?;
    let shape = own_items(
        ground,
        &mut walker.progress,
        &mut walker.cells,
        max,
        of,
        &spot,
    )?;
    let seen = as_seen(shape);
    seen_node(ground, walker, &spot, &seen)?;
    let interface = ground.interface;
    let inner = children(&interface.types, of, &seen);
    let next = next_levels(inner, top, below)?;
    Ok(next)
}

// The items of a node before its children.
fn own_items<'a>(
    ground: &Ground<'a>,
    progress: &mut Progress,
    cells: &mut Cells,
    max: u32,
    of: TypeId,
    spot: &Spot<'_, 'a>,
) -> Result<Shape, Halt>
    ensures goes { (k : Known) → IsGround k ground.now → (n : ℕ) (l : Label) (ks : Trees) → IsNode k spot.now max of.0 n l ks
        → IsReady k progress.old → (rest : List Entry) → IsTracing k progress.old (own_due k spot.now.home n of.0 l ks ++ rest)
        → (names : Placed_cells) → IsNaming k cells.old (names_in (own_due k spot.now.home n of.0 l ks) ++ names)
        → IfOk result (λ shape. IsSeen l (count_of ks) (flat_shape shape) × (IsTracing k progress.new rest
        × HasNamed k cells.old cells.new (own_due k spot.now.home n of.0 l ks) names)) }
    ensures ends { (k : Known) → IsGround k ground.now → (n : ℕ) (l : Label) (ks : Trees) → IsNode k spot.now max of.0 n l ks
        → IsReady k progress.old → (rest : List Entry) → IsTracing k progress.old (own_due k spot.now.home n of.0 l ks ++ rest)
        → (names : Placed_cells) → IsNaming k cells.old (names_in (own_due k spot.now.home n of.0 l ks) ++ names)
        → IsErrOf result halts.Here → IsEnded k progress.new }
    ensures paid { IfOk result (λ _. HavePaid progress.old cells.old progress.new cells.new) }
    ensures taken { IfOk result (λ shape. HaveTaken ground.now.interface.now.types of.0 (flat_shape shape) progress.old progress.new) }
{
    match ground.interface.types.get(of.0 as usize) {
        Some(TypeDef::Prim(prim)) => number(ground, progress, width_of(*prim) as u64, spot),
        Some(TypeDef::Enum { .. }) => number(ground, progress, 2, spot),
        Some(TypeDef::Struct { .. }) => {
            let align = u64::from(ground.interface.align(of));
            structure(ground, progress, align, spot)
        }
        Some(TypeDef::Array { bound, varying, .. }) => {
            let max = bound.unwrap_or(max);
            array(ground, progress, max, *varying, spot)
        }
        Some(TypeDef::Text { .. }) => text(ground, progress, spot),
        Some(
            TypeDef::Union {
                tag,
                arms,
                default,
                ..
            },
        ) => {
            let width = tag_width(&ground.interface.types, *tag);
            tagged(ground, progress, width, arms, default, spot)
        }
        Some(TypeDef::Pointer { class, to }) => pointer(ground, progress, cells, *class, *to, spot),
        Some(TypeDef::Context) => context(ground, progress, spot),
        Some(TypeDef::Pipe { .. }) => Ok(Shape::Leaf),
        None => Ok(Shape::Leaf),
    }
}

// A number of so many octets.
fn number<'a>(
    ground: &Ground<'a>,
    progress: &mut Progress,
    width: u64,
    spot: &Spot<'_, 'a>,
) -> Result<Shape, Halt>
    requires { 0 < width }
    ensures goes { (k : Known) → IsGround k ground.now → (n : ℕ) → IsSpot k spot.now n
        → (p : PrimitiveValue) (values : Option (List ℤ)) (z : ℤ) (rest : List Entry)
        → IsTracing k progress.old (entry_at spot.now n (Align width) ∷ entry_at spot.now n (Num p values z) ∷ rest)
        → IfOk result (λ shape. (flat_shape shape ≡ (labels.Num z, 0)) × IsTracing k progress.new rest) }
    ensures ends { (k : Known) → IsGround k ground.now → (n : ℕ) → IsSpot k spot.now n
        → (p : PrimitiveValue) (values : Option (List ℤ)) (z : ℤ) (rest : List Entry)
        → IsTracing k progress.old (entry_at spot.now n (Align width) ∷ entry_at spot.now n (Num p values z) ∷ rest)
        → IsErrOf result halts.Here → IsEnded k progress.new }
    ensures later { IfOk result (λ _. progress.old.next ≤ progress.new.next) }
    ensures more { IfOk result (λ _. progress.old.next < progress.new.next) }
{
    gap(ground, progress, width, spot)?;
    let value = item(ground, progress, spot)?;
    Ok(Shape::Num(value))
}

// The gap before a struct.
fn structure<'a>(
    ground: &Ground<'a>,
    progress: &mut Progress,
    align: u64,
    spot: &Spot<'_, 'a>,
) -> Result<Shape, Halt>
    requires { 0 < align }
    ensures goes { (k : Known) → IsGround k ground.now → (n : ℕ) (rest : List Entry)
        → IsTracing k progress.old (entry_at spot.now n (Align align) ∷ rest)
        → IfOk result (λ shape. ((flat_shape shape).0 ≡ labels.Rec) × IsTracing k progress.new rest) }
    ensures ends { (k : Known) → IsGround k ground.now → (n : ℕ) → IsSpot k spot.now n
        → (rest : List Entry) → IsTracing k progress.old (entry_at spot.now n (Align align) ∷ rest)
        → IsErrOf result halts.Here → IsEnded k progress.new }
    ensures later { IfOk result (λ _. progress.old.next ≤ progress.new.next) }
    ensures is { IfOk result (λ shape. flat_shape shape ≡ (labels.Rec, 0)) }
{
    gap(ground, progress, align, spot)?;
    Ok(Shape::Rec)
}

// The counts of an array.
fn array<'a>(
    ground: &Ground<'a>,
    progress: &mut Progress,
    max: u32,
    varying: bool,
    spot: &Spot<'_, 'a>,
) -> Result<Shape, Halt>
    ensures fixed { varying ≡ false → IfOk result (λ shape. (flat_shape shape ≡ (labels.Arr max 0, max)) × (progress.new ≡ progress.old)) }
    ensures whole { varying ≡ false → IsOk result }
    ensures goes { varying ≡ true → (k : Known) → IsGround k ground.now → (n : ℕ) → IsSpot k spot.now n
        → (offset limit actual : ℕ) (rest : List Entry)
        → IsTracing k progress.old (entry_at spot.now n (Align 4) ∷ entry_at spot.now n (Offset false offset)
        ∷ entry_at spot.now n (Actual false offset limit actual) ∷ rest)
        → IfOk result (λ shape. (flat_shape shape ≡ (labels.Arr max offset, actual)) × IsTracing k progress.new rest) }
    ensures ends { varying ≡ true → (k : Known) → IsGround k ground.now → (n : ℕ) → IsSpot k spot.now n
        → (offset limit actual : ℕ) (rest : List Entry)
        → IsTracing k progress.old (entry_at spot.now n (Align 4) ∷ entry_at spot.now n (Offset false offset)
        ∷ entry_at spot.now n (Actual false offset limit actual) ∷ rest)
        → IsErrOf result halts.Here → IsEnded k progress.new }
    ensures later { IfOk result (λ _. progress.old.next ≤ progress.new.next) }
    ensures more { varying ≡ true → IfOk result (λ _. progress.old.next < progress.new.next) }
{
    if !varying {
        return Ok(Shape::Arr {
            max,
            offset: 0,
            count: max,
        });
    }
    gap(ground, progress, 4, spot)?;
    let offset = count(ground, progress, spot)?;
    let count = count(ground, progress, spot)?;
    Ok(Shape::Arr { max, offset, count })
}

// A text with its counts.
fn text<'a>(
    ground: &Ground<'a>,
    progress: &mut Progress,
    spot: &Spot<'_, 'a>,
) -> Result<Shape, Halt>
    ensures goes { (k : Known) → IsGround k ground.now → (n : ℕ) → IsSpot k spot.now n
        → (max : ℕ) (octets : List ℕ) → label_in (home_flats k.graph spot.now.home) n ≡ Some (labels.Text max octets) → (rest : List Entry)
        → IsTracing k progress.old (entry_at spot.now n (Align 4) ∷ entry_at spot.now n (Offset true 0)
        ∷ entry_at spot.now n (Actual true 0 max (length octets + 1)) ∷ entry_at spot.now n (Text octets) ∷ rest)
        → IfOk result (λ shape. (flat_shape shape ≡ (labels.Ptr None, 0)) × IsTracing k progress.new rest) }
    ensures ends { (k : Known) → IsGround k ground.now → (n : ℕ) → IsSpot k spot.now n
        → (max : ℕ) (octets : List ℕ) → label_in (home_flats k.graph spot.now.home) n ≡ Some (labels.Text max octets) → (rest : List Entry)
        → IsTracing k progress.old (entry_at spot.now n (Align 4) ∷ entry_at spot.now n (Offset true 0)
        ∷ entry_at spot.now n (Actual true 0 max (length octets + 1)) ∷ entry_at spot.now n (Text octets) ∷ rest)
        → IsErrOf result halts.Here → IsEnded k progress.new }
    ensures later { IfOk result (λ _. progress.old.next ≤ progress.new.next) }
    ensures more { IfOk result (λ _. progress.old.next < progress.new.next) }
{
    gap(ground, progress, 4, spot)?;
    item(ground, progress, spot)?;
    item(ground, progress, spot)?;
    item(ground, progress, spot)?;
    Ok(Shape::Leaf)
}

// A union's tag.
fn tagged<'a>(
    ground: &Ground<'a>,
    progress: &mut Progress,
    width: u64,
    arms: &Arms,
    default: &Option<Arm>,
    spot: &Spot<'_, 'a>,
) -> Result<Shape, Halt>
    requires { 0 < width }
    ensures goes { (k : Known) → IsGround k ground.now → (n : ℕ) → IsSpot k spot.now n
        → (p : PrimitiveValue) (values : Option (List ℤ)) (z : ℤ) (rest : List Entry)
        → IsTracing k progress.old (entry_at spot.now n (Align width) ∷ entry_at spot.now n (Tag p values arms.now default.now z) ∷ rest)
        → IfOk result (λ shape. (flat_shape shape ≡ (labels.Union z, length (selected_types (arm_selected arms.now default.now z))))
        × IsTracing k progress.new rest) }
    ensures ends { (k : Known) → IsGround k ground.now → (n : ℕ) → IsSpot k spot.now n
        → (p : PrimitiveValue) (values : Option (List ℤ)) (z : ℤ) (rest : List Entry)
        → IsTracing k progress.old (entry_at spot.now n (Align width) ∷ entry_at spot.now n (Tag p values arms.now default.now z) ∷ rest)
        → IsErrOf result halts.Here → IsEnded k progress.new }
    ensures later { IfOk result (λ _. progress.old.next ≤ progress.new.next) }
    ensures more { IfOk result (λ _. progress.old.next < progress.new.next) }
{
    gap(ground, progress, width, spot)?;
    let tag = item(ground, progress, spot)?;
    let armed = has_value(selected(arms, default, tag));
    Ok(Shape::Union { tag, armed })
}

// Whether an arm has a value.
fn has_value(arm: Option<&Arm>) -> bool
    ensures { armed_count result ≡ length (selected_types (option_copied arm.entry)) }
{
    match arm {
        Some(arm) => arm.of.is_some(),
        None => false,
    }
}

// How many octets a tag of a type has.
fn tag_width(types: &Types, tag: TypeId) -> u64
    ensures some { 0 < result }
    ensures width { result ≡ width_by (type_at types.now tag.0) }
{
    match types.get(tag.0 as usize) {
        Some(TypeDef::Prim(prim)) => width_of(*prim) as u64,
        _ => 2,
    }
}

// A pointer's number, and the cell that it names.
fn pointer<'a>(
    ground: &Ground<'a>,
    progress: &mut Progress,
    cells: &mut Cells,
    class: Class,
    to: TypeId,
    spot: &Spot<'_, 'a>,
) -> Result<Shape, Halt>
    ensures goes { (k : Known) → IsGround k ground.now → (n : ℕ) → IsSpot k spot.now n → (cell : Option ℕ)
        → IsFine k.graph class to.0 cell → (rest : List Entry)
        → IsTracing k progress.old (entry_at spot.now n (Align 4) ∷ entry_at spot.now n (Number class to.0 cell) ∷ rest)
        → (names : Placed_cells) → IsNaming k cells.old (named_by (Number class to.0 cell) ++ names)
        → IfOk result (λ shape. (flat_shape shape ≡ (labels.Ptr cell, 0)) × (IsTracing k progress.new rest
        × HasNamed k cells.old cells.new (entry_at spot.now n (Number class to.0 cell) ∷ []) names)) }
    ensures ends { (k : Known) → IsGround k ground.now → (n : ℕ) → IsSpot k spot.now n → (cell : Option ℕ)
        → (rest : List Entry)
        → IsTracing k progress.old (entry_at spot.now n (Align 4) ∷ entry_at spot.now n (Number class to.0 cell) ∷ rest)
        → IsErrOf result halts.Here → IsEnded k progress.new }
    ensures more { IfOk result (λ _. progress.old.next < progress.new.next) }
    ensures paid { IfOk result (λ _. HavePaid progress.old cells.old progress.new cells.new) }
{
    gap(ground, progress, 4, spot)?;
    let node = next_node(ground, progress);
    let number = count(ground, progress, spot)?;
    let from = only_pointer(ground, class, node, spot)?;
    let cell = name_cell(cells, class, to, number, from)?;
    Ok(Shape::Ptr(cell))
}

// A context handle. It has no children, as a null pointer has none.
fn context<'a>(
    ground: &Ground<'a>,
    progress: &mut Progress,
    spot: &Spot<'_, 'a>,
) -> Result<Shape, Halt>
    ensures goes { (k : Known) → IsGround k ground.now → (n : ℕ) → IsSpot k spot.now n
        → (attributes : ℕ) (id : List ℕ) → label_in (home_flats k.graph spot.now.home) n ≡ Some (labels.Context attributes id) → (rest : List Entry)
        → IsTracing k progress.old (entry_at spot.now n (Align 4) ∷ entry_at spot.now n (Context attributes id) ∷ rest)
        → IfOk result (λ shape. (flat_shape shape ≡ (labels.Ptr None, 0)) × IsTracing k progress.new rest) }
    ensures ends { (k : Known) → IsGround k ground.now → (n : ℕ) → IsSpot k spot.now n
        → (attributes : ℕ) (id : List ℕ) → label_in (home_flats k.graph spot.now.home) n ≡ Some (labels.Context attributes id) → (rest : List Entry)
        → IsTracing k progress.old (entry_at spot.now n (Align 4) ∷ entry_at spot.now n (Context attributes id) ∷ rest)
        → IsErrOf result halts.Here → IsEnded k progress.new }
    ensures later { IfOk result (λ _. progress.old.next ≤ progress.new.next) }
    ensures more { IfOk result (λ _. progress.old.next < progress.new.next) }
{
    gap(ground, progress, 4, spot)?;
    item(ground, progress, spot)?;
    Ok(Shape::Leaf)
}
