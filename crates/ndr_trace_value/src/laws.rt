//! The laws, each the contract of a function that does nothing.
ghost use Rattle.std.specs.Prelude.{◌≡◌, ◌<◌, ◌≤◌, ◌+◌, ◌⊎◌, ℕ, ℤ, true, false, List, [], ◌∷◌, ◌++◌, length, Some, None, pos};
ghost use Rattle.std.specs.List.{AllByRecursion};
ghost use Rattle.nd_base.specs.declared.octets.Order.{Order};
ghost use Rattle.nd_types.specs.Table.{Table, type_at};
ghost use Rattle.nd_value.specs.declared.item.Home.{Home};
ghost use Rattle.nd_value.specs.declared.item.Item.{Item};
ghost use Rattle.nd_value.specs.declared.item.ItemKind.{ItemKind};
ghost use Rattle.nd_value.specs.declared.item.ItemKind.TheVariants as item;
ghost use Rattle.nd_value.specs.Canon.{canonical_number};
ghost use Rattle.nd_value.specs.Setting.{Setting};
ghost use Rattle.nd_value.specs.Nodes.{child_types};
ghost use Rattle.nd_value.specs.Tree.{Label, Trees, count, joined, more, node};
ghost use Rattle.nd_grammar.specs.declared.reason.Reason.{Reason};
ghost use Rattle.nd_grammar.specs.Refusal.{Bad};
ghost use Rattle.nd_grammar.specs.Entry.{Align, EntryAt, Unread, end_to_end, gap, before_children, entries, in_place};
ghost use Rattle.nd_grammar.specs.Items.{item_of, items};
ghost use Rattle.nd_grammar.specs.Stream.{IsRendered, piece};
ghost use Rattle.ndr_trace_value.specs.Counting.{Counts, IsIn};
ghost use Rattle.ndr_trace_value.specs.Due.{CanStop, NextDue, Stops, Took, its_item};
ghost use Rattle.ndr_trace_value.specs.Untested.{is_test, plain, untested};

/// Of refused octets all entries are due at the beginning, apart from agreements, and the log is that of the entries before the refused one.
pub fn log_of_refused_octets()
    ensures { (w : Setting) (order : Order) (octets : List ℕ) (place : ℕ) (why : Reason) (bad : Bad w order octets place why)
        → Stops order octets bad.numbering bad.here (end_to_end 0 (untested bad.entries)) (items order octets bad.earlier) }
{}

/// The next entry was read, and its item is the next of the log; or the log is at its end there. It is no unread value where reading did not stop at
/// an agreement.
pub fn next_entry()
    ensures due { (order : Order) (octets : List ℕ) (nums : ℕ → ℕ) (here x : EntryAt) (xs : List EntryAt) (log : List Item)
        → Stops order octets nums here (x ∷ xs) log → NextDue order octets nums here x xs log }
    ensures read { (order : Order) (octets : List ℕ) (nums : ℕ → ℕ) (here x : EntryAt) (xs : List EntryAt) (log : List Item)
        → Stops order octets nums here (x ∷ xs) log → is_test here.entry.kind ≡ false → x.entry.kind ≡ Unread → ⊥ }
{}

/// A gap is an item exactly if it is not empty.
pub fn gaps()
    ensures empty { (order : Order) (octets : List ℕ) (at n : ℕ) → gap at n ≡ 0 → item_of order (Align n) (piece octets at (Align n)) ≡ None }
    ensures item { (order : Order) (octets : List ℕ) (at n : ℕ) → 0 < gap at n → at + gap at n ≤ length octets
        → item_of order (Align n) (piece octets at (Align n)) ≡ Some (item.Gap, pos 0) }
{}

/// Without agreements the entries of values are those of their nodes, depth first.
pub fn values_without_agreements()
    ensures { (table : Table) (h : Home) (types : List ℕ) (n : ℕ) (ts : Trees) → untested (in_place table h types n ts) ≡ plain table h types n ts }
{}

/// Where each cell has the number that the order of the stream gives it, each is named for the first time as the next one.
pub fn cells_in_turn()
    ensures { (ds : List ℕ) (m : ℕ) → AllByRecursion (IsIn m) ds → ((c : ℕ) → 0 < c → c ≤ m → canonical_number ds c ≡ c) → Counts 0 ds m }
{}

/// One entry that is due, and the next item of the log.
pub fn one_entry()
    ensures took { (order : Order) (octets : List ℕ) (nums : ℕ → ℕ) (here x : EntryAt) (xs : List EntryAt) (k : ItemKind × ℤ) (i : Item)
        → (log : List Item) → (IsRendered order nums octets x → its_item order octets x ≡ Some k) → Stops order octets nums here (x ∷ xs) (i ∷ log)
        → Took order octets nums here x xs k i log }
    ensures ended { (order : Order) (octets : List ℕ) (nums : ℕ → ℕ) (here x : EntryAt) (xs : List EntryAt) (k : ItemKind × ℤ)
        → (IsRendered order nums octets x → its_item order octets x ≡ Some k) → Stops order octets nums here (x ∷ xs) []
        → (is_test here.entry.kind ≡ true) ⊎ (x ≡ here) }
    ensures skipped { (order : Order) (octets : List ℕ) (nums : ℕ → ℕ) (here x : EntryAt) (xs : List EntryAt) (log : List Item)
        → its_item order octets x ≡ None → (CanStop x.at x.entry.kind → ⊥) → Stops order octets nums here (x ∷ xs) log
        → Stops order octets nums here xs log }
{}

/// After a node's own entries those of its children are due, and then those of the values after it.
pub fn node_after_node()
    ensures { (table : Table) (h : Home) (t : ℕ) (T : List ℕ) (n : ℕ) (l : Label) (ks us : Trees)
        → count ks ≡ length (child_types (type_at table t) l ks)
        → plain table h (t ∷ T) n (more (node l ks) us)
        ≡ untested (entries h n (before_children table t (type_at table t) l ks))
        ++ plain table h (child_types (type_at table t) l ks ++ T) (n + 1) (joined ks us) }
{}
