// A line for each item of a stream.
ghost use Rattle.std.specs.Prelude.{◌≡◌, ◌++◌, ℤ, true, false, Option, Some, None, IfOk, OnOk, codes};
ghost use Rattle.std.specs.Fmt.{signed_decimal};
ghost use Rattle.std.specs.List.{slice_get};
ghost use Rattle.nd_types.specs.declared.types.Operation.{Operation};
ghost use Rattle.nd_value.specs.Fitting.{setting_beside};
ghost use Rattle.nd_value.specs.Setting.{Setting};
ghost use Rattle.nd_value.specs.Tree.{Label};
ghost use Rattle.nd_flat.specs.FlatForm.{flat_seen};
ghost use Rattle.nd_value.specs.declared.value.Graph.{Graph};
ghost use Rattle.text_grammar.specs.Paths.{home_name as home_words};
ghost use Rattle.ndr_explain.specs.Explained.{explanation, explanation_over, line_over, item_head, node_shown, value_shown, string_shown};
ghost use Rattle.ndr_explain.specs.Explained.{context_shown, home_paths, kind_word, path_in};
ghost use Rattle.ndr_explain.specs.Cursors.{IsSettingOf, IsIn, IsLast, IsFound, found_label};

use crate::cursor::append_path;
use crate::gaps::{append_gap, is_gap};
use crate::located::{Located, locate};
use crate::names::{append_home, home_name};
use nd_base::{Memory, Octets};
use nd_flat::{Fit, Seen};
use nd_types::Interface;
use nd_value::{Item, ItemKind, ItemLog};
use std::alloc::Global;
use text_grammar::append_count;
use text_printer::{append_context, append_number, append_quoted};

/// The items of a stream in words, a line for each: `AT LENGTH KIND PATH VALUE`, where AT is the place of its first octet, LENGTH the number of
/// its octets, KIND what it is, in lower case, PATH the path of the node to which it belongs, and VALUE what it holds: a text as a string, a
/// context handle as in the value text, all else as a number in base 10. A gap has neither a path nor a value. (C706, chapter 14, says which
/// items a stream has.)
///
/// The path begins with the home: the name of a root, or `@` and the number of a cell. A maximum count that is in front of a whole value, and the
/// count of a pipe's chunk, belong to the home.
///
/// The interface must be the one that the fit is tied to. The items are those of one stream of the fit's graph, as `decode` logs them; of a node
/// that is not there the path is empty, and so are a text and a context handle.
///
/// It takes memory for the text, and for the levels of the types that are open, at most 32; out of memory is the only error. The items of a
/// stream come in the order of the nodes of each home: then each home is walked once, and the time is in proportion to the nodes and the text.
pub fn explain(
    alloc: Global,
    interface: &Interface,
    fit: &Fit,
    items: &ItemLog,
) -> Result<Octets, Memory>
    requires tied { fit.now.interface ≡ interface.now }
    ensures { IfOk result (λ text. (o : Operation) → slice_get interface.now.operations fit.now.op ≡ Some o
        → text ≡ explanation (setting_beside interface.now o fit.now.side fit.now.given) fit.now.graph items.now.items) }
{
    explain_over(alloc, interface, fit, items, &[])
}

/// The same as [`explain`], but a gap whose octets are not all zero shows them in hexadecimal digits: `6 2 gap x"00a1"`. Octets that are not among
/// those given are not shown.
pub fn explain_over(
    alloc: Global,
    interface: &Interface,
    fit: &Fit,
    items: &ItemLog,
    octets: &[u8],
) -> Result<Octets, Memory>
    requires tied { fit.now.interface ≡ interface.now }
    ensures { IfOk result (λ text. (o : Operation) → slice_get interface.now.operations fit.now.op ≡ Some o
        → text ≡ explanation_over (setting_beside interface.now o fit.now.side fit.now.given) fit.now.graph octets.now items.now.items) }
{
    let mut text = Octets::new(alloc);
    let mut last = None;
    for at in 0..items.len() {
        let Some(item) = items.get(at) else {
            unreachable!()
        };
        last = append_item(alloc, &mut text, interface, fit, last, item, octets)?;
    }
    Ok(text)
}

// Adds the line of an item, and gives the place of its node.
fn append_item<'a>(
    alloc: Global,
    text: &mut Octets,
    interface: &'a Interface,
    fit: &'a Fit,
    last: Option<Located<'a>>,
    item: &Item,
    octets: &[u8],
) -> Result<Option<Located<'a>>, Memory>
    requires tied { fit.now.interface ≡ interface.now }
    ensures { (w : Setting) → IsSettingOf interface.now fit.now w → IsLast w fit.now.graph last.entry
        → IfOk result (λ found. (text.new ≡ text.old ++ line_over w fit.now.graph octets.now item.now) × IsLast w fit.now.graph found) }
{
    append_head(text, item)?;
    if is_gap(item.kind) {
        append_gap(text, octets, item)?;
        text.append(b"\n")?;
        return Ok(last);
    }
    text.append(b" ")?;
    let found = append_node(alloc, text, interface, fit, last, item)?;
    text.append(b"\n")?;
    Ok(found)
}

/// Adds where an item is, its length and its kind.
pub fn append_head(text: &mut Octets, item: &Item) -> Result<(), Memory>
    ensures { OnOk result (text.new ≡ text.old ++ item_head item.now) }
{
    append_count(text, item.at)?;
    text.append(b" ")?;
    append_count(text, item.len)?;
    text.append(b" ")?;
    text.append(kind_name(item.kind))?;
    Ok(())
}

// The word of a kind.
fn kind_name(kind: ItemKind) -> &'static [u8]
    ensures { result.now ≡ kind_word kind }
{
    match kind {
        ItemKind::Gap => b"gap",
        ItemKind::Max => b"max",
        ItemKind::Offset => b"offset",
        ItemKind::Actual => b"actual",
        ItemKind::Number => b"number",
        ItemKind::Tag => b"tag",
        ItemKind::Num => b"num",
        ItemKind::Text => b"text",
        ItemKind::Context => b"context",
        ItemKind::Chunk => b"chunk",
    }
}

// Whether what an item holds is shown as a number.
fn is_number(kind: ItemKind) -> bool
    ensures { result ≡ true → (l : Option Label) (z : ℤ) → value_shown kind l z ≡ signed_decimal z }
{
    match kind {
        ItemKind::Text => false,
        ItemKind::Context => false,
        _ => true,
    }
}

// Whether an item belongs to the own value of a home, and what it holds is shown as a number.
fn is_of_home(item: &Item) -> bool
    ensures own { result ≡ true → item.now.node ≡ 0 }
    ensures number { result ≡ true → (l : Option Label) → value_shown item.now.kind l item.now.value ≡ signed_decimal item.now.value }
{
    item.node == 0 && is_number(item.kind)
}

// Adds the path of an item's node and what the item holds, and gives the place of the node.
fn append_node<'a>(
    alloc: Global,
    text: &mut Octets,
    interface: &'a Interface,
    fit: &'a Fit,
    last: Option<Located<'a>>,
    item: &Item,
) -> Result<Option<Located<'a>>, Memory>
    requires tied { fit.now.interface ≡ interface.now }
    ensures { (w : Setting) → IsSettingOf interface.now fit.now w → IsLast w fit.now.graph last.entry
        → IfOk result (λ found. (text.new ≡ text.old ++ node_shown w fit.now.graph item.now) × IsLast w fit.now.graph found) }
{
    if is_of_home(item) {
        append_own(text, interface, fit, item)?;
        return Ok(last);
    }
    let found = locate(alloc, interface, fit, last, item.home, item.node)?;
    append_place(text, interface, fit, &found, item)?;
    text.append(b" ")?;
    append_value(text, item.kind, &found, item.value)?;
    Ok(found)
}

// Adds the name of an item's home, and the number that the item holds.
fn append_own(
    text: &mut Octets,
    interface: &Interface,
    fit: &Fit,
    item: &Item,
) -> Result<(), Memory>
    requires tied { fit.now.interface ≡ interface.now }
    ensures { OnOk result ((w : Setting) → IsSettingOf interface.now fit.now w
        → text.new ≡ text.old ++ (home_words w item.now.home ++ (codes " " ++ signed_decimal item.now.value))) }
{
    append_home(text, home_name(interface, fit, item.home))?;
    text.append(b" ")?;
    append_number(text, item.value)?;
    Ok(())
}

// Adds the path of an item's node, where it was found.
fn append_place(
    text: &mut Octets,
    interface: &Interface,
    fit: &Fit,
    found: &Option<Located<'_>>,
    item: &Item,
) -> Result<(), Memory>
    requires tied { fit.now.interface ≡ interface.now }
    ensures { OnOk result ((w : Setting) → IsSettingOf interface.now fit.now w → IsFound w fit.now.graph item.now.home item.now.node found.now
        → text.new ≡ text.old ++ path_in (home_paths w fit.now.graph item.now.home) item.now.node) }
{
    match found {
        Some(found) => append_found(text, found),
        None => append_missing(text, interface, fit, item),
    }
}

// Adds the path of a node.
fn append_found(text: &mut Octets, found: &Located<'_>) -> Result<(), Memory>
    ensures { OnOk result ((w : Setting) (g : Graph) → IsIn w g found.now
        → text.new ≡ text.old ++ path_in (home_paths w g found.now.home) found.now.cursor.node) }
{
    append_home(text, found.name)?;
    append_path(text, &found.cursor)?;
    Ok(())
}

// Adds the name of a home that is not there, for its node 0; other nodes have no path.
fn append_missing(
    text: &mut Octets,
    interface: &Interface,
    fit: &Fit,
    item: &Item,
) -> Result<(), Memory>
    requires tied { fit.now.interface ≡ interface.now }
    ensures { OnOk result ((w : Setting) → IsSettingOf interface.now fit.now w → IsFound w fit.now.graph item.now.home item.now.node None
        → text.new ≡ text.old ++ path_in (home_paths w fit.now.graph item.now.home) item.now.node) }
{
    if item.node > 0 {
        return Ok(());
    }
    append_home(text, home_name(interface, fit, item.home))?;
    Ok(())
}

// Adds what an item holds, by its kind and its node.
fn append_value(
    text: &mut Octets,
    kind: ItemKind,
    found: &Option<Located<'_>>,
    value: i128,
) -> Result<(), Memory>
    ensures { OnOk result (text.new ≡ text.old ++ value_shown kind (found_label found.now) value) }
{
    match kind {
        ItemKind::Text => append_text(text, found),
        ItemKind::Context => append_handle(text, found),
        _ => append_number(text, value),
    }
}

// Adds the string of a node that was found.
fn append_text(text: &mut Octets, found: &Option<Located<'_>>) -> Result<(), Memory>
    ensures { OnOk result (text.new ≡ text.old ++ string_shown (found_label found.now)) }
{
    match found {
        Some(found) => append_string(text, &found.cursor.seen),
        None => Ok(()),
    }
}

// Adds the string of a node, if it is a text.
fn append_string(text: &mut Octets, seen: &Seen<'_>) -> Result<(), Memory>
    ensures { OnOk result (text.new ≡ text.old ++ string_shown (Some (flat_seen seen.now).0)) }
{
    match seen {
        Seen::Text { octets, .. } => append_quoted(text, octets),
        _ => Ok(()),
    }
}

// Adds the context handle of a node that was found.
fn append_handle(text: &mut Octets, found: &Option<Located<'_>>) -> Result<(), Memory>
    ensures { OnOk result (text.new ≡ text.old ++ context_shown (found_label found.now)) }
{
    match found {
        Some(found) => append_context_of(text, &found.cursor.seen),
        None => Ok(()),
    }
}

// Adds the context handle of a node, if it is one.
fn append_context_of(text: &mut Octets, seen: &Seen<'_>) -> Result<(), Memory>
    ensures { OnOk result (text.new ≡ text.old ++ context_shown (Some (flat_seen seen.now).0)) }
{
    match seen {
        Seen::Context { attributes, id } => append_context(text, *attributes, id),
        _ => Ok(()),
    }
}
