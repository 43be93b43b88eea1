// The names of homes.
ghost use Rattle.std.specs.Prelude.{◌≡◌, ◌<◌, ◌++◌, length, Some, OnOk, Option, option_map};
ghost use Rattle.std.specs.List.{slice_get};
ghost use Rattle.nd_types.specs.declared.types.Operation.{Operation};
ghost use Rattle.nd_types.specs.Roots.{root_value};
ghost use Rattle.nd_value.specs.declared.value.Graph.{Graph};
ghost use Rattle.nd_value.specs.Fitting.{setting_beside};
ghost use Rattle.nd_value.specs.Setting.{Setting};
ghost use Rattle.text_grammar.specs.Paths.{home_name};
ghost use Rattle.ndr_explain.specs.Cursors.{IsSettingOf, name_text, root_word};

use nd_base::{Memory, Octets};
use nd_flat::Fit;
use nd_types::{Interface, RootDef, Side};
use nd_value::{CellId, Home};
use text_grammar::append_count;
use text_printer::root_at;

/// The name of a home: the word of a root, or the number of a cell.
#[derive(Clone, Copy, Drop)]
pub enum HomeName<'a> {
    Word(&'a [u8]),
    Cell(CellId),
}

/// The name of a home of the side of a fit.
pub(crate) fn home_name<'a>(interface: &'a Interface, fit: &Fit, home: Home) -> HomeName<'a>
    requires tied { fit.now.interface ≡ interface.now }
    ensures { (w : Setting) → IsSettingOf interface.now fit.now w → name_text result ≡ home_name w home }
{
    // The graph conforms to a side of an operation.
    let _conforming = fit.flat();
    name_of(interface, fit.op(), fit.side(), home)
}

/// The name of a home of a side of an operation. It takes no memory.
pub fn name_of<'a>(interface: &'a Interface, op: u32, side: Side, home: Home) -> HomeName<'a>
    requires known { op < length interface.now.operations }
    ensures { (o : Operation) → slice_get interface.now.operations op ≡ Some o
        → (q : Option Graph) → name_text result ≡ home_name (setting_beside interface.now o side q) home }
{
    match home {
        Home::Root(at) => HomeName::Word(word_of(root_at(interface, op, side, at))),
        Home::Cell(cell) => HomeName::Cell(cell),
    }
}

// The name of a root; of one past those of the side the word `root`.
fn word_of<'a>(root: Option<RootDef<'a>>) -> &'a [u8]
    ensures { result.now ≡ root_word (option_map root_value root.entry) }
{
    match root {
        Some(root) => root.name,
        None => b"root",
    }
}

/// Adds the name of a home to a text: the name of a root, or `@` and the number of a cell.
pub fn append_home(text: &mut Octets, name: HomeName<'_>) -> Result<(), Memory>
    ensures { OnOk result (text.new ≡ text.old ++ name_text name.entry) }
{
    match name {
        HomeName::Word(word) => text.append(word),
        HomeName::Cell(cell) => {
            text.append(b"@")?;
            append_count(text, cell.0)
        }
    }
}
