// What expressions come to, by examples.
use crate::files::tree_of;
use idl_grammar::{Export, Expr, Init, Tree};
use idl_names::{ConstFault, Meaning, Names, evaluate, value, value_of};
use nd_base::{Memory, Octets};
use std::alloc::Global;
use std::test::Fail;

/// What is before an expression.
const FRONT: &[u8] = b"[local] interface t { const long A = ";

/// Names that begin with `N` are 7, with `M` 2^64; with `T` they are types. No others are known.
struct Example;

impl Names for Example {
    ghost use Rattle.std.specs.Prelude.{◌==◌, if◌then◌else◌, slice_index, Some, None, pos, ◌^◌};
    ghost use Rattle.idl_scope.specs.declared.meaning.Meaning.TheVariants as meaning;

    ghost meanings = { λ _ name. if slice_index name 0 == 78 then Some (meaning.Number (pos 7))
        else (if slice_index name 0 == 77 then Some (meaning.Number (pos (2 ^ 64)))
        else (if slice_index name 0 == 84 then Some meaning.Type else None)) };

    ghost more = { λ _. 1 };

    fn meaning(&self, name: &[u8]) -> Option<Meaning> {
        match name.first() {
            Some(b'N') => Some(Meaning::Number(7)),
            Some(b'M') => Some(Meaning::Number(1 << 64)),
            Some(b'T') => Some(Meaning::Type),
            _ => None,
        }
    }
}

/// An expression, and its value or why it has none.
struct Row {
    text: &'static [u8],
    wanted: Result<i128, ConstFault>,
}

const ROWS: &[Row] = &[
    Row {
        text: b"1 ? (N - 10) / 2 * 2 + 'a' : M",
        wanted: Ok(95),
    },
    // Numbers are cut towards zero.
    Row {
        text: b"7 / 2 * 2",
        wanted: Ok(6),
    },
    Row {
        text: b"-7 / 2",
        wanted: Ok(-3),
    },
    Row {
        text: b"-7 % 2",
        wanted: Ok(-1),
    },
    // Bits are of unlimited width.
    Row {
        text: b"-1 >> 1",
        wanted: Ok(-1),
    },
    Row {
        text: b"~0",
        wanted: Ok(-1),
    },
    Row {
        text: b"1 << 63",
        wanted: Ok(9_223_372_036_854_775_808),
    },
    // What is decided is not evaluated.
    Row {
        text: b"0 && 5 % 0",
        wanted: Ok(0),
    },
    Row {
        text: b"1 << 64",
        wanted: Err(ConstFault::OutOfRange),
    },
    Row {
        text: b"5 % 0",
        wanted: Err(ConstFault::ZeroDivisor),
    },
];

/// The tree of an interface with a constant of this value.
fn constant(alloc: Global, expression: &[u8]) -> Result<Tree, Memory> {
    let mut text = Octets::copy(alloc, FRONT)?;
    text.append(expression)?;
    text.append(b"; }")?;
    tree_of(alloc, text.as_slice())
}

fn expression_of(tree: &Tree) -> Option<&Expr> {
    match tree.exports.first() {
        Some(
            Export::Const {
                value: Init::Value(expression),
                ..
            },
        ) => Some(expression),
        _ => None,
    }
}

/// Whether an expression comes to what it has to. Its value is that of each call.
fn holds(alloc: Global, row: &Row) -> Result<bool, Memory> {
    let tree = constant(alloc, row.text)?;
    let Some(expression) = expression_of(&tree) else {
        return Ok(false);
    };
    match row.wanted {
        Ok(wanted) => Ok(
            value(&Example, expression) == Ok(wanted)
                && value_of(&Example, expression) == Ok(wanted)
                && evaluate(&Example, expression) == Ok(wanted),
        ),
        Err(fault) => Ok(value_of(&Example, expression) == Err(fault)),
    }
}

#[test]
fn expressions_have_values(rt: HostRuntime) -> Result<(), Fail> {
    for row in ROWS {
        assert!(rt; holds(rt.alloc(), row)?);
    }
    Ok(())
}
