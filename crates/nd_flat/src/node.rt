// Nodes of values: as callers see them, and as they are kept.
ghost use Rattle.std.specs.Prelude.{◌≡◌, ℕ, List, [], ◌∷◌, ◌++◌, ◌<◌, ◌≤◌, ◌*◌, ◌^◌, length, take, OnOk, OnErr, IfOk};
ghost use Rattle.nd_value.specs.Tree as tree;
ghost use Rattle.nd_value.specs.Seen.{cell_number};
ghost use Rattle.nd_flat.specs.FlatForm.{seen_nodes, flat_seen, HasOctets, HasRow, after_first, row_flats, IsKeepable, IsKeepableNumber};
ghost use Rattle.nd_flat.specs.FlatForm.{armed_count, long_text, num_flats, row_numbers, text_kept, IsRow};
ghost use Rattle.nd_flat.specs.Records.{HasLeft, IsRecords, records_left, all_records};

use crate::records::{KeptRecords, RecordsLeft, begun};
use crate::row::{KeptRow, first_number, without_first};
use crate::{Members, Records, Row};
use nd_base::{Memory, Octets, Order};
use nd_value::CellId;
use uuid::Uuid;

/// A node of a value, with the number of its children. The children follow it, depth first.
#[derive(Clone, Copy, PartialEq, Drop)]
pub enum Seen<'a> {
    /// A number: a primitive, or an enumerated value.
    Num(i128),
    /// A struct, by its number of members.
    Rec(u32),
    /// An array: its maximum count, its offset and its number of elements.
    Arr { max: u32, offset: u32, count: u32 },
    /// A string: its maximum count, and its octets without the terminator.
    Text { max: u32, octets: &'a [u8] },
    /// A union: its tag, and whether the selected arm has a value, which follows.
    Union { tag: i128, armed: bool },
    /// A pointer: null, or the cell of its referent.
    Ptr(Option<CellId>),
    /// A context handle.
    Context { attributes: u32, id: Uuid },
    /// A pipe, by its number of elements.
    Pipe(u32),
}

impl<'a> Seen<'a> {
    /// The cell that the node names, if it is a pointer that is not null. Takes no memory.
    pub fn named_cell(&self) -> Option<CellId>
        ensures { cell_number result ≡ tree.cell_in (flat_seen self.now).0 }
    {
        match self {
            Seen::Ptr(cell) => *cell,
            _ => None,
        }
    }
}

// A text of more octets than these is not kept in its node.
const SHORT_TEXT: usize = 15;

// A node as it is kept: numbers and tags from 0 on apart from those below 0, the octets of a text in the node, if they are few, or else by where they
// begin among all octets that are kept, and numbers of a primitive side by side as one node.
#[derive(Clone, Copy, Drop)]
pub enum Node {
    Num(u64),
    // -1 minus this
    Negative(u64),
    Rec(u32),
    Arr {
        max: u32,
        offset: u32,
        count: u32,
    },
    Text {
        max: u32,
        len: u32,
        from: usize,
    },
    // the first `len` of these octets
    ShortText {
        max: u32,
        len: u8,
        octets: [u8; 15],
    },
    Tag {
        tag: u64,
        armed: bool,
    },
    NegativeTag {
        tag: u64,
        armed: bool,
    },
    Null,
    Ptr(CellId),
    Context {
        attributes: u32,
        id: Uuid,
    },
    Pipe(u32),
    // so many number nodes as the row has numbers
    Row(KeptRow),
    // for each of so many structs a node of its own and one for each member; their octets begin at `from`
    Records {
        order: Order,
        members: Members,
        count: u32,
        from: usize,
    },
}

const NODE_SIZE: usize = size_of::<Node>();

const _: () = prove!(NODE_SIZE == 24);

// A walk that is in no row and in no structs goes into a node, past the first that it is seen as.
#[inline(always)]
pub(crate) fn enter(left: &mut KeptRow, records: &mut RecordsLeft, node: &Node, octets: &[u8])
    requires within { HasOctets octets.now node.now }
    requires row { HasRow octets.now left.old }
    requires no_row { row_flats octets.now left.old ≡ [] }
    requires records { HasLeft octets.now records.old }
    requires no_records { records_left octets.now records.old ≡ [] }
    ensures row { HasRow octets.now left.new }
    ensures records { HasLeft octets.now records.new }
    ensures nodes { row_flats octets.now left.new ++ records_left octets.now records.new ≡ after_first octets.now node.now }
{
    match node {
        Node::Row(row) => {
            let rest = without_first(*row, 1, octets);
            *left = rest;
        }
        Node::Records {
            order,
            members,
            count,
            from,
        } => {
            let rest = begun(KeptRecords {
                order: *order,
                members: *members,
                count: *count,
                from: *from,
            });
            *records = rest;
        }
        _ => {}
    }
}

// A node as callers see it: of a row its first number, of structs the first.
#[inline(always)]
pub(crate) fn first_seen<'a>(node: &'a Node, octets: &'a [u8]) -> Seen<'a>
    requires within { HasOctets octets.now node.now }
    ensures { flat_seen result ∷ after_first octets.now node.now ≡ seen_nodes octets.now node.now }
{
    match node {
        Node::Num(number) => Seen::Num(i128::from(*number)),
        Node::Negative(number) => Seen::Num(-1 - i128::from(*number)),
        Node::Rec(count) => Seen::Rec(*count),
        Node::Arr { max, offset, count } => Seen::Arr {
            max: *max,
            offset: *offset,
            count: *count,
        },
        Node::Text { max, len, from } => {
            let to = *from + *len as usize;
            Seen::Text {
                max: *max,
                octets: &octets[*from..to],
            }
        }
        Node::ShortText {
            max,
            len,
            octets: short,
        } => Seen::Text {
            max: *max,
            octets: &short[..*len as usize],
        },
        Node::Tag { tag, armed } => Seen::Union {
            tag: i128::from(*tag),
            armed: *armed,
        },
        Node::NegativeTag { tag, armed } => Seen::Union {
            tag: -1 - i128::from(*tag),
            armed: *armed,
        },
        Node::Null => Seen::Ptr(None),
        Node::Ptr(cell) => Seen::Ptr(Some(*cell)),
        Node::Context { attributes, id } => Seen::Context {
            attributes: *attributes,
            id: *id,
        },
        Node::Pipe(count) => Seen::Pipe(*count),
        Node::Row(row) => Seen::Num(first_number(*row, octets)),
        Node::Records {
            order: _order,
            members,
            count: _count,
            from: _from,
        } => Seen::Rec(members.len as u32),
    }
}

// A node as it is kept. The octets of a text that is not short are appended to those that are kept; where memory is refused nothing changes.
#[inline(always)]
pub(crate) fn kept_node(octets: &mut Octets, node: &Seen<'_>) -> Result<Node, Memory>
    requires small { IsKeepable (flat_seen node.now).0 }
    ensures octets { OnOk result (octets.new ≡ octets.old ++ text_kept (flat_seen node.now).0) }
    ensures within { IfOk result (λ n. HasOctets octets.new n) }
    ensures node { IfOk result (λ n. seen_nodes octets.new n ≡ flat_seen node.now ∷ []) }
    ensures err { OnErr result (octets.new ≡ octets.old) }
{
    match node {
        Seen::Num(number) => Ok(kept_number(*number)),
        Seen::Rec(count) => Ok(Node::Rec(*count)),
        Seen::Arr { max, offset, count } => Ok(Node::Arr {
            max: *max,
            offset: *offset,
            count: *count,
        }),
        Seen::Text { max, octets: text } => kept_text(octets, *max, text),
        Seen::Union { tag, armed } => Ok(kept_tag(*tag, *armed)),
        Seen::Ptr(cell) => Ok(kept_pointer(*cell)),
        Seen::Context { attributes, id } => Ok(Node::Context {
            attributes: *attributes,
            id: *id,
        }),
        Seen::Pipe(count) => Ok(Node::Pipe(*count)),
    }
}

#[inline(always)]
fn kept_pointer(cell: Option<CellId>) -> Node
    ensures within { (os : List ℕ) → HasOctets os result }
    ensures node { (os : List ℕ) → seen_nodes os result ≡ (tree.Ptr (cell_number cell), 0) ∷ [] }
{
    match cell {
        Some(cell) => Node::Ptr(cell),
        None => Node::Null,
    }
}

#[inline(always)]
fn kept_number(number: i128) -> Node
    requires small { IsKeepableNumber number }
    ensures within { (os : List ℕ) → HasOctets os result }
    ensures node { (os : List ℕ) → seen_nodes os result ≡ (tree.Num number, 0) ∷ [] }
{
    if number < 0 {
        Node::Negative((-1 - number) as u64)
    } else {
        Node::Num(number as u64)
    }
}

fn kept_tag(tag: i128, armed: bool) -> Node
    requires small { IsKeepableNumber tag }
    ensures within { (os : List ℕ) → HasOctets os result }
    ensures node { (os : List ℕ) → seen_nodes os result ≡ (tree.Union tag, armed_count armed) ∷ [] }
{
    if tag < 0 {
        Node::NegativeTag {
            tag: (-1 - tag) as u64,
            armed,
        }
    } else {
        Node::Tag {
            tag: tag as u64,
            armed,
        }
    }
}

#[inline(always)]
fn kept_text(octets: &mut Octets, max: u32, text: &[u8]) -> Result<Node, Memory>
    requires small { length text.now < 2 ^ 32 }
    ensures octets { OnOk result (octets.new ≡ octets.old ++ long_text text.now) }
    ensures within { IfOk result (λ n. HasOctets octets.new n) }
    ensures node { IfOk result (λ n. seen_nodes octets.new n ≡ (tree.Text max text.now, 0) ∷ []) }
    ensures err { OnErr result (octets.new ≡ octets.old) }
{
    if text.len() <= SHORT_TEXT {
        return Ok(short_text(max, text));
    }
    kept_long(octets, max, text)
}

// A text of few octets.
#[inline(always)]
fn short_text(max: u32, text: &[u8]) -> Node
    requires few { length text.now ≤ 15 }
    ensures within { (os : List ℕ) → HasOctets os result }
    ensures node { (os : List ℕ) → seen_nodes os result ≡ (tree.Text max text.now, 0) ∷ [] }
{
    Node::ShortText {
        max,
        len: text.len() as u8,
        octets: short_octets(text),
    }
}

// The octets of a short text, and zeros after them.
#[inline(always)]
fn short_octets(text: &[u8]) -> [u8; SHORT_TEXT]
    requires few { length text.now ≤ 15 }
    ensures { take (length text.now) result ≡ text.now }
{
    let mut octets = [0; SHORT_TEXT];
    octets[..text.len()].copy_from_slice(text);
    octets
}

// A text whose octets are appended.
fn kept_long(octets: &mut Octets, max: u32, text: &[u8]) -> Result<Node, Memory>
    requires small { length text.now < 2 ^ 32 }
    ensures octets { OnOk result (octets.new ≡ octets.old ++ text.now) }
    ensures within { IfOk result (λ n. HasOctets octets.new n) }
    ensures node { IfOk result (λ n. seen_nodes octets.new n ≡ (tree.Text max text.now, 0) ∷ []) }
    ensures err { OnErr result (octets.new ≡ octets.old) }
{
    let from = octets.as_slice().len();
    octets.append(text)?;
    Ok(Node::Text {
        max,
        len: text.len() as u32,
        from,
    })
}

// A row of numbers as it is kept: its octets are appended to those that are kept; where memory is refused nothing changes.
pub(crate) fn kept_row(octets: &mut Octets, row: &Row<'_>) -> Result<Node, Memory>
    requires whole { IsRow row.now }
    requires some { 0 < row.now.count }
    ensures octets { OnOk result (octets.new ≡ octets.old ++ row.now.octets.now) }
    ensures within { IfOk result (λ n. HasOctets octets.new n) }
    ensures node { IfOk result (λ n. seen_nodes octets.new n ≡ num_flats (row_numbers row.now)) }
    ensures err { OnErr result (octets.new ≡ octets.old) }
{
    let from = octets.as_slice().len();
    octets.append(row.octets)?;
    Ok(Node::Row(KeptRow {
        order: row.order,
        of: row.of,
        count: row.count,
        from,
    }))
}

// Structs of numbers as they are kept: their octets are appended to those that are kept; where memory is refused nothing changes.
pub(crate) fn kept_records(octets: &mut Octets, records: &Records<'_>) -> Result<Node, Memory>
    requires whole { IsRecords records.now }
    requires some { 0 < records.now.count }
    ensures octets { OnOk result (octets.new ≡ octets.old ++ records.now.octets.now) }
    ensures within { IfOk result (λ n. HasOctets octets.new n) }
    ensures node { IfOk result (λ n. seen_nodes octets.new n ≡ all_records records.now) }
    ensures err { OnErr result (octets.new ≡ octets.old) }
{
    let from = octets.as_slice().len();
    octets.append(records.octets)?;
    Ok(Node::Records {
        order: records.order,
        members: records.members,
        count: records.count,
        from,
    })
}
