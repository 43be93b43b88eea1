// The items and the steps of a chunk, handed on to the log and the count of the stream.
ghost use Rattle.std.specs.Prelude.{◌≡◌, ◌+◌, IfSome};
ghost use Rattle.ndr_drain_laws.specs.reader.PartReader.{moved_item};
ghost use Rattle.ndr_drain_reader.specs.Handing.{HandsOn};

use nd_base::{Ledger, Memory, Steps, Uncounted};
use nd_value::{Item, ItemLog};

// Notes the items of a chunk, whose nodes come after so many of the chunks before.
pub(crate) fn hand_on(own: &ItemLog, before: u32, items: &mut ItemLog) -> Result<(), Memory>
    ensures { HandsOn before own.now.items items.old items.new result }
{
    let mut uncounted = Steps::new(Uncounted::new());
    for at in 0..own.len() {
        let Some(item) = own.get(at) else {
            unreachable!()
        };
        // No stream within the limit has so many nodes.
        let Some(moved) = after_nodes(*item, before) else {
            return Err(Memory);
        };
        items.note(moved, &mut uncounted)?;
    }
    Ok(())
}

// An item of an element whose nodes come after so many, if they can be numbered. A gap and the count of a chunk have node 0.
fn after_nodes(item: Item, before: u32) -> Option<Item>
    ensures { IfSome result (λ x. x ≡ moved_item before item) }
{
    if item.node == 0 {
        return Some(item);
    }
    let Some(node) = item.node.checked_add(before) else {
        return None;
    };
    Some(Item { node, ..item })
}

// Counts so many steps.
pub(crate) fn count_steps<L: Ledger>(count: u64, steps: &mut Steps<L>)
    ensures { L.number steps.new ≡ L.number steps.old + count }
{
    for _step in 0..count {
        steps.tick();
    }
}
