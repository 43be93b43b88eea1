// Lists that grow by one item.
ghost use Rattle.std.specs.Prelude.{◌≡◌, ◌<◌, [], ◌∷◌, ◌++◌, OnOk, OnErr, vec_len, vec_capacity};

use crate::Memory;

/// Adds an item to the end of a list. It takes memory if the list has no room left; out of memory is the only refusal, and then the list is as it
/// was, and had no room left.
#[inline(always)]
pub fn push<T: Drop>(list: &mut Vec<T>, item: T) -> Result<(), Memory>
    ensures ok { OnOk result (list.new.items ≡ list.old.items ++ item ∷ []) }
    ensures err { OnErr result (list.new.items ≡ list.old.items) }
    ensures full { OnErr result (vec_len list.old ≡ vec_capacity list.old) }
{
    if list.len() == list.capacity() {
        make_room(list)?;
    }
    list.push_reserved(item);
    Ok(())
}

// Moves the list to where it has room for an item more, at the least.
#[cold]
#[inline(never)]
fn make_room<T: Drop>(list: &mut Vec<T>) -> Result<(), Memory>
    ensures same { list.new.items ≡ list.old.items }
    ensures len { vec_len list.new ≡ vec_len list.old }
    ensures ok { OnOk result (vec_len list.old < vec_capacity list.new) }
{
    list.reserve(1)?;
    Ok(())
}
