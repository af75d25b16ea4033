//! The next item of a list, if there is one.

ghost use Rattle.std.specs.Prelude.{◌≡◌, ◌++◌, IsNone, IsOk, OnErr, OnOk};
ghost use Rattle.std.specs.Option.{option_to_list};

use std::alloc::AllocError;

/// Puts an item at the end of a list, if there is one. `AllocError` if the list finds no room for it; the list is then
/// unchanged, and the item is dropped. No item needs no room.
#[inline(always)]
pub fn push_some<T: Drop>(items: &mut Vec<T>, item: Option<T>) -> Result<(), AllocError>
    ensures ok { OnOk result (items.new.items ≡ items.old.items ++ option_to_list item) }
    ensures none { IsNone item → IsOk result }
    ensures err { OnErr result (items.new.items ≡ items.old.items) }
{
    if let Some(item) = item {
        items.push(item)?;
    }
    Ok(())
}

/// Does what `push_some` does, but takes room for `room` items before the first one: a list that gets as many does not
/// move while it grows.
pub fn push_some_with_room<T: Drop>(
    items: &mut Vec<T>,
    item: Option<T>,
    room: usize,
) -> Result<(), AllocError>
    ensures ok { OnOk result (items.new.items ≡ items.old.items ++ option_to_list item) }
    ensures none { IsNone item → IsOk result }
    ensures err { OnErr result (items.new.items ≡ items.old.items) }
{
    if item.is_some() && items.is_empty() {
        items.reserve(room)?;
    }
    push_some(items, item)
}
