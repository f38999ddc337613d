//! Lists backwards, to be taken from the front by `pop`.

ghost use Rattle.std.specs.Prelude.{◌≡◌, IfOk, reverse};

use sqlite_items::Items;
use std::alloc::{AllocError, Global};

/// The items, the last one first.
pub fn reversed<T: Drop>(alloc: Global, mut items: Items<T>) -> Result<Items<T>, AllocError>
    ensures { IfOk result (λ turned. turned ≡ reverse items) }
{
    let mut turned = Items::new(alloc);
    while let Some(item) = items.pop() {
        turned.push(item)?;
    }
    Ok(turned)
}
