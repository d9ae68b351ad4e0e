//! Items that are made one by one.
ghost use Rattle.std.specs.Prelude.{◌≡◌, ℕ, ◌+◌, ◌<◌, ◌^◌, ◌++◌, length, OnOk};
ghost use Rattle.st_picture.specs.Items.{items_by};
ghost use Rattle.st_shape.specs.declared.item.Item.{Item};
ghost use Rattle.st_shape.specs.Rules.{FitsFrame};

use st_ids::NoMemory;
use st_shape::{Item, Picture};

/// Adds the item that the closure answers for each number below n, in their order.
///
/// Conditions: each answer fits the frame, and there is room for all.
/// Errors: `NoMemory`; some of the items may have been added.
/// Cost: one call of the closure a number, and the memory of the items. Not proved.
pub fn push_each<F: Fn(u32) -> Item>(picture: &mut Picture, n: u32, item: F) -> Result<(), NoMemory>
    requires callable { (k : ℕ) → k < n → F.pre item k }
    requires fits { (k : ℕ) (x : Item) → k < n → F.post item k x → FitsFrame picture.old.frame x }
    requires room { length picture.old.items + n < 2 ^ 31 }
    ensures { (f : ℕ → Item) → ((k : ℕ) (x : Item) → k < n → F.post item k x → x ≡ f k) → OnOk result (picture.new ≡ record picture.old { items = picture.old.items ++ items_by f n }) }
{
    for k in 0..n {
        picture.push(item(k))?;
    }
    Ok(())
}
