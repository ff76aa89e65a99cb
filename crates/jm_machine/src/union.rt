//! Sets of masks, in rising order.
ghost use Rattle.std.specs.Prelude.{ℕ, ◌≡◌, ◌<◌, ◌↔◌, ◌⊎◌, ◌++◌, ◌∷◌, [], true, false, Contains, IfOk, OnOk};
ghost use Rattle.std.specs.List.Sorted.{IsStrictlySortedBy};
ghost use Rattle.std.specs.Ordering.{nat_cmp};

use jm_model::NoMemory;
use std::alloc::Global;

/// The masks that are in one of two lists, in rising order.
pub(crate) fn union_of(alloc: Global, one: &[u8], other: &[u8]) -> Result<Vec<u8>, NoMemory>
    ensures rising { IfOk result (λ masks. IsStrictlySortedBy nat_cmp masks.items) }
    ensures exact { IfOk result (λ masks. (mask : ℕ) → mask < 256
        → Contains masks.items mask ↔ (Contains one.now mask ⊎ Contains other.now mask)) }
    ensures bounded { IfOk result (λ masks. (mask : ℕ) → Contains masks.items mask → mask < 256) }
{
    let mut masks = Vec::new(alloc);
    for number in 0..256u16 {
        let mask = number as u8;
        let wanted = is_in_either(one, other, mask);
        push_if(&mut masks, wanted, mask)?;
    }
    Ok(masks)
}

/// Whether a mask is in one of two lists.
fn is_in_either(one: &[u8], other: &[u8], mask: u8) -> bool
    ensures { (result ≡ true) ↔ (Contains one.now mask ⊎ Contains other.now mask) }
{
    is_in(one, mask) || is_in(other, mask)
}

/// Whether a mask is in a list.
fn is_in(masks: &[u8], mask: u8) -> bool
    ensures { (result ≡ true) ↔ Contains masks.now mask }
{
    masks.contains(&mask)
}

fn push_if(masks: &mut Vec<u8>, wanted: bool, mask: u8) -> Result<(), NoMemory>
    ensures pushed { wanted ≡ true → OnOk result (masks.new.items ≡ masks.old.items ++ mask ∷ []) }
    ensures kept { wanted ≡ false → masks.new.items ≡ masks.old.items }
{
    if wanted {
        masks.push(mask)?;
    }
    Ok(())
}
