ghost use Rattle.std.specs.Prelude.{ℕ, ◌≡◌, ◌<◌, Contains, IfOk, length};
ghost use Rattle.jm_coenable.specs.Needs.{set_at};
ghost use Rattle.jm_coenable.specs.Rounds.{IsPut};

use crate::mask_set::MaskSet;
use jm_model::NoMemory;
use std::alloc::Global;

/// The given number of empty sets.
pub(crate) fn empty_sets(alloc: Global, count: u16) -> Result<Vec<MaskSet>, NoMemory>
    ensures count { IfOk result (λ sets. length sets.items ≡ count) }
    ensures empty { IfOk result (λ sets. (place member : ℕ) → ¬ Contains (set_at sets.items place) member) }
{
    let mut sets = Vec::with_capacity(alloc, count as usize)?;
    for _made in 0..count {
        sets.push(MaskSet::new())?;
    }
    Ok(sets)
}

/// Puts a member into the set of a place, if this is wanted. Whether that changed the set.
pub(crate) fn put(sets: &mut Vec<MaskSet>, wanted: bool, place: u16, member: u8) -> bool
    requires { place < length sets.old.items }
    ensures { IsPut sets.old.items sets.new.items wanted place member result }
{
    if !wanted {
        return false;
    }
    let set = &mut sets[place as usize];
    if set.contains(member) {
        return false;
    }
    set.insert(member);
    true
}
