ghost use Rattle.std.specs.Prelude.{ℕ, ◌≡◌, ◌<◌, ◌↔◌, true, Contains, IfOk, length};
ghost use Rattle.jm_coenable.specs.Needs.{set_at};
ghost use Rattle.jm_coenable.specs.Searches.{IsNeededAtArrival, AreDeadSets, IsFamilySet};

use crate::mask_set::MaskSet;
use jm_model::{Letter, NoMemory};
use std::alloc::Global;

/// The sets of dead parameters at which some mask of the set has none of them.
pub(crate) fn alive_set(needed: &MaskSet) -> MaskSet
    ensures { AreDeadSets needed.now result }
{
    let mut alive = MaskSet::new();
    for number in 0..256u16 {
        let dead = number as u8;
        let wanted = needed.is_alive(dead);
        alive.insert_if(wanted, dead);
    }
    alive
}

/// Whether some state has the letter among its last letters, and the mask among what is needed from it.
pub(crate) fn is_in_family(
    arrivals: &[MaskSet],
    needed: &[MaskSet],
    letter: Letter,
    mask: u8,
) -> bool
    requires { length arrivals.now ≡ length needed.now }
    ensures { (result ≡ true) ↔ IsNeededAtArrival arrivals.now needed.now letter.0 mask }
{
    for state in 0..needed.len() {
        if has_both(&arrivals[state], letter.0, &needed[state], mask) {
            return true;
        }
    }
    false
}

/// The masks of which this holds.
pub(crate) fn family_set(arrivals: &[MaskSet], needed: &[MaskSet], letter: Letter) -> MaskSet
    requires { length arrivals.now ≡ length needed.now }
    ensures { IsFamilySet arrivals.now needed.now letter.0 result }
{
    let mut family = MaskSet::new();
    for number in 0..256u16 {
        let mask = number as u8;
        let wanted = is_in_family(arrivals, needed, letter, mask);
        family.insert_if(wanted, mask);
    }
    family
}

fn has_both(arrivals: &MaskSet, letter: u8, needed: &MaskSet, mask: u8) -> bool
    ensures { (result ≡ true) ↔ (Contains arrivals.now letter × Contains needed.now mask) }
{
    arrivals.contains(letter) && needed.contains(mask)
}

/// The sets of dead parameters of each set.
pub(crate) fn alive_sets(alloc: Global, needed: &[MaskSet]) -> Result<Vec<MaskSet>, NoMemory>
    ensures count { IfOk result (λ sets. length sets.items ≡ length needed.now) }
    ensures exact { IfOk result (λ sets. (place : ℕ) → place < length sets.items
        → AreDeadSets (set_at needed.now place) (set_at sets.items place)) }
{
    let mut alive = Vec::new(alloc);
    for place in 0..needed.len() {
        alive.push(alive_set(&needed[place]))?;
    }
    Ok(alive)
}

/// The family of each letter.
pub(crate) fn family_sets(
    alloc: Global,
    arrivals: &[MaskSet],
    needed: &[MaskSet],
    letters: u8,
) -> Result<Vec<MaskSet>, NoMemory>
    requires { length arrivals.now ≡ length needed.now }
    ensures count { IfOk result (λ sets. length sets.items ≡ letters) }
    ensures exact { IfOk result (λ sets. (letter : ℕ) → letter < length sets.items
        → IsFamilySet arrivals.now needed.now letter (set_at sets.items letter)) }
{
    let mut families = Vec::new(alloc);
    for letter in 0..letters {
        families.push(family_set(arrivals, needed, Letter(letter)))?;
    }
    Ok(families)
}
