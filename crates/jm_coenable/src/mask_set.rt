ghost use Rattle.std.specs.Prelude.{ℕ, ◌≡◌, ◌<◌, ◌≤◌, ◌⊎◌, ◌↔◌, true, false, [], ◌∷◌, ◌++◌, IsTrue, IfOk, OnOk, Contains, length};
ghost use Rattle.std.specs.List.Sorted.{IsStrictlySortedBy};
ghost use Rattle.std.specs.Ordering.{nat_cmp};
ghost use Rattle.jm_coenable.specs.Needs.{IsAlive};
ghost use Rattle.jm_coenable.specs.Searches.{IsJoined};

use jm_model::NoMemory;
use jm_table::NumberSet;
use std::alloc::Global;
use std::marker::Model;

/// The number of words that have a bit for each of 256 masks.
const WORDS: usize = 4;

/// A set of masks, which are numbers below 256. Contracts see it as the list of its masks, in order.
#[derive(Drop)]
pub(crate) struct MaskSet {
    masks: NumberSet<WORDS>,
}

impl Model for MaskSet {
    ghost use Rattle.std.specs.Prelude.{ℕ, ◌<◌, List, Contains};

    ghost Value = { List ℕ };

    ghost view = { λ s. s.masks };

    ghost invariant = { λ s. (mask : ℕ) → Contains s.masks mask → mask < 256 };
}

impl MaskSet {
    /// No mask.
    pub(crate) fn new() -> MaskSet
        ensures { (mask : ℕ) → ¬ Contains result mask }
    {
        MaskSet {
            masks: NumberSet::new(),
        }
    }

    /// Whether the mask is in the set.
    pub(crate) fn contains(&self, mask: u8) -> bool
        ensures member { IsTrue result ↔ Contains self.now mask }
        ensures bounded { (other : ℕ) → Contains self.now other → other < 256 }
    {
        self.masks.contains(mask as u16)
    }

    /// Puts a mask into the set.
    pub(crate) fn insert(&mut self, mask: u8)
        ensures member { (other : ℕ) → Contains self.new other ↔ (Contains self.old other ⊎ (other ≡ mask)) }
        ensures longer { (Contains self.old mask → ⊥) → length self.old < length self.new }
        ensures bounded { length self.new ≤ 256 }
    {
        self.masks.insert(mask as u16);
    }

    /// Puts a mask into the set, if this is wanted.
    pub(crate) fn insert_if(&mut self, wanted: bool, mask: u8)
        ensures { (other : ℕ) → Contains self.new other ↔ (Contains self.old other
            ⊎ ((wanted ≡ true) × (other ≡ mask))) }
    {
        if wanted {
            self.insert(mask);
        }
    }

    /// Puts these parameters, together with those of each mask of the other set, into the set.
    pub(crate) fn insert_joined(&mut self, params: u8, rests: &MaskSet)
        ensures { (mask : ℕ) → Contains self.new mask ↔ (Contains self.old mask ⊎ IsJoined params rests.now mask) }
    {
        // Its masks are below 256: the proof learns it from the set itself.
        let _ = &rests.masks;
        for number in 0..256u16 {
            let rest = number as u8;
            let wanted = rests.contains(rest);
            self.insert_if(wanted, params | rest);
        }
    }

    /// Whether some mask of the set has none of the dead parameters.
    pub(crate) fn is_alive(&self, dead: u8) -> bool
        ensures { (result ≡ true) ↔ IsAlive (Contains self.now) dead }
    {
        // Its masks are below 256: the proof learns it from the set itself.
        let _ = &self.masks;
        for number in 0..256u16 {
            let mask = number as u8;
            if self.contains(mask) && mask & dead == 0 {
                return true;
            }
        }
        false
    }

    /// The masks in rising order.
    pub(crate) fn masks(&self, alloc: Global) -> Result<Vec<u8>, NoMemory>
        ensures rising { IfOk result (λ masks. IsStrictlySortedBy nat_cmp masks.items) }
        ensures exact { IfOk result (λ masks. (mask : ℕ) → mask < 256
            → Contains masks.items mask ↔ Contains self.now mask) }
        ensures bounded { IfOk result (λ masks. (mask : ℕ) → Contains masks.items mask → mask < 256) }
    {
        let mut masks = Vec::new(alloc);
        for number in 0..256u16 {
            let mask = number as u8;
            let wanted = self.contains(mask);
            push_if(&mut masks, wanted, mask)?;
        }
        Ok(masks)
    }
}

fn push_if(masks: &mut Vec<u8>, wanted: bool, mask: u8) -> Result<(), NoMemory>
    ensures pushed { wanted ≡ true → OnOk result (masks.new.items ≡ masks.old.items ++ mask ∷ []) }
    ensures kept { wanted ≡ false → masks.new.items ≡ masks.old.items }
{
    if wanted {
        masks.push(mask)?;
    }
    Ok(())
}
