//! Where a mark may stand: for an object the place of a mark that binds it. A hint is looked at before it is believed,
//! so it may be old, or that of another mark.
use jm_model::Binding;
use std::alloc::Global;

/// The number of objects beyond those that there are which have room for a hint.
const AHEAD: u64 = 64;

/// The number of objects up to which there are hints.
const MOST: u64 = 65_536 + AHEAD;

/// A place for each object, in their order.
#[derive(Drop)]
pub(crate) struct Hints {
    places: Vec<u32>,
}

impl Hints {
    /// No hint.
    pub(crate) fn new(alloc: Global) -> Hints {
        Hints {
            places: Vec::new(alloc),
        }
    }

    /// Makes room for the objects below a limit and for some more, if there is memory. Rooms are made for many at once.
    pub(crate) fn cover(&mut self, limit: u64) {
        let there = self.places.len() as u64;
        if limit.saturating_add(AHEAD / 2) < there || limit >= MOST {
            return;
        }
        let wanted = limit.saturating_mul(2).saturating_add(AHEAD).min(MOST);
        if wanted > there {
            let _ = self.places.resize(wanted as usize, 0);
        }
    }

    /// Where a binding may stand.
    pub(crate) fn place_of(&self, binding: &Binding) -> Option<usize> {
        let object = last_object(binding)?;
        match self.places.get(object as usize) {
            Some(place) => Some(*place as usize),
            None => None,
        }
    }

    /// Notes where a binding stands, if its object has room for a hint.
    pub(crate) fn note(&mut self, binding: &Binding, place: usize) {
        let Some(object) = last_object(binding) else {
            return;
        };
        let at = object as usize;
        if at < self.places.len() && place < u32::MAX as usize {
            self.places[at] = place as u32;
        }
    }
}

/// The object of the last parameter that is bound.
fn last_object(binding: &Binding) -> Option<u32> {
    let mask = binding.mask();
    if mask == 0 {
        return None;
    }
    binding.get(mask.ilog2() as u8)
}
