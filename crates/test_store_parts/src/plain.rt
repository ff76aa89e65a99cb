//! The pairs of an index as a plain list, which is looked through.
use jm_model::{Binding, NoMemory};
use std::alloc::Global;
use testkit_steps::Draw;

#[derive(Drop)]
struct Pair {
    binding: Binding,
    slot: usize,
}

#[derive(Drop)]
pub(crate) struct Plain {
    pairs: Vec<Pair>,
}

impl Plain {
    pub(crate) fn new(alloc: Global) -> Plain {
        Plain {
            pairs: Vec::new(alloc),
        }
    }

    pub(crate) fn add(&mut self, binding: Binding, slot: usize) -> Result<(), NoMemory> {
        self.remove(&binding);
        self.pairs.push(Pair { binding, slot })?;
        Ok(())
    }

    pub(crate) fn remove(&mut self, binding: &Binding) {
        self.pairs.retain(|pair| pair.binding != *binding);
    }

    /// The binding of some pair, or that of no parameter.
    pub(crate) fn some(&self, draw: &mut Draw) -> Binding {
        let place = draw.below((self.pairs.len() % 65536) as u32);
        match self.pairs.get(place as usize) {
            Some(pair) => pair.binding,
            None => Binding::empty(),
        }
    }

    pub(crate) fn ask(
        &self,
        alloc: Global,
        domain: u8,
        binding: &Binding,
    ) -> Result<Vec<usize>, NoMemory> {
        let mut slots = Vec::new(alloc);
        for pair in &self.pairs {
            if pair.binding.mask() == domain && pair.binding.compatible(binding) {
                slots.push(pair.slot)?;
            }
        }
        Ok(slots)
    }
}
