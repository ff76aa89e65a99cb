//! Numbers that look random, the same at each run.
use crate::bindings::with_pair;
use jm_model::Binding;

/// What numbers are drawn from.
#[derive(Drop)]
pub struct Draw {
    state: u64,
}

impl Draw {
    /// The numbers of a seed.
    pub fn new(seed: u32) -> Draw {
        Draw {
            state: u64::from(seed),
        }
    }

    /// A number below `n`, or 0.
    pub fn below(&mut self, n: u32) -> u32 {
        self.state = self
            .state
            .wrapping_mul(6364136223846793005)
            .wrapping_add(1442695040888963407);
        if n == 0 {
            return 0;
        }
        ((self.state >> 33) % u64::from(n)) as u32
    }

    /// A binding that binds each of the parameters with one chance in two, to one of few objects.
    pub fn binding(&mut self, parameters: u8, objects: u32) -> Binding {
        let mut binding = Binding::empty();
        for p in 0..parameters {
            if self.below(2) == 1 {
                binding = with_pair(binding, p, self.below(objects));
            }
        }
        binding
    }

    /// Some of the parameters.
    pub fn mask(&mut self) -> u8 {
        (self.below(256) % 256) as u8
    }
}
