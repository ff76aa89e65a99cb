//! A circle of numbers, in which each letter goes on by its number and one.

ghost use Rattle.std.specs.Prelude.{◌==◌, ◌+◌, ◌%◌, Ok, Err, if◌then◌else◌};
ghost use Rattle.jm_model.specs.declared.fault.SpecFault.TheVariants.{Syntax};

use jm_model::{Letter, SpecError, SpecFault};
use jm_table::Graph;

#[derive(Drop)]
pub(crate) struct Circle {
    /// The last number of the circle, which begins at 0.
    pub(crate) last: u32,
    /// No letter leads on from this one.
    pub(crate) fault_at: u32,
}

impl Graph for Circle {
    type Node = u32;

    type Data = u32;

    ghost data_of = { λ c node. node };

    ghost meaning = { λ c. record {
      start = Ok 0;
      step = λ d letter. if d == c.fault_at then Err (Syntax 7) else Ok ((d + letter + 1) % (c.last + 1));
    } };

    ghost key_of = { λ c d. d };

    fn start(&self) -> Result<u32, SpecError> {
        Ok(0)
    }

    fn step(&self, node: &u32, letter: Letter) -> Result<u32, SpecError> {
        if *node == self.fault_at {
            return Err(SpecError::Bad(SpecFault::Syntax { line: 7 }));
        }
        let next = (u64::from(*node) + u64::from(letter.0) + 1) % (u64::from(self.last) + 1);
        Ok(next as u32)
    }

    fn same(&self, a: &u32, b: &u32) -> bool {
        *a == *b
    }

    fn key(&self, node: &u32) -> u64 {
        u64::from(*node)
    }
}
