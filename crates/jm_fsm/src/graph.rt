ghost use Rattle.std.specs.Prelude.{Ok};
ghost use Rattle.jm_fsm.specs.Meanings.{next_destination};
ghost use Rattle.jm_fsm.specs.Keys.{key_of};
ghost use Rattle.jm_fsm.specs.declared.machine.Destination.TheVariants.{State};

use crate::machine::{Destination, Fsm};
use jm_model::{Letter, SpecError};
use jm_table::Graph;

/// The states of a machine and `fail` as nodes, which stand for themselves. No step has a fault.
impl Graph for Fsm {
    type Node = Destination;

    type Data = Destination;

    ghost data_of = { λ m destination. destination };

    ghost meaning = { λ m. record {
      start = Ok (State 0);
      step = λ destination letter. Ok
          (next_destination m destination letter);
    } };

    ghost key_of = { λ m destination. key_of destination };

    fn start(&self) -> Result<Destination, SpecError> {
        Ok(Destination::State(0))
    }

    fn step(&self, node: &Destination, letter: Letter) -> Result<Destination, SpecError> {
        Ok(self.after(*node, letter))
    }

    fn same(&self, a: &Destination, b: &Destination) -> bool {
        *a == *b
    }

    fn key(&self, node: &Destination) -> u64 {
        match node {
            Destination::State(number) => u64::from(*number),
            Destination::Fail => 1023,
        }
    }
}
