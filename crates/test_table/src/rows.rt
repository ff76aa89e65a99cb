//! A graph that is listed: where each letter leads, number by number and letter by letter.

ghost use Rattle.std.specs.Prelude.{◌+◌, ◌*◌, Ok, slice_index};

use jm_model::{Letter, SpecError};
use jm_table::Graph;

/// Numbers, of which 0 is the start. A letter that isn't listed leads to 0.
#[derive(Drop)]
pub(crate) struct Rows {
    pub(crate) letters: u8,
    pub(crate) next: Vec<u16>,
}

impl Graph for Rows {
    type Node = u16;

    type Data = u16;

    ghost data_of = { λ r node. node };

    ghost meaning = { λ r. record {
      start = Ok 0;
      step = λ d letter. Ok (slice_index r.next.items (d * r.letters + letter));
    } };

    ghost key_of = { λ r d. d };

    fn start(&self) -> Result<u16, SpecError> {
        Ok(0)
    }

    fn step(&self, node: &u16, letter: Letter) -> Result<u16, SpecError> {
        let place = *node as usize * self.letters as usize + letter.0 as usize;
        if place < self.next.len() {
            Ok(self.next[place])
        } else {
            Ok(0)
        }
    }

    fn same(&self, a: &u16, b: &u16) -> bool {
        *a == *b
    }

    fn key(&self, node: &u16) -> u64 {
        u64::from(*node)
    }
}
