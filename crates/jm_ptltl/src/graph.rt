ghost use Rattle.std.specs.Prelude.{ℕ};
ghost use Rattle.jm_ptltl.specs.Vectors.{graph_of, key_of};

use crate::past::Past;
use crate::vector::next_vector;
use jm_model::{Letter, SpecError};
use jm_table::Graph;

/// The start, and the vectors of truth, which stand for themselves. No step has a fault.
impl Graph for Past {
    type Node = Option<u64>;

    type Data = Option<u64>;

    ghost data_of = { λ p vector. vector };

    ghost meaning = { λ p. graph_of p };

    ghost key_of = { λ p vector. key_of vector };

    fn start(&self) -> Result<Option<u64>, SpecError> {
        Ok(None)
    }

    fn step(&self, node: &Option<u64>, letter: Letter) -> Result<Option<u64>, SpecError> {
        Ok(Some(next_vector(self.nodes(), *node, letter)))
    }

    fn same(&self, a: &Option<u64>, b: &Option<u64>) -> bool {
        *a == *b
    }

    /// The high bits of a product, to which all bits of the vector add.
    fn key(&self, node: &Option<u64>) -> u64 {
        match node {
            Some(vector) => vector.wrapping_mul(0x9E37_79B9_7F4A_7C15) >> 54,
            None => 0,
        }
    }
}
