ghost use Rattle.std.specs.Prelude.{ℕ, ◌≡◌, ◌<◌, ◌≤◌, ◌*◌, IfOk, OnOk, length, slice_index};
ghost use Rattle.jm_table.specs.Partitions.{IsPartition, IsKnown, AreGiven, AreGivenOn, FitClasses, AreNumbered};
ghost use Rattle.jm_table.specs.Explorations.{most_states};

use jm_model::NoMemory;
use std::alloc::Global;

/// Classes of the states of a table.
#[derive(Drop)]
pub(crate) struct Partition {
    /// The class of each state.
    pub(crate) classes: Vec<u16>,
    /// A state of each class; that of class 0 is the start.
    pub(crate) firsts: Vec<u16>,
}

impl Partition {
    /// One class of all states.
    pub(crate) fn whole(alloc: Global, states: u16) -> Result<Partition, NoMemory>
        requires { 0 < states }
        ensures partition { IfOk result (λ p. IsPartition states p.classes.items p.firsts.items) }
        ensures one { IfOk result (λ p. (state : ℕ) → state < states → slice_index p.classes.items state ≡ 0) }
    {
        let mut firsts = Vec::new(alloc);
        firsts.push(0)?;
        let classes = vec![in alloc; 0u16; states as usize]?;
        Ok(Partition { classes, firsts })
    }

    /// Makes classes of the states that have one key. A key that is the number of a class keeps this number, and keys
    /// of other numbers get the next ones in the order of their states.
    pub(crate) fn split(&mut self, alloc: Global, keys: &[u16]) -> Result<(), NoMemory>
        requires partition { IsPartition (length keys.now) self.old.classes.items self.old.firsts.items }
        requires fit { FitClasses (length keys.now) self.old.firsts.items keys.now }
        requires bounded { length keys.now ≤ most_states }
        ensures { OnOk result (AreNumbered (length keys.now) keys.now self.old.firsts.items
            self.new.classes.items self.new.firsts.items) }
    {
        let end = 2 * self.firsts.len() as u16;
        let mut numbers = Vec::with_capacity(alloc, end as usize)?;
        for number in 0..end {
            numbers.push(number)?;
        }
        for state in 0..keys.len() {
            let number = number_of(&mut self.firsts, &mut numbers, keys, state)?;
            self.classes[state] = number;
        }
        Ok(())
    }
}

/// The number of a state's key, which is a new one where the key has none.
///
/// What stands in `numbers` at a key counts only where that number's first state has the key.
fn number_of(
    firsts: &mut Vec<u16>,
    numbers: &mut Vec<u16>,
    keys: &[u16],
    state: usize,
) -> Result<u16, NoMemory>
    requires state { state < length keys.now }
    requires bounded { length keys.now ≤ most_states }
    requires room { length firsts.old.items < 2048 }
    requires key { slice_index keys.now state < length numbers.old.items }
    requires given { AreGiven (length keys.now) keys.now numbers.old.items firsts.old.items }
    ensures known { IfOk result (IsKnown keys.now numbers.new.items firsts.new.items (slice_index keys.now state)) }
    ensures ok { OnOk result (AreGivenOn keys.now numbers.old.items firsts.old.items
        numbers.new.items firsts.new.items) }
{
    let key = keys[state];
    let number = numbers[key as usize];
    if (number as usize) < firsts.len() && keys[firsts[number as usize] as usize] == key {
        return Ok(number);
    }
    let number = firsts.len() as u16;
    firsts.push(state as u16)?;
    numbers[key as usize] = number;
    Ok(number)
}
