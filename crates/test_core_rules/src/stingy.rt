//! Rules of which some calls are refused memory.
use jm_machine::{Configuration, Rules};
use jm_model::{Letter, Monitor, NoMemory};
use std::cell::Cell;

/// Rules of which some calls of `next` in a row answer NoMemory: so many, after so many others.
#[derive(Drop)]
pub(crate) struct Stingy {
    rules: Rules,
    calls: Cell<u32>,
    behind: u32,
    count: u32,
}

impl Stingy {
    pub(crate) fn new(rules: Rules, behind: u32, count: u32) -> Stingy {
        Stingy {
            rules,
            calls: Cell::new(0),
            behind,
            count,
        }
    }
}

impl Monitor for Stingy {
    ghost use Rattle.std.specs.Prelude.{◌≡◌};
    ghost use Rattle.jm_machine.specs.Meanings.{rules_meaning};
    ghost use Rattle.jm_machine.specs.Configurations.{IsConfigurationOf};

    type State = Configuration;

    type Definition = Rules;

    ghost definition = { λ s. s.rules };

    ghost meaning = { λ r. rules_meaning r.definition };

    ghost StandsFor = { λ s r w. IsConfigurationOf s.rules r w };

    ghost HasNumber = { λ m s n. ⊥ };

    fn letters(&self) -> u8 {
        self.rules.letters()
    }

    fn params(&self, letter: Letter) -> u8 {
        self.rules.params(letter)
    }

    fn must_bind(&self) -> u8 {
        self.rules.must_bind()
    }

    fn begin(&self) -> Result<Configuration, NoMemory> {
        self.rules.begin()
    }

    fn copy(&self, state: &Configuration) -> Result<Configuration, NoMemory> {
        self.rules.copy(state)
    }

    fn next(&self, state: &Configuration, letter: Letter) -> Result<Configuration, NoMemory> {
        let call = self.calls.get();
        self.calls.set(call.wrapping_add(1));
        if call.wrapping_sub(self.behind) < self.count {
            return Err(NoMemory);
        }
        self.rules.next(state, letter)
    }

    fn hits(&self, state: &Configuration) -> u16 {
        self.rules.hits(state)
    }

    fn cut(&self, state: &Configuration, dead: u8) -> bool {
        self.rules.cut(state, dead)
    }

    fn idle(&self, state: &Configuration) -> u32 {
        self.rules.idle(state)
    }

    fn ending(&self, state: &Configuration) -> u32 {
        self.rules.ending(state)
    }

    fn renumber(&self, state: &mut Configuration, number: u16) {
        let _state = state;
        let _number = number;
    }
}
