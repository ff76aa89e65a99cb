//! Rules that are lent.
ghost use Rattle.std.specs.Prelude.{◌≡◌};

use jm_model::{Letter, Monitor, NoMemory};
use std::marker::Model;

/// A monitor that is lent, so that several cores run by it and no rules are copied. Contracts see the monitor itself.
#[derive(Drop)]
pub struct Lent<'a, M: Monitor> {
    rules: &'a M,
}

impl<'a, M: Monitor> Model for Lent<'a, M> {
    ghost Value = { M };

    ghost view = { λ l. l.rules.now };
}

impl<'a, M: Monitor> Lent<'a, M> {
    /// Lends a monitor.
    pub fn new(rules: &'a M) -> Lent<'a, M>
        ensures { result ≡ rules.now }
    {
        Lent { rules }
    }
}

impl<'a, M: Monitor> Monitor for Lent<'a, M> {
    type State = M::State;

    type Definition = M::Definition;

    ghost definition = { λ l. M.definition l };

    ghost meaning = { M.meaning };

    ghost StandsFor = { λ l s w. M.StandsFor l s w };

    ghost HasNumber = { λ l s n. M.HasNumber l s n };

    fn letters(&self) -> u8 {
        self.rules.letters()
    }

    fn params(&self, letter: Letter) -> u8 {
        self.rules.params(letter)
    }

    fn must_bind(&self) -> u8 {
        self.rules.must_bind()
    }

    fn begin(&self) -> Result<M::State, NoMemory> {
        self.rules.begin()
    }

    fn copy(&self, state: &M::State) -> Result<M::State, NoMemory> {
        self.rules.copy(state)
    }

    fn next(&self, state: &M::State, letter: Letter) -> Result<M::State, NoMemory> {
        self.rules.next(state, letter)
    }

    fn hits(&self, state: &M::State) -> u16 {
        self.rules.hits(state)
    }

    fn cut(&self, state: &M::State, dead: u8) -> bool {
        self.rules.cut(state, dead)
    }

    fn idle(&self, state: &M::State) -> u32 {
        self.rules.idle(state)
    }

    fn ending(&self, state: &M::State) -> u32 {
        self.rules.ending(state)
    }

    fn number(&self, state: &M::State) -> Option<u16> {
        self.rules.number(state)
    }

    fn renumber(&self, state: &mut M::State, number: u16) {
        self.rules.renumber(state, number);
    }

    fn plain(&self, letter: Letter) -> &[u16] {
        self.rules.plain(letter)
    }

    fn endings(&self) -> &[u32] {
        self.rules.endings()
    }
}
