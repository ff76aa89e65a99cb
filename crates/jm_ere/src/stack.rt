//! A stack that contracts see as a list.
ghost use Rattle.std.specs.Prelude.{◌≡◌, [], ◌∷◌, OnOk, IfErr, MatchOption};

use jm_model::SpecError;
use std::alloc::Global;
use std::marker::Model;

/// A stack. Contracts see it as the list of its items, the topmost first.
#[derive(Drop)]
pub struct Stack<T> {
    items: Vec<T>,
}

impl<T> Model for Stack<T> {
    ghost use Rattle.std.specs.Prelude.{List, reverse};

    ghost Value = { List T };

    ghost view = { λ s. reverse s.items.items };
}

impl<T: Drop> Stack<T> {
    /// No item.
    pub fn new(alloc: Global) -> Stack<T>
        ensures { result ≡ [] }
    {
        Stack {
            items: Vec::new(alloc),
        }
    }

    /// Puts an item on top.
    #[tactic(auto, using(crate::proofs::StackLemmas::pushed))]
    pub fn push(&mut self, item: T) -> Result<(), SpecError>
        ensures ok { OnOk result (self.new ≡ item ∷ self.old) }
        ensures err { IfErr result (λ e. e ≡ SpecError.NoMemory) }
    {
        self.items.push(item)?;
        Ok(())
    }

    /// Takes the topmost item.
    #[tactic(auto, using(crate::proofs::StackLemmas::popped))]
    pub fn pop(&mut self) -> Option<T>
        ensures { MatchOption result ((self.old ≡ []) × (self.new ≡ [])) (λ x. self.old ≡ x ∷ self.new) }
    {
        self.items.pop()
    }
}
