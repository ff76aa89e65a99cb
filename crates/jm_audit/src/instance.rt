//! An instance with its slice.
ghost use Rattle.std.specs.Prelude.{◌≡◌, [], true, IfOk, OnOk};
ghost use Rattle.jm_model.specs.Bindings.{empty, is_compatible};
ghost use Rattle.jm_audit.specs.Slices.{advanced, joined};

use jm_model::{Binding, Letter, NoMemory};
use std::alloc::Global;
use std::marker::Model;

/// An instance, and the letters of its slice.
#[derive(Drop)]
pub(crate) struct Instance {
    binding: Binding,
    word: Vec<u8>,
}

impl Model for Instance {
    ghost use Rattle.jm_audit.specs.Slices.{Sliced};

    ghost Value = { Sliced };

    ghost view = { λ i. record { binding = i.binding; word = i.word.items } };
}

impl Instance {
    /// The instance that binds nothing, before any event.
    pub(crate) fn empty(alloc: Global) -> Instance
        ensures { result ≡ record { binding = empty; word = [] } }
    {
        Instance {
            binding: Binding::empty(),
            word: Vec::new(alloc),
        }
    }

    pub(crate) fn binding(&self) -> &Binding
        ensures { result.now ≡ self.now.binding }
    {
        &self.binding
    }

    /// The letters of the slice, in order.
    pub(crate) fn word(&self) -> &[u8]
        ensures { result.now ≡ self.now.word }
    {
        self.word.as_slice()
    }

    /// The join with a binding, with the same slice.
    pub(crate) fn joined(&self, binding: &Binding) -> Result<Instance, NoMemory>
        requires { is_compatible self.now.binding binding.now ≡ true }
        ensures { IfOk result (λ i. i ≡ joined binding.now self.now) }
    {
        Ok(Instance {
            binding: self.binding.join(binding),
            word: self.word.clone()?,
        })
    }

    /// Adds the letter of an event, if the instance lies above its binding.
    pub(crate) fn advance(&mut self, letter: Letter, binding: &Binding) -> Result<(), NoMemory>
        ensures { OnOk result (self.new ≡ advanced letter.0 binding.now self.old) }
    {
        if binding.le(&self.binding) {
            self.word.push(letter.0)?;
        }
        Ok(())
    }
}
