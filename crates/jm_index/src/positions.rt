//! The positions of bindings: exact look-ups, by how many parameters a binding binds.
ghost use Rattle.std.specs.Prelude.{◌≡◌, true, false, Some, None, OnOk, OnErr, IfOk, if◌then◌else◌};
ghost use Rattle.std.specs.HashMap.{get};
ghost use Rattle.jm_model.specs.declared.binding.Binding.{Binding as Bound};
ghost use Rattle.jm_model.specs.Layout.{binding_eq};
ghost use Rattle.jm_index.specs.Keys.{position_in};

use crate::key::{Key, ParamPair, key_of};
use crate::rows::Rows;
use jm_model::{Binding, NoMemory};
use std::alloc::Global;
use std::collections::HashMap;

/// Positions of bindings. Those that fit four bytes stand under the keys of bindings of at most two parameters; all
/// others stand in `others`.
#[derive(Drop)]
pub(crate) struct Positions {
    pub(crate) empty: Option<u32>,
    pub(crate) rows: Rows,
    pub(crate) param_pairs: HashMap<ParamPair, u32>,
    pub(crate) others: HashMap<Binding, usize>,
}

impl Positions {
    ghost use Rattle.jm_index.specs.Positions.{at_key, position_of, IsPut, IsSameAt, IsSame, IsUpdated};

    /// No position.
    pub(crate) fn new(alloc: Global) -> Positions
        ensures { (b : Bound) → position_of result b ≡ None }
    {
        Positions {
            empty: None,
            rows: Rows::new(alloc),
            param_pairs: HashMap::new(alloc),
            others: HashMap::new(alloc),
        }
    }

    /// The position of a binding.
    #[inline(always)]
    pub(crate) fn get(&self, binding: &Binding) -> Option<usize>
        ensures { result ≡ position_of self.now binding.now }
    {
        match self.at(key_of(binding)) {
            Some(position) => Some(position as usize),
            None => self.other(binding),
        }
    }

    /// The position under a key.
    #[inline(always)]
    fn at(&self, key: Key) -> Option<u32>
        ensures { result ≡ at_key self.now key }
    {
        match key {
            Key::Empty => self.empty,
            Key::One(mask, object) => position_in(self.rows.get(mask, object)),
            Key::Two(param_pair) => self.param_pairs.get(&param_pair).copied(),
            Key::More => None,
        }
    }

    /// The position among all others.
    #[inline(never)]
    fn other(&self, binding: &Binding) -> Option<usize>
        ensures { result ≡ get binding_eq self.now.others binding.now }
    {
        if self.others.is_empty() {
            return None;
        }
        self.others.get(binding).copied()
    }

    /// Gives a binding a position.
    pub(crate) fn insert(&mut self, binding: &Binding, position: usize) -> Result<(), NoMemory>
        requires { position_of self.old binding.now ≡ None }
        ensures ok { OnOk result (IsUpdated binding.now (Some position) self.old self.new) }
        ensures err { OnErr result (IsSame self.old self.new) }
    {
        if self.put(key_of(binding), position)? {
            return Ok(());
        }
        self.others.insert(*binding, position)?;
        Ok(())
    }

    /// Puts a position under a key, if it fits and the key has a place for one. Says whether it did.
    fn put(&mut self, key: Key, position: usize) -> Result<bool, NoMemory>
        ensures others { self.new.others ≡ self.old.others }
        ensures put { IfOk result (λ put. put ≡ true → IsPut key (Some position) self.old self.new) }
        ensures not_put { IfOk result (λ put. put ≡ false → IsSameAt self.old self.new) }
        ensures err { OnErr result (IsSameAt self.old self.new) }
    {
        if position >= u32::MAX as usize {
            return Ok(false);
        }
        let short = position as u32;
        match key {
            Key::Empty => self.empty = Some(short),
            Key::One(mask, object) => self.rows.set(mask, object, short + 1)?,
            Key::Two(param_pair) => {
                self.param_pairs.insert(param_pair, short)?;
            }
            Key::More => return Ok(false),
        }
        Ok(true)
    }

    /// Takes the position of a binding out.
    pub(crate) fn remove(&mut self, binding: &Binding) -> Option<usize>
        ensures value { result ≡ position_of self.old binding.now }
        ensures updated { IsUpdated binding.now None self.old self.new }
    {
        let under = self.take(key_of(binding));
        let among = self.take_other(binding);
        match under {
            Some(position) => Some(position as usize),
            None => among,
        }
    }

    /// Takes the position under a key out.
    fn take(&mut self, key: Key) -> Option<u32>
        ensures value { result ≡ at_key self.old key }
        ensures others { self.new.others ≡ self.old.others }
        ensures put { IsPut key None self.old self.new }
    {
        match key {
            Key::Empty => {
                let position = self.empty;
                self.empty = None;
                position
            }
            Key::One(mask, object) => {
                let position = position_in(self.rows.get(mask, object));
                self.rows.clear(mask, object);
                position
            }
            Key::Two(param_pair) => self.param_pairs.remove(&param_pair),
            Key::More => None,
        }
    }

    /// Takes the position among all others out.
    fn take_other(&mut self, binding: &Binding) -> Option<usize>
        ensures value { result ≡ get binding_eq self.old.others binding.now }
        ensures under { IsSameAt self.old self.new }
        ensures updated { (q : Bound) → get binding_eq self.new.others q
            ≡ (if binding_eq binding.now q then None else get binding_eq self.old.others q) }
    {
        if self.others.is_empty() {
            return None;
        }
        self.others.remove(binding)
    }
}

/// The position, if there is one, by the number that `Rows` keeps.
fn position_in(position_plus_one: u32) -> Option<u32>
    ensures { result ≡ position_in position_plus_one }
{
    position_plus_one.checked_sub(1)
}
