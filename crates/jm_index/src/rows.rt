//! Rows of positions plus one, by a set of one parameter and by object. Where there is no position stands 0.
ghost use Rattle.std.specs.Prelude.{◌≡◌, ℕ, ◌<◌, [], length, OnOk, OnErr, slice_index, slice_index_or, slice_set};
ghost use Rattle.jm_index.specs.Keys.{position_plus_one_at};

use crate::growth::grow;
use jm_model::NoMemory;
use std::alloc::Global;
use std::marker::Model;

/// The positions plus one of the objects of a set of one parameter, or 0. An object beyond the last has no position.
#[derive(Drop)]
pub(crate) struct Row {
    positions_plus_one: Vec<u32>,
}

impl Model for Row {
    ghost use Rattle.std.specs.Prelude.{List, ℕ};

    ghost Value = { List ℕ };

    ghost view = { λ r. r.positions_plus_one.items };
}

impl Row {
    fn new(alloc: Global) -> Row
        ensures { result ≡ [] }
    {
        Row {
            positions_plus_one: Vec::new(alloc),
        }
    }

    fn get(&self, object: u32) -> u32
        ensures { result ≡ slice_index self.now object }
    {
        match self.positions_plus_one.get(object as usize) {
            Some(position_plus_one) => *position_plus_one,
            None => 0,
        }
    }

    /// Makes a place for an object, where there is none.
    fn cover(&mut self, object: u32) -> Result<(), NoMemory>
        ensures unchanged { (o : ℕ) → slice_index self.new o ≡ slice_index self.old o }
        ensures in_range { OnOk result (object < length self.new) }
    {
        let len = self.positions_plus_one.len();
        let object = object as usize;
        if len <= object {
            grow(&mut self.positions_plus_one, object - len + 1)?;
            for _ in len..=object {
                self.positions_plus_one.push_reserved(0);
            }
        }
        Ok(())
    }

    /// Sets the position plus one of an object, where it has a place.
    fn set(&mut self, object: u32, position_plus_one: u32)
        ensures { self.new ≡ slice_set self.old object position_plus_one }
    {
        if (object as usize) < self.positions_plus_one.len() {
            self.positions_plus_one[object as usize] = position_plus_one;
        }
    }
}

/// Rows by the set of one parameter. A set beyond the last has an empty one.
#[derive(Drop)]
pub(crate) struct Rows {
    rows: Vec<Row>,
}

impl Model for Rows {
    ghost use Rattle.std.specs.Prelude.{List, ℕ};

    ghost Value = { List (List ℕ) };

    ghost view = { λ r. r.rows.items };
}

impl Rows {
    pub(crate) fn new(alloc: Global) -> Rows
        ensures { result ≡ [] }
    {
        Rows {
            rows: Vec::new(alloc),
        }
    }

    /// The position plus one of an object, or 0.
    pub(crate) fn get(&self, mask: u8, object: u32) -> u32
        ensures { result ≡ position_plus_one_at self.now mask object }
    {
        match self.rows.get(mask as usize) {
            Some(row) => row.get(object),
            None => 0,
        }
    }

    /// Makes a row, where there is none.
    fn cover(&mut self, mask: u8) -> Result<(), NoMemory>
        ensures unchanged { (m o : ℕ) → position_plus_one_at self.new m o ≡ position_plus_one_at self.old m o }
        ensures in_range { OnOk result (mask < length self.new) }
    {
        let alloc = *self.rows.allocator();
        while self.rows.len() <= mask as usize {
            self.rows.push(Row::new(alloc))?;
        }
        Ok(())
    }

    /// Makes a place for an object in a row, where there is none.
    fn cover_object(&mut self, mask: u8, object: u32) -> Result<(), NoMemory>
        ensures unchanged { (m o : ℕ) → position_plus_one_at self.new m o ≡ position_plus_one_at self.old m o }
        ensures row { OnOk result (mask < length self.new) }
        ensures in_range { OnOk result (object < length (slice_index_or self.new mask [])) }
    {
        self.cover(mask)?;
        let row = &mut self.rows[mask as usize];
        row.cover(object)
    }

    /// Sets the position plus one of an object.
    pub(crate) fn set(
        &mut self,
        mask: u8,
        object: u32,
        position_plus_one: u32,
    ) -> Result<(), NoMemory>
        ensures at_key { OnOk result (position_plus_one_at self.new mask object ≡ position_plus_one) }
        ensures elsewhere { (m o : ℕ) → (m ≡ mask → o ≡ object → ⊥)
            → position_plus_one_at self.new m o ≡ position_plus_one_at self.old m o }
        ensures err { OnErr result ((m o : ℕ) → position_plus_one_at self.new m o ≡ position_plus_one_at self.old m o) }
    {
        self.cover_object(mask, object)?;
        let row = &mut self.rows[mask as usize];
        row.set(object, position_plus_one);
        Ok(())
    }

    /// Takes the position plus one of an object out.
    pub(crate) fn clear(&mut self, mask: u8, object: u32)
        ensures at_key { position_plus_one_at self.new mask object ≡ 0 }
        ensures elsewhere { (m o : ℕ) → (m ≡ mask → o ≡ object → ⊥)
            → position_plus_one_at self.new m o ≡ position_plus_one_at self.old m o }
    {
        if (mask as usize) < self.rows.len() {
            let row = &mut self.rows[mask as usize];
            row.set(object, 0);
        }
    }
}
