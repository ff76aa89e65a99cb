//! The index against a plain list, over rows of random steps.
use crate::plain::Plain;
use crate::table::Table;
use jm_model::{Binding, NoMemory};
use std::alloc::Global;
use testkit::{Case, number_of};
use testkit_steps::Draw;

/// The index, the plain list, and what was seen of them.
#[derive(Drop)]
struct Rows {
    table: Table,
    plain: Plain,
    alloc: Global,
    parameters: u8,
    added: usize,
    differ: u32,
    found: u32,
    nothing: u32,
    dead: u32,
}

/// How many of so many rows differ, and whether each kind of answer came often. The case's words are the number of
/// parameters and of objects, and after the `/` that of rows.
pub(crate) fn random_index(alloc: Global, case: &Case) -> Result<String, NoMemory> {
    let (parameters, objects) = case.first.as_str().split_once(' ').unwrap_or(("8", "8"));
    let mut rows = Rows {
        table: Table::new(alloc, number_of(objects))?,
        plain: Plain::new(alloc),
        alloc,
        parameters: parameters.parse::<u8>().unwrap_or(8),
        added: 0,
        differ: 0,
        found: 0,
        nothing: 0,
        dead: 0,
    };
    let mut draw = Draw::new(number_of(parameters));
    for _ in 0..number_of(case.second.as_str()) {
        rows.step(&mut draw)?;
    }
    rows.told()
}

impl Rows {
    fn step(&mut self, draw: &mut Draw) -> Result<(), NoMemory> {
        let objects = self.table.objects();
        match draw.below(256) {
            0..=3 => self.table.drop_dead(),
            4 => self.table.kill(draw.below(objects)),
            5..=100 => self.add(draw.binding(self.parameters, objects))?,
            101..=120 => self.remove(&draw.binding(self.parameters, objects)),
            121..=150 => self.remove_some(draw),
            _ => self.ask(draw)?,
        }
        Ok(())
    }

    fn add(&mut self, binding: Binding) -> Result<(), NoMemory> {
        self.added = self.added.wrapping_add(1);
        self.plain.add(binding, self.added)?;
        self.table.add(binding, self.added)
    }

    fn remove_some(&mut self, draw: &mut Draw) {
        let binding = self.plain.some(draw);
        self.remove(&binding);
    }

    fn remove(&mut self, binding: &Binding) {
        self.plain.remove(binding);
        self.table.remove(binding);
    }

    /// Asks for a domain that a pair has, by a part of another pair's binding or of any.
    fn ask(&mut self, draw: &mut Draw) -> Result<(), NoMemory> {
        let domain = self.plain.some(draw).mask();
        let binding = match draw.below(3) {
            0 => draw.binding(self.parameters, self.table.objects()),
            _ => self.plain.some(draw).restrict(draw.mask()),
        };
        match self.table.ask(domain, &binding)? {
            None => self.dead = self.dead.wrapping_add(1),
            Some(slots) => {
                let wanted = self.plain.ask(self.alloc, domain, &binding)?;
                self.see(slots.as_slice(), wanted.as_slice());
            }
        }
        Ok(())
    }

    fn see(&mut self, slots: &[usize], wanted: &[usize]) {
        if slots != wanted {
            self.differ = self.differ.wrapping_add(1);
        }
        if slots.is_empty() {
            self.nothing = self.nothing.wrapping_add(1);
        } else {
            self.found = self.found.wrapping_add(1);
        }
    }

    fn told(&self) -> Result<String, NoMemory> {
        let often = self.found >= 100 && self.nothing >= 100 && self.dead >= 20;
        Ok(format!(in self.alloc; "{} differ, often: {often}", self.differ)?)
    }
}
