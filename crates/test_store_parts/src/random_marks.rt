//! Marks against a plain list of bindings, over rows of random steps.
use jm_marks::Marks;
use jm_model::{Binding, NoMemory};
use jm_objects::Objects;
use std::alloc::Global;
use testkit::{Case, number_of};
use testkit_steps::Draw;

/// The marks, the plain list, and what was seen of them.
#[derive(Drop)]
struct Rows {
    marks: Marks,
    list: Vec<Binding>,
    objects: Objects,
    parameters: u8,
    differ: u32,
    covered: u32,
    uncovered: u32,
    dropped: u32,
}

/// How many of so many rows differ, and whether each answer came often. The case's words are the number of parameters
/// and of objects, and after the `/` that of rows.
pub(crate) fn random_marks(alloc: Global, case: &Case) -> Result<String, NoMemory> {
    let (parameters, objects) = case.first.as_str().split_once(' ').unwrap_or(("8", "8"));
    let mut rows = Rows {
        marks: Marks::new(alloc),
        list: Vec::new(alloc),
        objects: Objects::new(alloc, number_of(objects))?,
        parameters: parameters.parse::<u8>().unwrap_or(8),
        differ: 0,
        covered: 0,
        uncovered: 0,
        dropped: 0,
    };
    let mut draw = Draw::new(number_of(parameters));
    for _ in 0..number_of(case.second.as_str()) {
        rows.step(&mut draw)?;
    }
    rows.told(alloc)
}

impl Rows {
    fn step(&mut self, draw: &mut Draw) -> Result<(), NoMemory> {
        let objects = self.objects.len();
        let binding = draw.binding(self.parameters, objects);
        match draw.below(64) {
            0 => self.sweep()?,
            1 => {
                let object = draw.below(objects);
                if object < objects {
                    self.objects.kill(object);
                }
            }
            2..=21 => self.add(binding)?,
            _ => self.ask(&binding, draw),
        }
        Ok(())
    }

    fn add(&mut self, binding: Binding) -> Result<(), NoMemory> {
        let known = contains(&self.list, &binding);
        let same = self.marks.contains(&binding) == known;
        self.see(same);
        if !known {
            self.list.push(binding)?;
        }
        self.marks.reserve()?;
        self.marks.add(binding);
        Ok(())
    }

    fn ask(&mut self, above: &Binding, draw: &mut Draw) {
        let below = above.restrict(draw.mask());
        let answer = self.marks.covers(above, &below);
        let same = answer == covers(&self.list, above, &below);
        self.see(same);
        if answer {
            self.covered = self.covered.wrapping_add(1);
        } else {
            self.uncovered = self.uncovered.wrapping_add(1);
        }
    }

    fn sweep(&mut self) -> Result<(), NoMemory> {
        self.marks.sweep(&self.objects);
        let before = self.list.len();
        let objects = &self.objects;
        self.list.retain(|mark| lives(objects, mark));
        if self.list.len() < before {
            self.dropped = self.dropped.wrapping_add(1);
        }
        let marks = in_order(self.marks.to_list()?);
        let list = in_order(self.list.as_slice().to_vec(*self.list.allocator())?);
        let same = marks.as_slice() == list.as_slice();
        self.see(same);
        Ok(())
    }

    fn see(&mut self, same: bool) {
        if !same {
            self.differ = self.differ.wrapping_add(1);
        }
    }

    fn told(&self, alloc: Global) -> Result<String, NoMemory> {
        let often = self.covered >= 100 && self.uncovered >= 100 && self.dropped >= 3;
        Ok(format!(in alloc; "{} differ, often: {often}", self.differ)?)
    }
}

/// The bindings in their order: `add` and `sweep` have none.
pub(crate) fn in_order(mut list: Vec<Binding>) -> Vec<Binding> {
    list.sort_unstable_by(|a, b| a.cmp(b));
    list
}

fn contains(list: &[Binding], binding: &Binding) -> bool {
    list.iter().any(|mark| mark == binding)
}

fn covers(list: &[Binding], above: &Binding, below: &Binding) -> bool {
    list.iter().all(|mark| !mark.le(above) || mark.le(below))
}

/// Whether one of the mark's objects is alive.
fn lives(objects: &Objects, mark: &Binding) -> bool {
    for p in 0..8 {
        if let Some(object) = mark.get(p)
            && object < objects.len()
            && !objects.is_dead(object)
        {
            return true;
        }
    }
    false
}
