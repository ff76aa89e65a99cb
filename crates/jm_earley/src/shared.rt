ghost use Rattle.std.specs.Prelude.{◌≡◌, ◌<◌, ◌≤◌, [], ◌∷◌, ◌++◌, Some, IfOk, OnOk, length, take, slice_get};

use jm_model::NoMemory;
use std::alloc::Global;
use std::marker::Model;
use std::sync::Arc;

/// A list whose copies share their items. Contracts see it as the list.
#[derive(Drop)]
pub(crate) struct Shared<T: Drop> {
    items: Vec<Arc<T>>,
}

impl<T: Drop> Model for Shared<T> {
    ghost use Rattle.std.specs.Prelude.{List, map};
    ghost use Rattle.std.specs.Arc.{arc_value};

    ghost Value = { List T };

    ghost view = { λ s. map arc_value s.items.items };
}

impl<T: Drop> Shared<T> {
    /// No item.
    pub(crate) fn new(alloc: Global) -> Shared<T>
        ensures { result ≡ [] }
    {
        Shared {
            items: Vec::new(alloc),
        }
    }

    pub(crate) fn len(&self) -> usize
        ensures { result ≡ length self.now }
    {
        self.items.len()
    }

    /// The item of a number.
    pub(crate) fn at(&self, number: usize) -> &T
        requires { number < length self.now }
        ensures { slice_get self.now number ≡ Some result.now }
    {
        &self.items[number]
    }

    /// Adds an item at the end.
    pub(crate) fn push(&mut self, item: T) -> Result<(), NoMemory>
        ensures { OnOk result (self.new ≡ self.old ++ item ∷ []) }
    {
        let item = Arc::new(*self.items.allocator(), item)?;
        self.items.push(item)?;
        Ok(())
    }

    /// The first items, with room for one more.
    pub(crate) fn first(&self, count: usize) -> Result<Shared<T>, NoMemory>
        requires { count ≤ length self.now }
        ensures { IfOk result (λ first. first ≡ take count self.now) }
    {
        let alloc = *self.items.allocator();
        let mut first = Vec::with_capacity(alloc, count.saturating_add(1))?;
        for item in &self.items.as_slice()[..count] {
            let item = Arc::try_clone(item)?;
            first.push(item)?;
        }
        Ok(Shared { items: first })
    }

    /// A copy of the items.
    pub(crate) fn copy(&self) -> Result<Shared<T>, NoMemory>
        ensures { IfOk result (λ copy. copy ≡ self.now) }
    {
        self.first(self.len())
    }
}
