//! What a pass drops.
ghost use Rattle.std.specs.Prelude.{◌≡◌, ℕ, List, Bool, false, Contains, Some, length};
ghost use Rattle.jm_index.specs.Index.{IsKey, flag_of, IsFitting, without};
ghost use Rattle.jm_store.specs.Slots.{monitor_at};
ghost use Rattle.jm_store.specs.Moves.{IsSwept};
ghost use Rattle.jm_store.specs.Contents.{stored_of, IsSpared, IsFitFor, IsDisposed, IsCutDown};

use super::Store;
use jm_index::NoRoom;
use jm_model::Monitor;
use jm_objects::Objects;

impl<M: Monitor> Store<M> {
    /// Drops the monitors that are cut and the marks without a live object, and answers how many monitors are left. It
    /// takes no memory.
    pub fn dispose(&mut self, rules: &M, objects: &Objects) -> u64
        requires closed { self.old.is_open ≡ false }
        requires fits { IsFitFor (M.meaning (M.definition rules.now)) (M.StandsFor rules.now) self.old objects.now }
        ensures disposed { IsDisposed (M.meaning (M.definition rules.now)) (M.StandsFor rules.now) objects.now
            self.old self.new }
        ensures left { result ≡ length (stored_of self.new) }
        ensures closed { self.new.is_open ≡ false }
        ensures fits { IsFitFor (M.meaning (M.definition rules.now)) (M.StandsFor rules.now) self.new objects.now }
        ensures keys { (o : ℕ) → IsKey self.new.index o → flag_of objects.now o ≡ false }
    {
        self.drop_all_cut(rules, objects);
        self.marks.sweep(objects);
        self.index.drop_dead(objects);
        self.monitors.len()
    }

    /// Drops the monitors that are cut. These bind objects that died since the last pass, so that no others are looked
    /// at, unless there is no room for a list of them.
    fn drop_all_cut(&mut self, rules: &M, objects: &Objects)
        requires closed { self.old.is_open ≡ false }
        requires spared { IsSpared (M.meaning (M.definition rules.now)) (M.StandsFor rules.now) self.old }
        ensures down { IsCutDown (M.meaning (M.definition rules.now))
            (M.StandsFor rules.now) objects.now self.old self.new }
        ensures all { (k : ℕ) → IsSwept (M.meaning (M.definition rules.now)) (M.StandsFor rules.now) objects.now
            (monitor_at self.old.monitors k) (monitor_at self.new.monitors k) }
    {
        let mut slots = self.take_slots();
        slots.clear();
        match self.index.add_slots_of_dead(objects, &mut slots) {
            Ok(()) => self.drop_cut_in(rules, objects, slots.as_slice()),
            Err(NoRoom) => self.drop_cut_everywhere(rules, objects),
        }
        self.give_slots(slots);
    }

    /// Drops those in these slots.
    fn drop_cut_in(&mut self, rules: &M, objects: &Objects, slots: &[usize])
        requires closed { self.old.is_open ≡ false }
        ensures down { IsCutDown (M.meaning (M.definition rules.now))
            (M.StandsFor rules.now) objects.now self.old self.new }
        ensures present { (k : ℕ) → Contains slots.now k
            → IsSwept (M.meaning (M.definition rules.now)) (M.StandsFor rules.now) objects.now
            (monitor_at self.old.monitors k) (monitor_at self.new.monitors k) }
    {
        for slot in slots {
            self.drop_cut(rules, objects, *slot);
        }
    }

    /// Drops those in all slots.
    fn drop_cut_everywhere(&mut self, rules: &M, objects: &Objects)
        requires closed { self.old.is_open ≡ false }
        ensures down { IsCutDown (M.meaning (M.definition rules.now))
            (M.StandsFor rules.now) objects.now self.old self.new }
        ensures all { (k : ℕ) → IsSwept (M.meaning (M.definition rules.now)) (M.StandsFor rules.now) objects.now
            (monitor_at self.old.monitors k) (monitor_at self.new.monitors k) }
    {
        for slot in 0..self.monitors.count_slots() {
            self.drop_cut(rules, objects, slot);
        }
    }

    /// Drops the monitor of a slot, if it is cut.
    fn drop_cut(&mut self, rules: &M, objects: &Objects, slot: usize)
        requires closed { self.old.is_open ≡ false }
        ensures closed { self.new.is_open ≡ false }
        ensures monitors { (k : ℕ) → (k ≡ slot → ⊥) → monitor_at self.new.monitors k ≡ monitor_at self.old.monitors k }
        ensures swept { IsSwept (M.meaning (M.definition rules.now)) (M.StandsFor rules.now) objects.now
            (monitor_at self.old.monitors slot) (monitor_at self.new.monitors slot) }
        ensures length { length self.new.monitors ≡ length self.old.monitors }
        ensures marks { self.new.marks ≡ self.old.marks }
        ensures fits { (dead : List Bool) → IsFitting self.old.index dead → IsFitting self.new.index dead }
        ensures ending { self.new.ending ≡ self.old.ending }
    {
        if let Some(instance) = self.monitors.cut_instance(rules, objects, slot) {
            self.index.remove(&instance);
            self.monitors.release(slot);
        }
    }
}
