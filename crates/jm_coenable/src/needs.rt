ghost use Rattle.std.specs.Prelude.{ℕ, ◌≡◌, ◌<◌, ◌↔◌, true, Contains, IfOk, length};
ghost use Rattle.std.specs.List.Sorted.{IsStrictlySortedBy};
ghost use Rattle.std.specs.Ordering.{nat_cmp};
ghost use Rattle.jm_events.specs.Events.{EventDefinitions};
ghost use Rattle.jm_goal.specs.Goals.{GoalDefinition};
ghost use Rattle.jm_table.specs.Tables.{Transitions};
ghost use Rattle.jm_coenable.specs.Needs.{AreFit, AreNeedsOf, IsAlive, IsNeededFrom, IsNeededAtStart, IsInFamily};

use crate::arrivals::last_letters;
use crate::mask_set::MaskSet;
use crate::needed::needed_masks;
use crate::searches::{alive_set, alive_sets, family_sets};
use crate::start::start_masks;
use jm_events::EventTable;
use jm_goal::Goal;
use jm_model::{Letter, NoMemory};
use jm_table::Table;
use std::alloc::Global;
use std::marker::Model;

/// What a property needs to be hit again. Contracts see it as its `NeedSets`.
#[derive(Drop)]
pub struct Needs {
    alive: Vec<MaskSet>,
    start: MaskSet,
    families: Vec<MaskSet>,
}

impl Model for Needs {
    ghost use Rattle.jm_coenable.specs.Needs.{NeedSets};

    ghost Value = { NeedSets };

    ghost view = { λ n. record { alive = n.alive.items; start = n.start; families = n.families.items } };
}

impl Needs {
    /// The needs of a property of this table and this goal, whose letters are the events.
    pub fn new(
        alloc: Global,
        table: &Table,
        goal: &Goal,
        events: &EventTable,
    ) -> Result<Needs, NoMemory>
        requires { AreFit table.now goal.now events.now }
        ensures { IfOk result (λ needs. AreNeedsOf table.now goal.now events.now needs) }
    {
        let needed = needed_masks(alloc, table, goal, events)?;
        let arrivals = last_letters(alloc, table, goal)?;
        let alive = alive_sets(alloc, &needed)?;
        let families = family_sets(alloc, &arrivals, &needed, table.letters())?;
        let first = start_masks(table, goal, events, &needed);
        let start = alive_set(&first);
        Ok(Needs {
            alive,
            start,
            families,
        })
    }

    /// Whether some word of one or more letters without a dead parameter, which may begin as it does, leads from the
    /// start to a handled state.
    pub fn alive_at_start(&self, dead: u8) -> bool
        ensures { (t : Transitions) (g : GoalDefinition) (v : EventDefinitions) → AreNeedsOf t g v self.now →
            (result ≡ true) ↔ IsAlive (IsNeededAtStart t g v) dead }
    {
        self.start.contains(dead)
    }

    /// Whether some word of one or more letters without a dead parameter leads from the state to a handled one.
    /// `started` says that the word so far may begin as it does.
    pub fn alive(&self, state: u16, started: bool, dead: u8) -> bool
        requires { state < length self.now.alive }
        ensures { (t : Transitions) (g : GoalDefinition) (v : EventDefinitions) → AreNeedsOf t g v self.now →
            (result ≡ true) ↔ ((started ≡ true) × IsAlive (IsNeededFrom t g v state) dead) }
    {
        started && self.alive[state as usize].contains(dead)
    }

    /// The masks of the words that lead from some word that ends in the letter to a handled state, in rising order.
    pub fn family(&self, letter: Letter) -> Result<Vec<u8>, NoMemory>
        requires { letter.0 < length self.now.families }
        ensures rising { IfOk result (λ masks. IsStrictlySortedBy nat_cmp masks.items) }
        ensures exact { (t : Transitions) (g : GoalDefinition) (v : EventDefinitions) → AreNeedsOf t g v self.now →
            IfOk result (λ masks. (mask : ℕ) → mask < 256
            → Contains masks.items mask ↔ IsInFamily t g v letter.0 mask) }
        ensures bounded { IfOk result (λ masks. (mask : ℕ) → Contains masks.items mask → mask < 256) }
    {
        let alloc = *self.families.allocator();
        self.families[letter.0 as usize].masks(alloc)
    }
}
