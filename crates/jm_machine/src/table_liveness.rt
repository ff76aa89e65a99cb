//! What may still follow the states of a table.
ghost use Rattle.std.specs.Prelude.{ℕ, ◌≡◌, ◌≢◌, ◌<◌, ◌↔◌, [], List, All, Contains, IsTrue, IsBitSet, IsSomeAnd, IfOk, length, map, slice_get, slice_index, slice_index_or};
ghost use Rattle.std.specs.List.Sorted.{IsStrictlySortedBy};
ghost use Rattle.std.specs.Ordering.{nat_cmp};
ghost use Rattle.jm_events.specs.Events.{EventDefinitions};
ghost use Rattle.jm_goal.specs.Goals.{GoalDefinition};
ghost use Rattle.jm_table.specs.Tables.{Transitions, IsTable};
ghost use Rattle.jm_coenable.specs.Needs.{AreFit, AreNeedsOf, IsAlive, IsNeededFrom, IsInFamily};
ghost use Rattle.jm_machine.specs.declared.engine.Engine.TheVariants.{States};
ghost use Rattle.jm_machine.specs.Engines.{IsPlaceOf, EngineHolds};
ghost use Rattle.jm_machine.specs.declared.place.Place.TheVariants.{State};
ghost use Rattle.jm_machine.specs.Liveness.{AreHandlerMasks, IsIdleLetter, IsEndingLetter, IsFirstEnding, IsPlainEntry, IsPlainRow, ArePlainRows, AreIdle, AreEnding, AreFactsOf, CanHitFrom};

use crate::goal::may_begin;
use crate::place::Place;
use jm_coenable::{Needs, step};
use jm_events::EventTable;
use jm_goal::Goal;
use jm_model::{AT_REST, Letter, NO_NUMBER, NoMemory};
use jm_table::Table;
use std::alloc::Global;
use std::marker::Model;

/// For each state the handlers that it hits, the letters that leave it as it is, those that end an instance, what is
/// needed to be hit again, and where letters lead. Contracts see it as its `StateFacts`.
pub(crate) struct TableLiveness {
    hits: Vec<u16>,
    idle: Vec<u32>,
    ending: Vec<u32>,
    /// The letters that end an instance of the empty word.
    first_ending: u32,
    needs: Needs,
    /// By letter and state the state to which the letter leads, where that is plain, `AT_REST` where it leaves the
    /// state as it is, and else `NO_NUMBER`.
    plain: Vec<Vec<u16>>,
}

// Written out, so that a drop is one call.
impl Drop for TableLiveness {
    fn drop(self) {
        let TableLiveness {
            hits: _,
            idle: _,
            ending: _,
            first_ending: _,
            needs: _,
            plain: _,
        } = self;
    }
}

impl Model for TableLiveness {
    ghost use Rattle.std.specs.Prelude.{◌≡◌, length, map};
    ghost use Rattle.jm_machine.specs.Liveness.{StateFacts};

    ghost Value = { StateFacts };

    ghost view = { λ o. record {
      hits = o.hits.items;
      idle = o.idle.items;
      ending = o.ending.items;
      first_ending = o.first_ending;
      needs = o.needs;
      plain = map (λ row. row.items) o.plain.items;
    } };

    ghost invariant = { λ o. length o.needs.alive ≡ length o.hits.items };
}

impl TableLiveness {
    /// The liveness of a table for this goal.
    pub(crate) fn new(
        alloc: Global,
        table: &Table,
        goal: &Goal,
        events: &EventTable,
    ) -> Result<TableLiveness, NoMemory>
        requires { AreFit table.now goal.now events.now }
        ensures { IfOk result (AreFactsOf table.now goal.now events.now) }
    {
        let needs = Needs::new(alloc, table, goal, events)?;
        let hits = handler_masks(alloc, table, goal)?;
        let idle = idle_masks(alloc, table, hits.as_slice())?;
        let ending = ending_masks(alloc, table, goal, hits.as_slice(), &needs)?;
        let first_ending = first_ending(table, goal, hits.as_slice(), &needs);
        let plain = plain_rows(alloc, table, goal, hits.as_slice(), &needs)?;
        Ok(TableLiveness {
            hits,
            idle,
            ending,
            first_ending,
            needs,
            plain,
        })
    }

    /// The handlers that a state hits: bit k stands for handler k.
    pub(crate) fn hits(&self, state: u16) -> u16
        ensures { state < length self.now.hits → result ≡ slice_index self.now.hits state }
    {
        match self.hits.get(state as usize) {
            Some(hits) => *hits,
            None => 0,
        }
    }

    /// The letters that leave a state as it is and hit nothing.
    pub(crate) fn idle(&self, state: u16) -> u32
        ensures { result ≡ slice_index self.now.idle state }
    {
        match self.idle.get(state as usize) {
            Some(idle) => *idle,
            None => 0,
        }
    }

    /// The letters that end an instance.
    pub(crate) fn ending(&self, state: u16) -> u32
        ensures { result ≡ slice_index self.now.ending state }
    {
        match self.ending.get(state as usize) {
            Some(ending) => *ending,
            None => 0,
        }
    }

    /// By state the letters that end an instance.
    pub(crate) fn endings(&self) -> &[u32]
        ensures { result.now ≡ self.now.ending }
    {
        self.ending.as_slice()
    }

    /// By state the state to which the letter leads plainly, or that it leaves the state as it is.
    pub(crate) fn plain_states(&self, letter: Letter) -> &[u16]
        ensures { result.now ≡ slice_index_or self.now.plain letter.0 [] }
    {
        match self.plain.get(letter.0 as usize) {
            Some(row) => row.as_slice(),
            None => &[],
        }
    }

    /// The letters that end an instance of the empty word.
    pub(crate) fn first_ending(&self) -> u32
        ensures { result ≡ self.now.first_ending }
    {
        self.first_ending
    }

    /// Whether some word of one or more letters without a dead parameter, put after the words of the place,
    /// hits a handler.
    #[inline(always)]
    pub(crate) fn can_hit(&self, place: &Place, dead: u8) -> bool
        ensures { (t : Transitions) (g : GoalDefinition) (v : EventDefinitions) → AreNeedsOf t g v self.now.needs →
            IsTrue result ↔ CanHitFrom t g v place.now dead }
    {
        match place {
            Place::Start => self.needs.alive_at_start(dead),
            Place::State(state) => self.is_alive(*state, dead),
            _ => false,
        }
    }

    /// Whether some word of one or more letters without a dead parameter leads from the state to a handled one.
    pub(crate) fn is_alive(&self, state: u16, dead: u8) -> bool
        ensures { (t : Transitions) (g : GoalDefinition) (v : EventDefinitions) → AreNeedsOf t g v self.now.needs →
            IsTrue result ↔ ((state < t.states) × IsAlive (IsNeededFrom t g v state) dead) }
    {
        (state as usize) < self.hits.len() && self.needs.alive(state, true, dead)
    }

    /// What is needed after a word that ends in the letter, in rising order.
    pub(crate) fn family(&self, letter: Letter) -> Result<Vec<u8>, NoMemory>
        requires { letter.0 < length self.now.needs.families }
        ensures rising { IfOk result (λ masks. IsStrictlySortedBy nat_cmp masks.items) }
        ensures exact { (t : Transitions) (g : GoalDefinition) (v : EventDefinitions)
            → AreNeedsOf t g v self.now.needs →
            IfOk result (λ masks. (mask : ℕ) → mask < 256
            → Contains masks.items mask ↔ IsInFamily t g v letter.0 mask) }
        ensures bounded { IfOk result (λ masks. (mask : ℕ) → Contains masks.items mask → mask < 256) }
    {
        self.needs.family(letter)
    }
}

/// The handlers that each state hits.
fn handler_masks(alloc: Global, table: &Table, goal: &Goal) -> Result<Vec<u16>, NoMemory>
    requires { All (λ group. group < length table.now.groups) goal.now.groups }
    ensures count { IfOk result (λ masks. length masks.items ≡ table.now.states) }
    ensures masks { IfOk result (λ masks. AreHandlerMasks (States table.now) goal.now masks.items) }
    ensures table { IsTable table.now }
{
    let mut masks = Vec::with_capacity(alloc, table.len() as usize)?;
    for state in 0..table.len() {
        masks.push(handlers_of_state(table, goal, state))?;
    }
    Ok(masks)
}

/// The handlers that a state hits: bit k stands for handler k.
fn handlers_of_state(table: &Table, goal: &Goal, state: u16) -> u16
    requires { All (λ group. group < length table.now.groups) goal.now.groups }
    ensures { (word : List ℕ) → IsPlaceOf (States table.now) (State state) word → (k : ℕ) →
        IsBitSet result k ↔ IsSomeAnd (slice_get goal.now.groups k)
        (λ group. EngineHolds (States table.now) group word) }
{
    let mut hits = 0;
    for handler in 0..goal.handlers() {
        if is_in_group(table, state, goal.group(handler)) {
            hits |= 1 << handler;
        }
    }
    hits
}

/// Whether a state of the table is in the group.
fn is_in_group(table: &Table, state: u16, group: u16) -> bool
    requires { group < length table.now.groups }
    ensures { (word : List ℕ) → IsPlaceOf (States table.now) (State state) word →
        IsTrue result ↔ EngineHolds (States table.now) group word }
{
    state < table.len() && table.in_group(state, group)
}

/// The letters that leave each state as it is and hit nothing.
fn idle_masks(alloc: Global, table: &Table, hits: &[u16]) -> Result<Vec<u32>, NoMemory>
    requires { length hits.now ≡ table.now.states }
    ensures { IfOk result (λ masks. AreIdle table.now hits.now masks.items) }
{
    let mut masks = Vec::with_capacity(alloc, hits.len())?;
    for state in 0..table.len() {
        masks.push(idle_letters(table, hits, state))?;
    }
    Ok(masks)
}

/// The letters that leave a state as it is and hit nothing.
fn idle_letters(table: &Table, hits: &[u16], state: u16) -> u32
    requires state { state < table.now.states }
    requires count { length hits.now ≡ table.now.states }
    ensures { (e : ℕ) → IsBitSet result e → IsIdleLetter table.now hits.now state e }
{
    let mut idle = 0;
    for letter in 0..table.letters() {
        if is_idle(table, hits, state, Letter(letter)) {
            idle |= 1 << letter;
        }
    }
    idle
}

/// Whether a letter leaves a state as it is and hits nothing.
fn is_idle(table: &Table, hits: &[u16], state: u16, letter: Letter) -> bool
    requires state { state < table.now.states }
    requires count { length hits.now ≡ table.now.states }
    requires letter { letter.0 < table.now.letters }
    ensures { IsTrue result → IsIdleLetter table.now hits.now state letter.0 }
{
    hits[state as usize] == 0 && table.next(state, letter) == state
}

/// The letters that end an instance, for each state.
fn ending_masks(
    alloc: Global,
    table: &Table,
    goal: &Goal,
    hits: &[u16],
    needs: &Needs,
) -> Result<Vec<u32>, NoMemory>
    requires groups { All (λ group. group < length table.now.groups) goal.now.groups }
    requires count { length hits.now ≡ table.now.states }
    requires needs { length needs.now.alive ≡ table.now.states }
    ensures { IfOk result (λ masks. AreEnding table.now hits.now goal.now needs.now masks.items) }
{
    let mut masks = Vec::with_capacity(alloc, hits.len())?;
    for state in 0..table.len() {
        masks.push(ending_letters(table, goal, hits, needs, state))?;
    }
    Ok(masks)
}

/// The letters that end an instance whose words lead to a state.
fn ending_letters(table: &Table, goal: &Goal, hits: &[u16], needs: &Needs, state: u16) -> u32
    requires groups { All (λ group. group < length table.now.groups) goal.now.groups }
    requires state { state < table.now.states }
    requires count { length hits.now ≡ table.now.states }
    requires needs { length needs.now.alive ≡ table.now.states }
    ensures { (e : ℕ) → IsBitSet result e → IsEndingLetter table.now hits.now goal.now needs.now state e }
{
    let mut ending = 0;
    for letter in 0..table.letters() {
        if is_ending(table, goal, hits, needs, state, Letter(letter)) {
            ending |= 1 << letter;
        }
    }
    ending
}

/// Whether a letter leads from a state, or from the start where the property is reset there, to one that hits nothing,
/// and from which nothing is hit.
fn is_ending(
    table: &Table,
    goal: &Goal,
    hits: &[u16],
    needs: &Needs,
    state: u16,
    letter: Letter,
) -> bool
    requires groups { All (λ group. group < length table.now.groups) goal.now.groups }
    requires state { state < table.now.states }
    requires count { length hits.now ≡ table.now.states }
    requires needs { length needs.now.alive ≡ table.now.states }
    requires letter { letter.0 < table.now.letters }
    ensures { IsTrue result → IsEndingLetter table.now hits.now goal.now needs.now state letter.0 }
{
    let next = step(table, goal, state, letter);
    hits[next as usize] == 0 && !needs.alive(next, true, 0)
}

/// The letters that end an instance of the empty word: words can't begin with them, or they end one at the start.
fn first_ending(table: &Table, goal: &Goal, hits: &[u16], needs: &Needs) -> u32
    requires groups { All (λ group. group < length table.now.groups) goal.now.groups }
    requires count { length hits.now ≡ table.now.states }
    requires needs { length needs.now.alive ≡ table.now.states }
    ensures { (e : ℕ) → IsBitSet result e → IsFirstEnding table.now goal.now hits.now needs.now e }
{
    let mut ending = 0;
    for letter in 0..table.letters() {
        if is_first_ending(table, goal, hits, needs, Letter(letter)) {
            ending |= 1 << letter;
        }
    }
    ending
}

/// Whether words can't begin with a letter, or it ends an instance at the start.
fn is_first_ending(table: &Table, goal: &Goal, hits: &[u16], needs: &Needs, letter: Letter) -> bool
    requires groups { All (λ group. group < length table.now.groups) goal.now.groups }
    requires count { length hits.now ≡ table.now.states }
    requires needs { length needs.now.alive ≡ table.now.states }
    requires letter { letter.0 < table.now.letters }
    ensures { IsTrue result → IsFirstEnding table.now goal.now hits.now needs.now letter.0 }
{
    let start = table.start();
    // A table has few letters: the proof learns it from the call.
    letter.0 < table.letters()
        && (!may_begin(goal, letter) || is_ending(table, goal, hits, needs, start, letter))
}

/// For each letter the row of where it leads plainly.
fn plain_rows(
    alloc: Global,
    table: &Table,
    goal: &Goal,
    hits: &[u16],
    needs: &Needs,
) -> Result<Vec<Vec<u16>>, NoMemory>
    requires groups { All (λ group. group < length table.now.groups) goal.now.groups }
    requires count { length hits.now ≡ table.now.states }
    requires needs { length needs.now.alive ≡ table.now.states }
    ensures { IfOk result (λ rows. ArePlainRows table.now hits.now goal.now needs.now
        (map (λ row. row.items) rows.items)) }
{
    let mut rows = Vec::with_capacity(alloc, table.letters() as usize)?;
    for letter in 0..table.letters() {
        rows.push(plain_row(alloc, table, goal, hits, needs, Letter(letter))?)?;
    }
    Ok(rows)
}

/// For each state the state to which a letter leads plainly, or that it leaves the state as it is.
fn plain_row(
    alloc: Global,
    table: &Table,
    goal: &Goal,
    hits: &[u16],
    needs: &Needs,
    letter: Letter,
) -> Result<Vec<u16>, NoMemory>
    requires groups { All (λ group. group < length table.now.groups) goal.now.groups }
    requires count { length hits.now ≡ table.now.states }
    requires needs { length needs.now.alive ≡ table.now.states }
    requires letter { letter.0 < table.now.letters }
    ensures { IfOk result (λ row. IsPlainRow table.now hits.now goal.now needs.now letter.0 row.items) }
{
    let mut row = Vec::with_capacity(alloc, hits.len())?;
    for state in 0..table.len() {
        row.push(plain_state(table, goal, hits, needs, state, letter))?;
    }
    Ok(row)
}

/// The state to which a letter leads, where that hits nothing and isn't cut while nothing is dead; `AT_REST`, where
/// that is the state itself. Else `NO_NUMBER`.
fn plain_state(
    table: &Table,
    goal: &Goal,
    hits: &[u16],
    needs: &Needs,
    state: u16,
    letter: Letter,
) -> u16
    requires groups { All (λ group. group < length table.now.groups) goal.now.groups }
    requires state { state < table.now.states }
    requires count { length hits.now ≡ table.now.states }
    requires needs { length needs.now.alive ≡ table.now.states }
    requires letter { letter.0 < table.now.letters }
    ensures { IsPlainEntry table.now hits.now goal.now needs.now letter.0 state result }
{
    // A table has few states: the proof learns it from the call.
    let _states = table.len();
    let reached = step(table, goal, state, letter);
    if hits[reached as usize] == 0 && needs.alive(reached, true, 0) {
        if reached == state { AT_REST } else { reached }
    } else {
        NO_NUMBER
    }
}
