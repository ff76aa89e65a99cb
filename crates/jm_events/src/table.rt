ghost use Rattle.std.specs.Prelude.{ℕ, ◌≡◌, ◌≢◌, ◌<◌, ◌≤◌, ◌^◌, ◌↔◌, ◌||◌, [], ◌∷◌, ◌++◌, length, map, All, Contains, Some, None, IsNone, IfNone, IfSome, IfOk, OnOk, OnErr, IsOkUnless, IsBitSet, slice_get, slice_set, option_map, vec_len};
ghost use Rattle.std.specs.List.{IsDistinct};
ghost use Rattle.std.specs.Str.{bytes_eq};
ghost use Rattle.jm_events.specs.Names.{number_of};
ghost use Rattle.jm_events.specs.Events.{EventDefinition, event_names, IsCreation, parameter_fault, with_parameter, event_fault, with_event};
ghost use Rattle.jm_events.specs.Rows.{event_of};

use crate::names::Names;
use jm_model::{Counted, Letter, NoMemory, SpecError, SpecFault};
use std::alloc::Global;
use std::marker::Model;

const MAX_PARAMETERS: u8 = 8;

const MAX_EVENTS: u8 = 32;

/// What is known of an event beside its name.
#[derive(Clone, Copy)]
struct Row {
    mask: u8,
    creation: bool,
    line: u32,
}

/// Puts a row in the place of that of a letter.
fn set_row(rows: &mut Vec<Row>, letter: Letter, row: Row)
    requires { letter.0 < vec_len rows.old }
    ensures { rows.new.items ≡ slice_set rows.old.items letter.0 row }
{
    rows[letter.0 as usize] = row;
}

/// The parameters and the events of a specification: at most 8 and 32, of distinct names. A set of parameters is a
/// mask, whose bit p stands for parameter p. Contracts see a table as its `EventDefinitions`.
pub struct EventTable {
    params: Names,
    events: Names,
    rows: Vec<Row>,
}

// Written out, so that a drop is one call wherever a table is let go.
impl Drop for EventTable {
    fn drop(self) {
        let EventTable {
            params: _,
            events: _,
            rows: _,
        } = self;
    }
}

impl Model for EventTable {
    ghost use Rattle.jm_events.specs.Events.{EventDefinitions};

    ghost Value = { EventDefinitions };

    ghost use Rattle.jm_events.specs.Rows.{events_of, IsTable};

    ghost view = { λ t. record { parameters = t.params; events = events_of t.events t.rows.items } };

    ghost invariant = { λ t. IsTable t.params t.events t.rows.items };
}

impl EventTable {
    /// No parameter and no event.
    pub fn new(alloc: Global) -> EventTable
        ensures { result ≡ record { parameters = []; events = [] } }
    {
        EventTable {
            params: Names::new(alloc),
            events: Names::new(alloc),
            rows: Vec::new(alloc),
        }
    }

    /// Adds a parameter, which stands at a line, and answers its number.
    ///
    /// The fault is `DuplicateParameter` where the name is there, and else `TooMany` parameters where eight are.
    pub fn add_param(&mut self, name: &str, line: u32) -> Result<u8, SpecError>
        ensures refused { IfSome (parameter_fault self.old name.now line)
            (λ fault. result ≡ Err (SpecError.Bad fault)) }
        ensures accepted { IfNone (parameter_fault self.old name.now line) (IsOkUnless result SpecError.NoMemory) }
        ensures number { IfOk result (λ p. p ≡ length self.old.parameters) }
        ensures ok { OnOk result (self.new ≡ with_parameter self.old name.now) }
        ensures err { OnErr result (self.new ≡ self.old) }
    {
        if let Some(fault) = self.parameter_fault(name, line) {
            return Err(fault.into());
        }
        let number = self.params.append(name)?;
        Ok(number as u8)
    }

    /// What is wrong with one more parameter.
    fn parameter_fault(&self, name: &str, line: u32) -> Option<SpecFault>
        ensures value { result ≡ parameter_fault self.now name.now line }
        ensures absent { IfNone result (number_of self.now.parameters name.now ≡ None) }
        ensures room { IfNone result (length self.now.parameters < 8) }
    {
        if self.params.find(name).is_some() {
            return Some(SpecFault::DuplicateParameter { line });
        }
        if self.params() == MAX_PARAMETERS {
            let what = Counted::Parameters;
            return Some(SpecFault::TooMany { what });
        }
        None
    }

    /// Adds a mention of an event, which stands at a line, and answers the event's letter. An event is a creation
    /// event if one of its mentions says so.
    ///
    /// The fault is `DuplicateEvent` where the name is there with another mask, and `TooMany` events where it is new
    /// and 32 are there.
    pub fn add_event(
        &mut self,
        name: &str,
        mask: u8,
        creation: bool,
        line: u32,
    ) -> Result<Letter, SpecError>
        requires { mask < 2 ^ length self.old.parameters }
        ensures refused { let e : EventDefinition =
            record { name = name.now; mask = mask; creation = creation; line = line } in
            IfSome (event_fault self.old e) (λ fault. result ≡ Err (SpecError.Bad fault)) }
        ensures accepted { let e : EventDefinition =
            record { name = name.now; mask = mask; creation = creation; line = line } in
            IfNone (event_fault self.old e) (IsOkUnless result SpecError.NoMemory) }
        ensures letter { IfOk result (λ letter. slice_get (event_names self.new) letter.0 ≡ Some name.now) }
        ensures ok { let e : EventDefinition =
            record { name = name.now; mask = mask; creation = creation; line = line } in
            OnOk result (self.new ≡ with_event self.old e) }
        ensures err { OnErr result (self.new ≡ self.old) }
    {
        let row = Row {
            mask,
            creation,
            line,
        };
        match self.letter(name) {
            Some(letter) => self.mention(letter, row),
            None => self.define(name, row),
        }
    }

    /// Adds a mention of an event that is there.
    fn mention(&mut self, letter: Letter, said: Row) -> Result<Letter, SpecError>
        requires { letter.0 < length self.old.events }
        ensures refused { (known : EventDefinition) → slice_get self.old.events letter.0 ≡ Some known →
            known.mask ≢ said.mask → result ≡ Err (SpecError.Bad (SpecFault.DuplicateEvent said.line)) }
        ensures accepted { (known : EventDefinition) → slice_get self.old.events letter.0 ≡ Some known →
            known.mask ≡ said.mask → result ≡ Ok letter }
        ensures ok { (known : EventDefinition) → slice_get self.old.events letter.0 ≡ Some known →
            OnOk result (self.new ≡ record self.old {
              events =
                  slice_set self.old.events letter.0 (record known { creation = known.creation || said.creation });
            }) }
        ensures err { OnErr result (self.new ≡ self.old) }
    {
        let row = self.row(letter);
        if row.mask != said.mask {
            let line = said.line;
            return Err(SpecFault::DuplicateEvent { line }.into());
        }
        let creation = row.creation | said.creation;
        set_row(&mut self.rows, letter, Row { creation, ..row });
        Ok(letter)
    }

    /// Adds a new event.
    fn define(&mut self, name: &str, row: Row) -> Result<Letter, SpecError>
        requires absent { number_of (event_names self.old) name.now ≡ None }
        requires bits { row.mask < 2 ^ length self.old.parameters }
        ensures refused { length self.old.events ≡ 32
            → result ≡ Err (SpecError.Bad (SpecFault.TooMany Counted.Events)) }
        ensures accepted { length self.old.events ≢ 32 → IsOkUnless result SpecError.NoMemory }
        ensures letter { IfOk result (λ letter. letter.0 ≡ length self.old.events) }
        ensures ok { OnOk result (self.new ≡ record self.old {
          events =
              self.old.events ++ event_of name.now row ∷ [];
        }) }
        ensures err { OnErr result (self.new ≡ self.old) }
    {
        if self.letters() == MAX_EVENTS {
            let what = Counted::Events;
            return Err(SpecFault::TooMany { what }.into());
        }
        self.rows.reserve(1)?;
        let number = self.events.append(name)?;
        self.rows.push_reserved(row);
        Ok(Letter(number as u8))
    }

    /// The letter of an event, if it is there.
    pub fn letter(&self, name: &str) -> Option<Letter>
        ensures value { option_map (λ letter. letter.0) result ≡ number_of (event_names self.now) name.now }
        ensures at { (k : ℕ) → (result ≡ Some (record { 0 = k })) ↔
            (slice_get (event_names self.now) k ≡ Some name.now) }
        ensures absent { IsNone result ↔ ¬ Contains (event_names self.now) name.now }
        ensures within { IfSome result (λ letter. letter.0 < length self.now.events) }
        ensures distinct { IsDistinct bytes_eq (event_names self.now) }
    {
        match self.events.find(name) {
            Some(number) => Some(Letter(number as u8)),
            None => None,
        }
    }

    /// The number of a parameter, if it is there.
    pub fn param(&self, name: &str) -> Option<u8>
        ensures value { result ≡ number_of self.now.parameters name.now }
        ensures at { (k : ℕ) → (result ≡ Some k) ↔ (slice_get self.now.parameters k ≡ Some name.now) }
        ensures absent { IsNone result ↔ ¬ Contains self.now.parameters name.now }
        ensures within { IfSome result (λ p. p < length self.now.parameters) }
    {
        match self.params.find(name) {
            Some(number) => Some(number as u8),
            None => None,
        }
    }

    /// How many events there are.
    pub fn letters(&self) -> u8
        ensures value { result ≡ length self.now.events }
        ensures bounded { result ≤ 32 }
        ensures distinct { IsDistinct bytes_eq (event_names self.now) }
    {
        self.events.len() as u8
    }

    /// How many parameters there are.
    pub fn params(&self) -> u8
        ensures value { result ≡ length self.now.parameters }
        ensures bounded { result ≤ 8 }
        ensures distinct { IsDistinct bytes_eq self.now.parameters }
    {
        self.params.len() as u8
    }

    /// The creation events: bit k stands for letter k.
    pub fn creation(&self) -> u32
        ensures { (k : ℕ) → IsBitSet result k ↔ IsCreation self.now k }
    {
        let mut letters = 0;
        for (letter, row) in self.rows.iter().enumerate() {
            if row.creation {
                letters |= 1 << letter;
            }
        }
        letters
    }

    /// The parameters of an event.
    pub fn mask(&self, letter: Letter) -> u8
        requires { letter.0 < length self.now.events }
        ensures value { option_map (λ e. e.mask) (slice_get self.now.events letter.0) ≡ Some result }
        ensures bits { result < 2 ^ length self.now.parameters }
    {
        self.row(letter).mask
    }

    /// The parameters of each event, letter by letter.
    pub fn masks(&self, alloc: Global) -> Result<Vec<u8>, NoMemory>
        ensures value { IfOk result (λ masks. masks.items ≡ map (λ e. e.mask) self.now.events) }
        ensures bounded { IfOk result (λ masks. length masks.items ≤ 32) }
        ensures fit { IfOk result (λ masks. All (λ mask. mask < 2 ^ length self.now.parameters) masks.items) }
        ensures bytes { IfOk result (λ masks. All (λ mask. mask < 256) masks.items) }
    {
        let mut masks = Vec::new(alloc);
        for row in &self.rows {
            masks.push(row.mask)?;
        }
        Ok(masks)
    }

    /// The name of an event.
    pub fn event_name(&self, letter: Letter) -> &str
        requires { letter.0 < length self.now.events }
        ensures { slice_get (event_names self.now) letter.0 ≡ Some result.now }
    {
        self.events.name(letter.0 as u32)
    }

    /// The line of an event's first mention.
    pub fn event_line(&self, letter: Letter) -> u32
        requires { letter.0 < length self.now.events }
        ensures { option_map (λ e. e.line) (slice_get self.now.events letter.0) ≡ Some result }
    {
        self.row(letter).line
    }

    fn row(&self, letter: Letter) -> Row
        requires { letter.0 < length self.now.events }
        ensures mask { option_map (λ e. e.mask) (slice_get self.now.events letter.0) ≡ Some result.mask }
        ensures creation { option_map (λ e. e.creation) (slice_get self.now.events letter.0) ≡ Some result.creation }
        ensures line { option_map (λ e. e.line) (slice_get self.now.events letter.0) ≡ Some result.line }
        ensures bits { result.mask < 2 ^ length self.now.parameters }
    {
        self.rows[letter.0 as usize]
    }

    /// The name of a parameter.
    pub fn param_name(&self, p: u8) -> &str
        requires { p < length self.now.parameters }
        ensures { slice_get self.now.parameters p ≡ Some result.now }
    {
        self.params.name(p as u32)
    }

    /// An equal table.
    pub fn copy(&self) -> Result<EventTable, NoMemory>
        ensures { IfOk result (λ table. table ≡ self.now) }
    {
        let rows = self.rows.clone()?;
        let params = self.params.copy()?;
        let events = self.events.copy()?;
        Ok(EventTable {
            params,
            events,
            rows,
        })
    }
}
