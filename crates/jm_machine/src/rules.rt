//! The monitor of a specification.
ghost use Rattle.std.specs.Prelude.{ℕ, ◌+◌, ◌≡◌, ◌<◌, ◌≤◌, ◌^◌, ◌↔◌, [], ◌∷◌, ◌++◌, List, All, Contains, Some, None, true, false, IsTrue, IsSomeAnd, IsNone, IsBitSet, IfOk, IfErr, IfSome, length, map, slice_get};
ghost use Rattle.jm_table.specs.Minimal.{IsReduced};
ghost use Rattle.jm_text.specs.Spans.{LieWithin};
ghost use Rattle.jm_spec.specs.Trees.{IsFewProperties};
ghost use Rattle.jm_semantics.specs.Families.{IsFamily};
ghost use Rattle.jm_model.specs.Meanings.{IsHit, IsCutWord};
ghost use Rattle.jm_machine.specs.Formulas.{is_grammar};
ghost use Rattle.jm_machine.specs.Meanings.{has_grammar, handler_count, rules_meaning};
ghost use Rattle.jm_machine.specs.HandlerNames.{AreEachDistinct, names_of};
ghost use Rattle.jm_machine.specs.CompiledProperties.{CompiledProperty, IsCompiledProperty};
ghost use Rattle.jm_machine.specs.RuleSets.{IsAlike, IsRuleSet, property_of, rules_with};
ghost use Rattle.jm_machine.specs.Configurations.{place_at, AreAfter, IsConfigurationOf};
ghost use Rattle.jm_machine.specs.Compiling.{IsCompiledFrom, IsNotCompiled};
ghost use Rattle.jm_machine.specs.declared.engine.Engine.TheVariants as engine;
ghost use Rattle.jm_machine.specs.declared.place.Place.TheVariants as place;
ghost use Rattle.jm_machine.specs.declared.configuration.Configuration.{Configuration};
ghost use Rattle.jm_goal.specs.Goals.{most_handlers};
ghost use Rattle.jm_spec.specs.Faults.{most_properties};

use crate::compile::{compile_formulas, read_formulas};
use crate::configuration::Configuration;
use crate::goal::contains;
use crate::handlers::{check_handlers, check_suffix};
use crate::names::numbered_names;
use crate::place::Place;
use crate::property::Property;
use crate::union::union_of;
use jm_events::Names;
use jm_model::{Letter, Monitor, NoMemory, SpecError};
use jm_spec::SpecTree;
use jm_table::Table;
use jm_text::Token;
use std::alloc::Global;
use std::marker::Model;

/// The rules of a specification: its properties, 1 to 16, and where there are several the names of their handlers.
/// Contracts see them as their `CompiledRules`.
pub struct Rules {
    first: Property,
    others: Vec<Property>,
    names: Option<Names>,
}

// Written out, so that a drop is one call wherever rules are let go.
impl Drop for Rules {
    fn drop(self) {
        let Rules {
            first: _,
            others: _,
            names: _,
        } = self;
    }
}

impl Model for Rules {
    ghost use Rattle.std.specs.Prelude.{◌∷◌};
    ghost use Rattle.jm_machine.specs.RuleSets.{CompiledRules, rules_with, AreRules};

    ghost Value = { CompiledRules };

    ghost use Rattle.std.specs.Coded.{codes};
    ghost use Rattle.jm_machine.specs.contracts.formula.Formula as formula;
    ghost use Rattle.jm_machine.specs.contracts.property.Property as property;

    ghost coded = { Prim.hlevel (codes, formula.the_row.coded, property.the_row.coded) };

    ghost view = { λ r. record {
      definition = rules_with r.first r.others.items;
      parts = r.first ∷ r.others.items;
    } };

    ghost invariant = { λ r. AreRules r.first r.others.items r.names };
}

impl Rules {
    /// The rules that the tree of these tokens says. A tree that was read has 1 to 16 properties.
    ///
    /// The fault is the first one of the steps, each of which is done for all properties, in their order, before the
    /// next: those of the formulas' readers; `TooMany` handlers, past 16 of all properties; `DuplicateHandler`;
    /// `UnknownCategory`; `ResetWithFullBinding`, the word `__RESET` in a block where the specification is for full
    /// bindings alone; `UnsupportedSuffix`, where the modifier `suffix` stands and some property is a state machine or
    /// a past-time formula, or some handler is for `fail`; and those of the formulas' tables, `TooManyStates` and
    /// `TooMany` term.
    pub fn compile(
        alloc: Global,
        bytes: &[u8],
        tokens: &[Token],
        tree: &SpecTree,
    ) -> Result<Rules, SpecError>
        requires tokens { LieWithin bytes.now tokens.now }
        requires bounded { IsFewProperties tree.now }
        ensures ok { IfOk result (λ r. IsCompiledFrom bytes.now tokens.now tree.now r.definition) }
        ensures fit { IfOk result (λ r. All (λ mask. mask < 2 ^ length tree.now.table.parameters) r.definition.masks) }
        ensures bounded { IfOk result (λ r. handler_count r.definition.properties ≤ most_handlers) }
        ensures count { IfOk result (λ r. length r.definition.properties ≡ length tree.now.properties.items) }
        ensures err { IfErr result (IsNotCompiled bytes.now tokens.now tree.now) }
    {
        let formulas = read_formulas(alloc, bytes, tokens, tree)?;
        let properties = tree.properties.as_slice();
        let full_binding = tree.full_binding;
        check_handlers(
            alloc,
            bytes,
            tokens,
            properties,
            formulas.as_slice(),
            full_binding,
        )?;
        check_suffix(bytes, properties, tree.suffix)?;
        let mut parts = compile_formulas(alloc, bytes, tokens, tree, formulas)?;
        let first = parts.remove(0);
        Ok(Rules::new(alloc, first, parts)?)
    }

    /// The rules of these properties.
    fn new(alloc: Global, first: Property, others: Vec<Property>) -> Result<Rules, NoMemory>
        requires alike { (k : ℕ) (other : CompiledProperty) → slice_get others.items k ≡ Some other
            → IsAlike first other }
        requires properties { length others.items < most_properties }
        requires handlers { handler_count (map property_of (first ∷ others.items)) ≤ most_handlers }
        requires distinct { AreEachDistinct (map (λ part. part.definition.handlers) (first ∷ others.items)) }
        ensures { IfOk result (λ r. r ≡ record {
          definition = rules_with first others.items;
          parts = first ∷ others.items;
        }) }
    {
        let names = if others.is_empty() {
            None
        } else {
            Some(numbered_names(alloc, &first, others.as_slice())?)
        };
        Ok(Rules {
            first,
            others,
            names,
        })
    }

    /// The names of the handlers: the categories that they are for, where there is one property, else with the number
    /// of the handler's property before them, from 1, and a dot.
    pub fn handlers(&self) -> &Names
        ensures { result.now ≡ names_of self.now.definition }
    {
        match &self.names {
            Some(names) => names,
            None => self.first.handlers(),
        }
    }

    /// The name of a handler.
    pub fn handler_name(&self, handler: u8) -> &str
        requires { handler < handler_count self.now.definition.properties }
        ensures { slice_get (names_of self.now.definition) handler ≡ Some result.now }
    {
        self.handlers().name(handler as u32)
    }

    /// How many properties there are, 1 to 16.
    pub fn properties(&self) -> u8
        ensures value { result ≡ length self.now.definition.properties }
        ensures parts { result ≡ length self.now.parts }
        ensures rules { IsRuleSet self.now }
    {
        self.others.len() as u8 + 1
    }

    /// The table that runs the property of this number, from 0. No two of its states agree in groups after all words,
    /// and after a word that isn't empty the groups are the categories that hold of it. There is none for a grammar.
    pub fn table(&self, property: u8) -> Option<&Table>
        requires { property < length self.now.definition.properties }
        ensures none { IsNone result ↔ IsSomeAnd (slice_get self.now.definition.properties property)
            (λ p. is_grammar p.formula ≡ true) }
        ensures table { IfSome result (λ t. IsSomeAnd (slice_get self.now.parts property)
            (λ part. part.engine ≡ engine.States t.now)) }
        ensures minimal { IfSome result (λ t. IsReduced t.now) }
        ensures part { IsSomeAnd (slice_get self.now.parts property) IsCompiledProperty }
        ensures rules { IsRuleSet self.now }
    {
        // The rules are those of the properties: the proof learns it from the fields.
        let _ = &self.first;
        self.property(property).table()
    }

    /// The coenable family of a letter: the sets of parameters of the words that lead to a handled category of some
    /// property from some word that ends in the letter, in rising order. There is none where some property is a
    /// grammar.
    pub fn family(&self, letter: Letter) -> Result<Option<Vec<u8>>, NoMemory>
        requires { letter.0 < length self.now.definition.masks }
        ensures family { has_grammar self.now.definition.properties ≡ false →
            IfOk result (λ family. IsSomeAnd family
            (λ masks. IsFamily (rules_meaning self.now.definition) letter.0 masks.items)) }
        ensures none { has_grammar self.now.definition.properties ≡ true → IfOk result (λ family. family ≡ None) }
    {
        let count = self.properties();
        let Some(mut all) = self.property(0).family(letter)? else {
            return Ok(None);
        };
        for number in 1..count {
            let Some(masks) = self.property(number).family(letter)? else {
                return Ok(None);
            };
            all = union_of(*all.allocator(), all.as_slice(), masks.as_slice())?;
        }
        Ok(Some(all))
    }

    /// The property of this number, from 0.
    fn property(&self, number: u8) -> &Property
        requires { number < length self.now.parts }
        ensures { slice_get self.now.parts number ≡ Some result.now }
    {
        if number == 0 {
            &self.first
        } else {
            &self.others[number as usize - 1]
        }
    }

    /// The configuration of this place of the first property, where that is the only one, or at the place of the words
    /// that can't begin so.
    #[inline(always)]
    fn configuration_at(&self, place: Place) -> Result<Configuration, NoMemory>
        ensures single { length self.now.parts ≡ 1 → IfOk result (λ c.
            (w : List ℕ) → AreAfter self.now.parts [] place w → IsConfigurationOf self.now c w) }
    {
        match place {
            Place::Start => Ok(Configuration::Start),
            Place::Trap => Ok(Configuration::Trap),
            Place::State(state) => Ok(Configuration::State(state)),
            parse => Ok(Configuration::Single(Box::new(*self.others.allocator(), parse)?)),
        }
    }

    /// The configuration of the words of one letter more, from this place of the only property.
    #[inline(never)]
    fn next_alone(&self, place: &Place, letter: Letter) -> Result<Configuration, NoMemory>
        requires { letter.0 < length self.now.definition.masks }
        ensures { IfOk result (λ c. (w : List ℕ) → (length self.now.parts ≡ 1) × AreAfter self.now.parts [] place.now w
            → IsConfigurationOf self.now c (w ++ letter.0 ∷ [])) }
    {
        self.configuration_at(self.first.next(place, letter)?)
    }

    /// The configuration of the word of one letter, where a table runs the only property.
    #[inline(always)]
    fn first_alone(&self, letter: Letter) -> Option<Configuration>
        requires { letter.0 < length self.now.definition.masks }
        ensures { IfSome result (λ first. IsConfigurationOf self.now first (letter.0 ∷ [])) }
    {
        if !self.others.is_empty() {
            return None;
        }
        if !self.first.may_begin(letter) {
            return Some(Configuration::Trap);
        }
        match self.first.first_state(letter) {
            Some(state) => Some(Configuration::State(state)),
            None => None,
        }
    }

    /// The configuration of the words of one letter more, from that of the empty word.
    #[inline(never)]
    fn first_of_each(&self, letter: Letter) -> Result<Configuration, NoMemory>
        requires { letter.0 < length self.now.definition.masks }
        ensures { IfOk result (λ c. (w : List ℕ) → AreAfter self.now.parts [] place.Start w
            → IsConfigurationOf self.now c (w ++ letter.0 ∷ [])) }
    {
        let place = self.first.next(&Place::Start, letter)?;
        if self.others.is_empty() {
            return self.configuration_at(place);
        }
        if let Place::Trap = place {
            return Ok(Configuration::Trap);
        }
        self.next_of_each(&[], &Place::Start, letter)
    }

    /// The places of all properties after a letter more, from those of the list, or else from this one.
    #[inline(never)]
    fn next_of_each(
        &self,
        places: &[Place],
        otherwise: &Place,
        letter: Letter,
    ) -> Result<Configuration, NoMemory>
        requires { letter.0 < length self.now.definition.masks }
        ensures { IfOk result (λ c. (w : List ℕ) → AreAfter self.now.parts places.now otherwise.now w
            → IsConfigurationOf self.now c (w ++ letter.0 ∷ [])) }
    {
        let alloc = *self.others.allocator();
        let mut next = Vec::with_capacity(alloc, self.properties() as usize)?;
        for number in 0..self.properties() {
            let place = place_at(places, otherwise, number);
            next.push(self.property(number).next(place, letter)?)?;
        }
        Ok(Configuration::Several(Box::new(alloc, next)?))
    }

    /// The places of all properties, copied: those of the list.
    #[inline(never)]
    fn copy_of_each(&self, places: &[Place]) -> Result<Configuration, NoMemory>
        ensures { IfOk result (λ c. (w : List ℕ) → AreAfter self.now.parts places.now place.Start w
            → IsConfigurationOf self.now c w) }
    {
        let alloc = *self.others.allocator();
        let mut copy = Vec::with_capacity(alloc, self.properties() as usize)?;
        for number in 0..self.properties() {
            let place = place_at(places, &Place::Start, number);
            copy.push(self.property(number).copy(place)?)?;
        }
        Ok(Configuration::Several(Box::new(alloc, copy)?))
    }

    /// The handlers that the properties hit at these places: a handler's bit is that of its number in the whole.
    #[inline(never)]
    fn hits_of_each(&self, places: &[Place], otherwise: &Place) -> u16
        ensures { (w : List ℕ) → AreAfter self.now.parts places.now otherwise.now w → (k : ℕ) →
            IsBitSet result k ↔ IsHit (rules_meaning self.now.definition) w k }
    {
        let mut hits = 0;
        let mut before = 0;
        for number in 0..self.properties() {
            let property = self.property(number);
            let count = property.handlers().len() as u8;
            let here = property.hits(place_at(places, otherwise, number));
            hits |= moved(here, before, count);
            before += count;
        }
        hits
    }

    /// Whether each property is cut, where all are at this place.
    #[inline(always)]
    fn is_cut_at(&self, place: &Place, dead: u8) -> bool
        ensures { (w : List ℕ) → AreAfter self.now.parts [] place.now w →
            IsTrue result ↔ IsCutWord (rules_meaning self.now.definition) w dead }
    {
        if self.others.is_empty() {
            self.first.cut(place, dead)
        } else {
            self.is_each_cut(&[], place, dead)
        }
    }

    /// Whether each property is cut at its place.
    #[inline(never)]
    fn is_each_cut(&self, places: &[Place], otherwise: &Place, dead: u8) -> bool
        ensures { (w : List ℕ) → AreAfter self.now.parts places.now otherwise.now w →
            IsTrue result ↔ IsCutWord (rules_meaning self.now.definition) w dead }
    {
        for number in 0..self.properties() {
            if !self
                .property(number)
                .cut(place_at(places, otherwise, number), dead)
            {
                return false;
            }
        }
        true
    }

    /// The letters at which each property rests.
    #[inline(never)]
    fn idle_of_each(&self, places: &[Place], otherwise: &Place) -> u32
        ensures stays { (w : List ℕ) → AreAfter self.now.parts places.now otherwise.now w → (e : ℕ) →
            IsBitSet result e → AreAfter self.now.parts places.now otherwise.now (w ++ e ∷ []) }
        ensures quiet { (w : List ℕ) → AreAfter self.now.parts places.now otherwise.now w → (e k : ℕ) →
            IsBitSet result e → IsHit (rules_meaning self.now.definition) (w ++ e ∷ []) k → ⊥ }
    {
        let mut idle = u32::MAX;
        for number in 0..self.properties() {
            idle &= self
                .property(number)
                .idle(place_at(places, otherwise, number));
        }
        idle
    }

    /// The letters that end an instance of each property, where all are at this place.
    #[inline(never)]
    fn ending_at(&self, place: &Place) -> u32
        ensures quiet { (w : List ℕ) → AreAfter self.now.parts [] place.now w → (e k : ℕ) →
            IsBitSet result e → IsHit (rules_meaning self.now.definition) (w ++ e ∷ []) k → ⊥ }
        ensures cut { (w : List ℕ) → AreAfter self.now.parts [] place.now w → (e : ℕ) →
            IsBitSet result e → IsCutWord (rules_meaning self.now.definition) (w ++ e ∷ []) 0 }
    {
        if self.others.is_empty() {
            self.first.ending(place)
        } else {
            self.ending_of_each(&[], place)
        }
    }

    /// The letters that end an instance of each property.
    #[inline(never)]
    fn ending_of_each(&self, places: &[Place], otherwise: &Place) -> u32
        ensures quiet { (w : List ℕ) → AreAfter self.now.parts places.now otherwise.now w → (e k : ℕ) →
            IsBitSet result e → IsHit (rules_meaning self.now.definition) (w ++ e ∷ []) k → ⊥ }
        ensures cut { (w : List ℕ) → AreAfter self.now.parts places.now otherwise.now w → (e : ℕ) →
            IsBitSet result e → IsCutWord (rules_meaning self.now.definition) (w ++ e ∷ []) 0 }
    {
        let mut ending = u32::MAX;
        for number in 0..self.properties() {
            ending &= self
                .property(number)
                .ending(place_at(places, otherwise, number));
        }
        ending
    }

    /// The configuration of the words of one letter more, whatever the configuration. A call of its own, as the others
    /// below, so that what is done at each event for a state of a table stays short.
    #[inline(never)]
    fn next_elsewhere(
        &self,
        configuration: &Configuration,
        letter: Letter,
    ) -> Result<Configuration, NoMemory>
        requires { letter.0 < length self.now.definition.masks }
        ensures { IfOk result (λ c. (w : List ℕ) → IsConfigurationOf self.now configuration.now w
            → IsConfigurationOf self.now c (w ++ letter.0 ∷ [])) }
    {
        match configuration {
            Configuration::State(state) => self.next_alone(&Place::State(*state), letter),
            Configuration::Single(place) => self.next_alone(place, letter),
            Configuration::Several(places) => {
                self.next_of_each(places.as_slice(), &Place::Start, letter)
            }
            Configuration::Start => self.first_of_each(letter),
            Configuration::Trap => Ok(Configuration::Trap),
        }
    }

    /// The handlers that are hit, whatever the configuration.
    #[inline(never)]
    fn hits_elsewhere(&self, configuration: &Configuration) -> u16
        ensures { (w : List ℕ) → IsConfigurationOf self.now configuration.now w → (k : ℕ) →
            IsBitSet result k ↔ IsHit (rules_meaning self.now.definition) w k }
    {
        match configuration {
            Configuration::State(state) => self.first.hits_of_state(*state),
            Configuration::Single(place) => self.first.hits(place),
            Configuration::Several(places) => self.hits_of_each(places.as_slice(), &Place::Start),
            Configuration::Start => 0,
            Configuration::Trap => 0,
        }
    }

    /// Whether an instance can never fire again, whatever its configuration.
    #[inline(never)]
    fn is_cut_elsewhere(&self, configuration: &Configuration, dead: u8) -> bool
        ensures { (w : List ℕ) → IsConfigurationOf self.now configuration.now w →
            IsTrue result ↔ IsCutWord (rules_meaning self.now.definition) w dead }
    {
        match configuration {
            Configuration::State(state) => self.first.is_state_cut(*state, dead),
            Configuration::Single(place) => self.first.cut(place, dead),
            Configuration::Several(places) => {
                self.is_each_cut(places.as_slice(), &Place::Start, dead)
            }
            Configuration::Start => self.is_cut_at(&Place::Start, dead),
            Configuration::Trap => self.is_cut_at(&Place::Trap, dead),
        }
    }

    /// The letters at which an instance rests, whatever its configuration.
    #[inline(never)]
    fn idle_elsewhere(&self, configuration: &Configuration) -> u32
        ensures stays { (w : List ℕ) → IsConfigurationOf self.now configuration.now w → (e : ℕ) →
            IsBitSet result e → IsConfigurationOf self.now configuration.now (w ++ e ∷ []) }
        ensures quiet { (w : List ℕ) → IsConfigurationOf self.now configuration.now w → (e k : ℕ) →
            IsBitSet result e → IsHit (rules_meaning self.now.definition) (w ++ e ∷ []) k → ⊥ }
    {
        match configuration {
            Configuration::State(state) => self.first.idle_of_state(*state),
            Configuration::Single(place) => self.first.idle(place),
            Configuration::Several(places) => self.idle_of_each(places.as_slice(), &Place::Start),
            Configuration::Start => 0,
            Configuration::Trap => u32::MAX,
        }
    }

    /// The letters that end an instance, whatever its configuration.
    #[inline(never)]
    fn ending_elsewhere(&self, configuration: &Configuration) -> u32
        ensures quiet { (w : List ℕ) → IsConfigurationOf self.now configuration.now w → (e k : ℕ) →
            IsBitSet result e → IsHit (rules_meaning self.now.definition) (w ++ e ∷ []) k → ⊥ }
        ensures cut { (w : List ℕ) → IsConfigurationOf self.now configuration.now w → (e : ℕ) →
            IsBitSet result e → IsCutWord (rules_meaning self.now.definition) (w ++ e ∷ []) 0 }
    {
        match configuration {
            Configuration::State(state) => self.first.ending_of_state(*state),
            Configuration::Single(place) => self.first.ending(place),
            Configuration::Several(places) => self.ending_of_each(places.as_slice(), &Place::Start),
            Configuration::Start => self.ending_at(&Place::Start),
            Configuration::Trap => self.ending_at(&Place::Trap),
        }
    }
}

/// The place of a property: that of the list, or else this one.
fn place_at<'a>(places: &'a [Place], otherwise: &'a Place, number: u8) -> &'a Place
    ensures { result.now ≡ place_at places.now otherwise.now number }
{
    match places.get(number as usize) {
        Some(place) => place,
        None => otherwise,
    }
}

/// The bits of the given number of handlers, moved past those of others.
fn moved(hits: u16, before: u8, count: u8) -> u16
    requires { before + count ≤ most_handlers }
    ensures { (k : ℕ) → IsBitSet result k ↔ ((i : ℕ) × (i < count) × (k ≡ before + i) × IsBitSet hits i) }
{
    let mut all = 0;
    for handler in 0..count {
        if contains(u32::from(hits), handler) {
            all |= 1 << (before + handler);
        }
    }
    all
}

impl Monitor for Rules {
    ghost use Rattle.std.specs.Prelude.{◌≡◌};
    ghost use Rattle.jm_machine.specs.RuleSets.{CompiledRules};
    ghost use Rattle.jm_machine.specs.Meanings.{rules_meaning};
    ghost use Rattle.jm_machine.specs.Configurations.{IsConfigurationOf};
    ghost use Rattle.jm_machine.specs.declared.configuration.Configuration.{Configuration};

    type State = Configuration;

    type Definition = Rules;

    ghost definition = { λ r. r };

    ghost meaning = { λ r. rules_meaning r.definition };

    ghost StandsFor = { λ r s w. IsConfigurationOf r s w };

    ghost HasNumber = { λ r s n. s ≡ Configuration.State n };

    fn letters(&self) -> u8 {
        self.first.letters()
    }

    fn params(&self, letter: Letter) -> u8 {
        self.first.params(letter)
    }

    fn must_bind(&self) -> u8 {
        self.first.must_bind()
    }

    fn begin(&self) -> Result<Configuration, NoMemory> {
        Ok(Configuration::Start)
    }

    fn copy(&self, state: &Configuration) -> Result<Configuration, NoMemory> {
        match state {
            Configuration::Start => Ok(Configuration::Start),
            Configuration::Trap => Ok(Configuration::Trap),
            Configuration::State(state) => Ok(Configuration::State(*state)),
            Configuration::Single(place) => self.configuration_at(self.first.copy(place)?),
            Configuration::Several(places) => self.copy_of_each(places.as_slice()),
        }
    }

    fn next(&self, state: &Configuration, letter: Letter) -> Result<Configuration, NoMemory> {
        match state {
            Configuration::State(number) => match self.first.state_after(*number, letter) {
                Some(next) => Ok(Configuration::State(next)),
                None => self.next_elsewhere(state, letter),
            },
            Configuration::Start => match self.first_alone(letter) {
                Some(first) => Ok(first),
                None => self.next_elsewhere(state, letter),
            },
            _ => self.next_elsewhere(state, letter),
        }
    }

    #[inline(always)]
    fn hits(&self, state: &Configuration) -> u16 {
        match state {
            Configuration::State(state) => self.first.hits_of_state(*state),
            _ => self.hits_elsewhere(state),
        }
    }

    #[inline(always)]
    fn cut(&self, state: &Configuration, dead: u8) -> bool {
        match state {
            Configuration::State(state) => self.first.is_state_cut(*state, dead),
            _ => self.is_cut_elsewhere(state, dead),
        }
    }

    #[inline(always)]
    fn idle(&self, state: &Configuration) -> u32 {
        match state {
            Configuration::State(state) => self.first.idle_of_state(*state),
            _ => self.idle_elsewhere(state),
        }
    }

    #[inline(always)]
    fn ending(&self, state: &Configuration) -> u32 {
        match state {
            Configuration::State(state) => self.first.ending_of_state(*state),
            _ => self.ending_elsewhere(state),
        }
    }

    #[inline(always)]
    fn number(&self, state: &Configuration) -> Option<u16> {
        match state {
            Configuration::State(number) => Some(*number),
            _ => None,
        }
    }

    #[inline(always)]
    fn renumber(&self, state: &mut Configuration, number: u16) {
        if let Configuration::State(state) = state {
            *state = number;
        }
    }

    fn plain(&self, letter: Letter) -> &[u16] {
        self.first.plain_states(letter)
    }

    fn endings(&self) -> &[u32] {
        self.first.state_endings()
    }
}
