//! The monitor of one property.
ghost use Rattle.std.specs.Prelude.{ℕ, ◌&&◌, codes, ◌≡◌, ◌≢◌, ◌<◌, ◌≤◌, ◌^◌, ◌↔◌, ◌⊎◌, [], ◌∷◌, ◌++◌, List, All, Contains, Some, None, true, false, IsTrue, IsSomeAnd, IsNone, IsBitSet, IfOk, IfErr, IfSome, length, map, slice_get};
ghost use Rattle.std.specs.List.{list_any};
ghost use Rattle.std.specs.Str.{bytes_eq};
ghost use Rattle.jm_table.specs.Minimal.{IsReduced};
ghost use Rattle.jm_semantics.specs.Families.{IsFamily};
ghost use Rattle.jm_machine.specs.Liveness.{is_coarse};
ghost use Rattle.jm_machine.specs.Formulas.{category_names, is_grammar};
ghost use Rattle.jm_machine.specs.Handlings.{IsHandling};
ghost use Rattle.jm_machine.specs.PropertyMeanings.{Resets, property_rules_of, property_meaning};
ghost use Rattle.jm_model.specs.Meanings.{IsHit, IsCutWord};
ghost use Rattle.jm_model.specs.Numbers.{no_number, at_rest, IsPlainMove, IsAtRest, AreEnds};
ghost use Rattle.jm_machine.specs.declared.place.Place.{Place};
ghost use Rattle.jm_machine.specs.Places.{Stands, IsPlaceAfter};
ghost use Rattle.jm_machine.specs.Engines.{IsPlaceOf, IsEngineOf};
ghost use Rattle.jm_machine.specs.CompiledProperties.{numbers_of, IsCompiledProperty, IsHandledBy};
ghost use Rattle.jm_machine.specs.declared.place.Place.TheVariants as place;

use crate::cut_rule::CutRule;
use crate::engine::Engine;
use crate::formula::Formula;
use crate::goal::{goal_of, may_begin};
use crate::grammar_liveness::{Parser, handlers_of_chart};
use crate::handling::Handling;
use crate::place::Place;
use crate::prepared_engine::{PreparedEngine, next_state};
use jm_events::Names;
use jm_goal::Goal;
use jm_model::{Letter, Monitor, NoMemory, SpecError};
use jm_spec::SpecTree;
use jm_table::Table;
use std::alloc::Global;
use std::marker::Model;

/// A property of a specification: the parameters of the events, its formula, the categories that are handled, what it
/// is run for, and what runs it, with what may still follow. Contracts see it as its `CompiledProperty`.
pub struct Property {
    masks: Vec<u8>,
    formula: Formula,
    handlers: Names,
    goal: Goal,
    engine: PreparedEngine,
}

// Written out, so that a drop is one call wherever a property is let go.
impl Drop for Property {
    fn drop(self) {
        let Property {
            masks: _,
            formula: _,
            handlers: _,
            goal: _,
            engine: _,
        } = self;
    }
}

impl Model for Property {
    ghost use Rattle.jm_machine.specs.CompiledProperties.{CompiledProperty, definition_of, IsCompiledProperty, IsGoalOf};
    ghost use Rattle.jm_machine.specs.Known.{engine_of, IsKnown};

    ghost Value = { CompiledProperty };

    ghost use Rattle.std.specs.Coded.{codes};
    ghost use Rattle.jm_machine.specs.contracts.formula.Formula as property;
    ghost use Rattle.jm_machine.specs.contracts.engine.Engine as driver;

    ghost coded = { Prim.hlevel (codes, property.the_row.coded, driver.the_row.coded) };

    ghost view = { λ r. record {
      definition = definition_of r.masks.items r.formula r.handlers r.goal;
      engine = engine_of r.engine;
    } };

    ghost invariant = { λ r. let d = definition_of r.masks.items r.formula r.handlers r.goal in
        IsGoalOf r.masks.items r.formula r.handlers r.goal
        × IsCompiledProperty (record { definition = d; engine = engine_of r.engine })
        × IsKnown d r.goal r.engine };
}

impl Property {
    /// The property of a formula with what runs it, and with these handlers, over the events of the tree.
    pub(crate) fn new(
        alloc: Global,
        tree: &SpecTree,
        formula: Formula,
        handling: Handling,
        engine: Engine,
    ) -> Result<Property, SpecError>
        requires categories { handling.categories ≡ category_names formula }
        requires handling { IsHandling tree.now.full_binding handling }
        requires engine { IsEngineOf tree.now.table.events formula engine }
        ensures rules { IfOk result (λ r. r.definition ≡ property_rules_of tree.now.table tree.now.full_binding formula
            handling.handlers (numbers_of handling.resets (length handling.handlers))) }
        ensures fit { IfOk result (λ r. All (λ mask. mask < 2 ^ length tree.now.table.parameters) r.definition.masks) }
        ensures err { IfErr result (λ e. e ≡ SpecError.NoMemory) }
    {
        let masks = tree.table.masks(alloc)?;
        let goal = goal_of(alloc, tree, &handling)?;
        let cut_rule = cut_rule_of(&formula, &handling.handlers);
        let engine = PreparedEngine::new(alloc, engine, &goal, &tree.table, cut_rule)?;
        Ok(Property {
            masks,
            formula,
            handlers: handling.into_handlers(),
            goal,
            engine,
        })
    }

    /// The names of the categories that are handled, handler by handler.
    pub(crate) fn handlers(&self) -> &Names
        ensures { result.now ≡ self.now.definition.handlers }
    {
        &self.handlers
    }

    /// The table that runs the property. No two of its states agree in groups after all words, and after a word that
    /// isn't empty the groups are the categories that hold of it. There is none for a grammar.
    pub(crate) fn table(&self) -> Option<&Table>
        ensures none { IsNone result ↔ (is_grammar self.now.definition.formula ≡ true) }
        ensures table { IfSome result (λ t. self.now.engine ≡ Engine.States t.now) }
        ensures minimal { IfSome result (λ t. IsReduced t.now) }
        ensures rules { IsCompiledProperty self.now }
    {
        match &self.engine {
            PreparedEngine::Table { table, .. } => Some(table),
            PreparedEngine::Grammar { .. } => None,
        }
    }

    /// The coenable family of a letter: the sets of parameters of the words that lead to a handled category from some
    /// word that ends in the letter, in rising order. There is none for a grammar.
    pub(crate) fn family(&self, letter: Letter) -> Result<Option<Vec<u8>>, NoMemory>
        requires { letter.0 < length self.now.definition.masks }
        ensures family { is_grammar self.now.definition.formula ≡ false →
            IfOk result (λ family. IsSomeAnd family
            (λ masks. IsFamily (property_meaning self.now.definition) letter.0 masks.items)) }
        ensures bounded { IfOk result (λ family. IfSome family
            (λ masks. (mask : ℕ) → Contains masks.items mask → mask < 256)) }
        ensures none { is_grammar self.now.definition.formula ≡ true → IfOk result (λ family. family ≡ None) }
    {
        match &self.engine {
            PreparedEngine::Table { liveness, .. } => Ok(Some(liveness.family(letter)?)),
            PreparedEngine::Grammar { .. } => Ok(None),
        }
    }

    /// Whether a word may begin with the letter.
    pub(crate) fn may_begin(&self, letter: Letter) -> bool
        requires { letter.0 < length self.now.definition.masks }
        ensures { IsTrue result ↔ ((self.now.definition.creation ≡ [])
            ⊎ Contains self.now.definition.creation letter.0) }
    {
        may_begin(&self.goal, letter)
    }

    /// The place of the word of one letter, with which words may begin.
    fn first(&self, letter: Letter) -> Result<Place, NoMemory>
        requires { letter.0 < length self.now.definition.masks }
        ensures { IfOk result (λ place. IsPlaceOf self.now.engine place (letter.0 ∷ [])) }
    {
        match &self.engine {
            PreparedEngine::Table { table, .. } => {
                Ok(Place::State(next_state(table, table.start(), letter)))
            }
            PreparedEngine::Grammar { charts, liveness } => liveness.first(charts, letter),
        }
    }

    /// The state of the words that have one letter more than those of a state, where a table runs the property and no
    /// handler resets it.
    #[inline(always)]
    pub(crate) fn state_after(&self, state: u16, letter: Letter) -> Option<u16>
        requires { letter.0 < length self.now.definition.masks }
        ensures { IfSome result (λ next. (w : List ℕ) → IsPlaceAfter self.now (place.State state) w
            → IsPlaceAfter self.now (place.State next) (w ++ letter.0 ∷ [])) }
    {
        match &self.engine {
            PreparedEngine::Table { table, .. } if self.goal.resets() == 0 => {
                Some(next_state(table, state, letter))
            }
            _ => None,
        }
    }

    /// The state of the word of one letter, with which words may begin, where a table runs the property.
    #[inline(always)]
    pub(crate) fn first_state(&self, letter: Letter) -> Option<u16>
        requires letter { letter.0 < length self.now.definition.masks }
        requires begins { (self.now.definition.creation ≡ []) ⊎ Contains self.now.definition.creation letter.0 }
        ensures { IfSome result (λ first. IsPlaceAfter self.now (place.State first) (letter.0 ∷ [])) }
    {
        match &self.engine {
            PreparedEngine::Table { table, .. } => {
                Some(next_state(table, table.start(), letter))
            }
            PreparedEngine::Grammar { .. } => None,
        }
    }

    /// The handlers that are hit at a state of the table: bit k stands for handler k.
    #[inline(always)]
    pub(crate) fn hits_of_state(&self, state: u16) -> u16
        ensures { (w : List ℕ) → IsPlaceAfter self.now (place.State state) w → (k : ℕ) →
            IsBitSet result k ↔ IsHit (property_meaning self.now.definition) w k }
    {
        match &self.engine {
            PreparedEngine::Table { liveness, .. } => liveness.hits(state),
            PreparedEngine::Grammar { .. } => 0,
        }
    }

    /// Whether an instance at a state of the table can never fire again.
    #[inline(always)]
    pub(crate) fn is_state_cut(&self, state: u16, dead: u8) -> bool
        ensures { (w : List ℕ) → IsPlaceAfter self.now (place.State state) w →
            IsTrue result ↔ IsCutWord (property_meaning self.now.definition) w dead }
    {
        match &self.engine {
            PreparedEngine::Table { liveness, .. } => !liveness.is_alive(state, dead),
            PreparedEngine::Grammar { .. } => false,
        }
    }

    /// The letters that leave a state of the table as it is and hit nothing.
    #[inline(always)]
    pub(crate) fn idle_of_state(&self, state: u16) -> u32
        ensures stays { (w : List ℕ) → IsPlaceAfter self.now (place.State state) w → (e : ℕ) →
            IsBitSet result e → IsPlaceAfter self.now (place.State state) (w ++ e ∷ []) }
        ensures quiet { (w : List ℕ) → IsPlaceAfter self.now (place.State state) w → (e k : ℕ) →
            IsBitSet result e → IsHit (property_meaning self.now.definition) (w ++ e ∷ []) k → ⊥ }
    {
        match &self.engine {
            PreparedEngine::Table { liveness, .. } => liveness.idle(state),
            PreparedEngine::Grammar { .. } => 0,
        }
    }

    /// The letters that end an instance at a state of the table.
    #[inline(always)]
    pub(crate) fn ending_of_state(&self, state: u16) -> u32
        ensures quiet { (w : List ℕ) → IsPlaceAfter self.now (place.State state) w → (e k : ℕ) →
            IsBitSet result e → IsHit (property_meaning self.now.definition) (w ++ e ∷ []) k → ⊥ }
        ensures cut { (w : List ℕ) → IsPlaceAfter self.now (place.State state) w → (e : ℕ) →
            IsBitSet result e → IsCutWord (property_meaning self.now.definition) (w ++ e ∷ []) 0 }
    {
        match &self.engine {
            PreparedEngine::Table { liveness, .. } => liveness.ending(state),
            PreparedEngine::Grammar { .. } => 0,
        }
    }

    /// By state of the table the state to which the letter leads plainly, or that it leaves the state as it is.
    pub(crate) fn plain_states(&self, letter: Letter) -> &[u16]
        ensures moves { (k n : ℕ) → slice_get result.now k ≡ Some n → n ≢ no_number → n ≢ at_rest → IsPlainMove Place
            (property_meaning self.now.definition) (IsPlaceAfter self.now) letter.0 (place.State k) (place.State n) }
        ensures rests { (k : ℕ) → slice_get result.now k ≡ Some at_rest → IsAtRest Place
            (property_meaning self.now.definition) (IsPlaceAfter self.now) letter.0 (place.State k) }
    {
        match &self.engine {
            PreparedEngine::Table { liveness, .. } => liveness.plain_states(letter),
            PreparedEngine::Grammar { .. } => &[],
        }
    }

    /// By state of the table the letters that end an instance.
    pub(crate) fn state_endings(&self) -> &[u32]
        ensures { (k mask : ℕ) → slice_get result.now k ≡ Some mask → AreEnds Place
            (property_meaning self.now.definition) (IsPlaceAfter self.now) mask (place.State k) }
    {
        match &self.engine {
            PreparedEngine::Table { liveness, .. } => liveness.endings(),
            PreparedEngine::Grammar { .. } => &[],
        }
    }

    /// The place of the words that have one letter more, of which there is one already.
    #[inline(always)]
    fn step(&self, place: &Place, letter: Letter) -> Result<Place, NoMemory>
        requires { letter.0 < length self.now.definition.masks }
        ensures { IfOk result (λ next. (word : List ℕ) →
            Stands self.now place.now word → Stands self.now next (word ++ letter.0 ∷ [])) }
    {
        if self.goal.resets() == 0 {
            self.engine.next(place, letter)
        } else {
            self.step_past_reset(place, letter)
        }
    }

    /// The place of the words that have one letter more, of which there is one already, where the property may
    /// be reset: from the start where it is, and else from the place.
    #[inline(never)]
    fn step_past_reset(&self, place: &Place, letter: Letter) -> Result<Place, NoMemory>
        requires { letter.0 < length self.now.definition.masks }
        ensures { IfOk result (λ next. (word : List ℕ) →
            Stands self.now place.now word → Stands self.now next (word ++ letter.0 ∷ [])) }
    {
        if self.is_reset(place) {
            self.first(letter)
        } else {
            self.engine.next(place, letter)
        }
    }

    /// Whether the property is reset at a place, so that the next letter leads on from the start.
    #[inline(never)]
    fn is_reset(&self, place: &Place) -> bool
        ensures { (asked : List ℕ) → asked ≢ [] → IsPlaceOf self.now.engine place.now asked →
            IsTrue result ↔ Resets self.now.definition asked }
    {
        let resets = self.goal.resets();
        resets != 0 && self.handlers_at(place) & resets != 0
    }

    /// Whether an instance with this place can never fire again, whatever runs the property. A call of its own,
    /// so that what is asked of a table at each event stays short.
    #[inline(never)]
    fn is_cut(&self, place: &Place, dead: u8) -> bool
        ensures { (w : List ℕ) → IsPlaceAfter self.now place.now w →
            IsTrue result ↔ IsCutWord (property_meaning self.now.definition) w dead }
    {
        match &self.engine {
            PreparedEngine::Table { liveness, .. } => !liveness.can_hit(place, dead),
            PreparedEngine::Grammar { charts, liveness } => {
                let reset = self.is_reset(place);
                let parser = Parser {
                    charts,
                    goal: &self.goal,
                };
                liveness.is_cut(&parser, place, reset, dead)
            }
        }
    }

    /// The handlers whose categories hold of the words of a place: bit k stands for handler k.
    #[inline(always)]
    fn handlers_at(&self, place: &Place) -> u16
        ensures hits { (word : List ℕ) → IsPlaceOf self.now.engine place.now word →
            (k : ℕ) → IsBitSet result k ↔ IsHandledBy self.now word k }
        ensures rules { IsCompiledProperty self.now }
    {
        match (&self.engine, place) {
            (PreparedEngine::Table { liveness, .. }, Place::State(state)) => liveness.hits(*state),
            (PreparedEngine::Grammar { charts, .. }, Place::Parse(chart)) => {
                handlers_of_chart(&self.goal, charts, chart)
            }
            _ => 0,
        }
    }
}

/// When an instance is cut.
fn cut_rule_of(formula: &Formula, handlers: &Names) -> CutRule
    ensures { is_coarse result ≡ (is_grammar formula.now && list_any (bytes_eq (codes "fail")) handlers.now) }
{
    if is_failing(formula, handlers) {
        CutRule::Coarse
    } else {
        CutRule::Exact
    }
}

/// Whether the property is a grammar with a handler for `fail`.
fn is_failing(formula: &Formula, handlers: &Names) -> bool
    ensures { result ≡ (is_grammar formula.now && list_any (bytes_eq (codes "fail")) handlers.now) }
{
    match formula {
        Formula::Grammatical(_) | Formula::GrammaticalSuffix(_) => handlers.find("fail").is_some(),
        _ => false,
    }
}

impl Monitor for Property {
    ghost use Rattle.jm_machine.specs.CompiledProperties.{CompiledProperty};
    ghost use Rattle.jm_machine.specs.PropertyMeanings.{property_meaning};
    ghost use Rattle.jm_machine.specs.Places.{IsPlaceAfter};

    type State = Place;

    type Definition = Property;

    ghost definition = { λ r. r };

    ghost meaning = { λ r. property_meaning r.definition };

    ghost StandsFor = { λ r s w. IsPlaceAfter r s w };

    ghost HasNumber = { λ r s n. ⊥ };

    fn letters(&self) -> u8 {
        self.masks.len() as u8
    }

    fn params(&self, letter: Letter) -> u8 {
        self.masks[letter.0 as usize]
    }

    fn must_bind(&self) -> u8 {
        self.goal.must_bind()
    }

    fn begin(&self) -> Result<Place, NoMemory> {
        Ok(Place::Start)
    }

    fn copy(&self, state: &Place) -> Result<Place, NoMemory> {
        match state {
            Place::Start => Ok(Place::Start),
            Place::Trap => Ok(Place::Trap),
            _ => self.engine.copy(state),
        }
    }

    #[inline(always)]
    fn next(&self, state: &Place, letter: Letter) -> Result<Place, NoMemory> {
        match state {
            Place::Start if self.may_begin(letter) => self.first(letter),
            Place::Start | Place::Trap => Ok(Place::Trap),
            _ => self.step(state, letter),
        }
    }

    #[inline(always)]
    fn hits(&self, state: &Place) -> u16 {
        match state {
            Place::Start | Place::Trap => 0,
            Place::State(state) => self.hits_of_state(*state),
            _ => self.handlers_at(state),
        }
    }

    #[inline(always)]
    fn cut(&self, state: &Place, dead: u8) -> bool {
        match &self.engine {
            PreparedEngine::Table { liveness, .. } => !liveness.can_hit(state, dead),
            PreparedEngine::Grammar { .. } => self.is_cut(state, dead),
        }
    }

    #[inline(always)]
    fn idle(&self, state: &Place) -> u32 {
        match state {
            Place::Trap => u32::MAX,
            Place::State(state) => self.idle_of_state(*state),
            _ => 0,
        }
    }

    #[inline(always)]
    fn ending(&self, state: &Place) -> u32 {
        match (state, &self.engine) {
            (Place::State(state), _) => self.ending_of_state(*state),
            (Place::Trap, PreparedEngine::Table { .. }) => u32::MAX,
            (Place::Start, PreparedEngine::Table { liveness, .. }) => liveness.first_ending(),
            _ => 0,
        }
    }

    fn renumber(&self, state: &mut Place, number: u16) {
        let _state = state;
        let _number = number;
    }
}
