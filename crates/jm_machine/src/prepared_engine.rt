//! What runs a property, with what may still follow.
ghost use Rattle.std.specs.Prelude.{ℕ, ◌≡◌, ◌<◌, ◌++◌, ◌∷◌, [], List, All, IfOk, length};
ghost use Rattle.jm_table.specs.Tables.{IsTable, next_of};
ghost use Rattle.jm_machine.specs.Engines.{letters_of_engine, categories_of_engine, IsPlaceOf};
ghost use Rattle.jm_machine.specs.Liveness.{is_coarse};
ghost use Rattle.jm_machine.specs.Known.{engine_of, IsPrepared};

use crate::cut_rule::CutRule;
use crate::engine::Engine;
use crate::grammar_liveness::GrammarLiveness;
use crate::place::Place;
use crate::table_liveness::TableLiveness;
use jm_earley::Charts;
use jm_events::EventTable;
use jm_goal::Goal;
use jm_model::{Letter, NoMemory};
use jm_table::Table;
use std::alloc::Global;

/// What runs a property, with what may still follow, worked out once for all places.
#[derive(Drop)]
pub(crate) enum PreparedEngine {
    /// A table, with what may follow each of its states.
    Table {
        table: Table,
        liveness: TableLiveness,
    },
    /// The charts of a grammar, with what may follow each chart.
    Grammar {
        charts: Charts,
        liveness: GrammarLiveness,
    },
}

impl PreparedEngine {
    /// The engine with what may still follow, for this goal, and with when an instance is cut.
    pub(crate) fn new(
        alloc: Global,
        engine: Engine,
        goal: &Goal,
        events: &EventTable,
        cut_rule: CutRule,
    ) -> Result<PreparedEngine, NoMemory>
        requires letters { letters_of_engine engine ≡ length events.now.events }
        requires groups { All (λ group. group < categories_of_engine engine) goal.now.groups }
        ensures engine { IfOk result (λ prepared. engine_of prepared ≡ engine) }
        ensures liveness { IfOk result (IsPrepared goal.now events.now (is_coarse cut_rule)) }
    {
        match engine {
            Engine::States(table) => {
                let liveness = TableLiveness::new(alloc, &table, goal, events)?;
                Ok(PreparedEngine::Table { table, liveness })
            }
            Engine::Parses(charts) => {
                let liveness = GrammarLiveness::new(alloc, &charts, events.letters(), cut_rule)?;
                Ok(PreparedEngine::Grammar { charts, liveness })
            }
        }
    }

    /// A place of the same words.
    pub(crate) fn copy(&self, place: &Place) -> Result<Place, NoMemory>
        ensures { IfOk result (λ copy. (word : List ℕ) → IsPlaceOf (engine_of self.now) place.now word
            → IsPlaceOf (engine_of self.now) copy word) }
    {
        match (self, place) {
            (_, Place::State(state)) => Ok(Place::State(*state)),
            (PreparedEngine::Grammar { charts, .. }, Place::Parse(chart)) => {
                Ok(Place::Parse(charts.copy(chart)?))
            }
            _ => Ok(Place::Trap),
        }
    }

    /// The place of the words that have one letter more.
    #[inline(always)]
    pub(crate) fn next(&self, place: &Place, letter: Letter) -> Result<Place, NoMemory>
        requires { letter.0 < letters_of_engine (engine_of self.now) }
        ensures { IfOk result (λ next.
            (word : List ℕ) → IsPlaceOf (engine_of self.now) place.now word
            → IsPlaceOf (engine_of self.now) next (word ++ letter.0 ∷ [])) }
    {
        match (self, place) {
            (PreparedEngine::Table { table, .. }, Place::State(state)) => {
                Ok(Place::State(next_state(table, *state, letter)))
            }
            (PreparedEngine::Grammar { charts, .. }, Place::Parse(chart)) => {
                Ok(Place::Parse(charts.next(chart, letter)?))
            }
            _ => Ok(Place::Trap),
        }
    }
}

/// The state that a letter leads to, from a state of the table.
pub(crate) fn next_state(table: &Table, state: u16, letter: Letter) -> u16
    requires { letter.0 < table.now.letters }
    ensures next { state < table.now.states → result ≡ next_of table.now state letter.0 }
    ensures table { IsTable table.now }
{
    if state < table.len() {
        table.next(state, letter)
    } else {
        0
    }
}
