//! What may still follow the charts of a grammar.
ghost use Rattle.std.specs.Prelude.{ℕ, ◌≡◌, ◌≢◌, ◌<◌, ◌≤◌, ◌↔◌, ◌∷◌, [], List, true, false, IsTrue, IsBitSet, IsSomeAnd, IfOk, length, slice_get};
ghost use Rattle.jm_grammar.specs.Categories.{GrammarHolds};
ghost use Rattle.jm_earley.specs.Charts.{IsChartOf};
ghost use Rattle.jm_earley.specs.DeadSets.{IsAvailable};
ghost use Rattle.jm_machine.specs.declared.engine.Engine.TheVariants.{Parses};
ghost use Rattle.jm_machine.specs.Engines.{IsPlaceOf};
ghost use Rattle.jm_machine.specs.Liveness.{AreFirstCharts, BeginsWith, GoesOn, IsLeftOf, CanMatch, is_coarse};

use crate::cut_rule::CutRule;
use crate::goal::may_begin;
use crate::place::Place;
use jm_earley::{Chart, Charts};
use jm_goal::Goal;
use jm_model::{Letter, NoMemory};
use std::alloc::Global;
use std::marker::Model;

/// The charts of a grammar, and what its property is run for.
#[derive(Clone, Copy)]
pub(crate) struct Parser<'a> {
    pub(crate) charts: &'a Charts,
    pub(crate) goal: &'a Goal,
}

/// The chart of the empty word, the charts of the words of one letter, and when an instance is cut. Contracts see it as
/// its `ParseFacts`.
pub(crate) struct GrammarLiveness {
    begin: Chart,
    firsts: Vec<Chart>,
    cut_rule: CutRule,
}

// Written out, so that a drop is one call.
impl Drop for GrammarLiveness {
    fn drop(self) {
        let GrammarLiveness {
            begin: _,
            firsts: _,
            cut_rule: _,
        } = self;
    }
}

impl Model for GrammarLiveness {
    ghost use Rattle.jm_machine.specs.Liveness.{ParseFacts, is_coarse};

    ghost Value = { ParseFacts };

    ghost view = { λ o. record { begin = o.begin; firsts = o.firsts.items; coarse = is_coarse o.cut_rule } };
}

impl GrammarLiveness {
    /// The liveness of a grammar over the given number of letters.
    pub(crate) fn new(
        alloc: Global,
        charts: &Charts,
        letters: u8,
        cut_rule: CutRule,
    ) -> Result<GrammarLiveness, NoMemory>
        requires { letters ≡ length charts.now.params }
        ensures begin { IfOk result (λ o. IsChartOf charts.now [] o.begin) }
        ensures firsts { IfOk result (λ o. AreFirstCharts charts.now o.firsts) }
        ensures coarse { IfOk result (λ o. o.coarse ≡ is_coarse cut_rule) }
    {
        let begin = charts.begin()?;
        let firsts = first_charts(alloc, charts, &begin, letters)?;
        Ok(GrammarLiveness {
            begin,
            firsts,
            cut_rule,
        })
    }

    /// The place of the word of one letter.
    #[inline(never)]
    pub(crate) fn first(&self, charts: &Charts, letter: Letter) -> Result<Place, NoMemory>
        requires firsts { AreFirstCharts charts.now self.now.firsts }
        requires letter { letter.0 < length self.now.firsts }
        ensures { IfOk result (λ place. IsPlaceOf (Parses charts.now) place (letter.0 ∷ [])) }
    {
        let chart = charts.copy(&self.firsts[letter.0 as usize])?;
        Ok(Place::Parse(chart))
    }

    /// Whether an instance with this place, whose property may have been reset there, can never fire again.
    /// Where `fail` is handled that is so only where no letter is without a dead parameter.
    #[inline(never)]
    pub(crate) fn is_cut(&self, parser: &Parser, place: &Place, reset: bool, dead: u8) -> bool
        requires begin { IsChartOf parser.now.charts.now [] self.now.begin }
        requires firsts { AreFirstCharts parser.now.charts.now self.now.firsts }
        ensures coarse { self.now.coarse ≡ true →
            IsTrue result ↔ ((e : ℕ) → IsAvailable parser.now.charts.now.params dead e → ⊥) }
        ensures exact { self.now.coarse ≡ false → (word : List ℕ)
            → IsLeftOf parser.now.charts.now place.now reset word →
            IsTrue result ↔ ((parser.now.goal.now.groups ≢ [])
            × CanMatch parser.now.charts.now parser.now.goal.now place.now word dead → ⊥) }
    {
        match self.cut_rule {
            CutRule::Exact => {
                parser.goal.handlers() == 0 || !self.can_match(parser, place, reset, dead)
            }
            CutRule::Coarse => parser
                .charts
                .params()
                .iter()
                .all(|params| params & dead != 0),
        }
    }

    /// Whether some word of one or more letters without a dead parameter, put after what is left of the place's
    /// word, is in the language. After the empty word it is one that may begin so.
    pub(crate) fn can_match(&self, parser: &Parser, place: &Place, reset: bool, dead: u8) -> bool
        requires begin { IsChartOf parser.now.charts.now [] self.now.begin }
        requires firsts { AreFirstCharts parser.now.charts.now self.now.firsts }
        ensures { (word : List ℕ) → IsLeftOf parser.now.charts.now place.now reset word →
            IsTrue result ↔ CanMatch parser.now.charts.now parser.now.goal.now place.now word dead }
    {
        match place {
            Place::Start => self.can_begin(parser, dead),
            Place::Parse(_) if reset => parser.charts.alive(&self.begin, dead),
            Place::Parse(chart) => parser.charts.alive(chart, dead),
            _ => false,
        }
    }

    /// Whether some word of letters without a dead parameter, which may begin so, is in the language.
    fn can_begin(&self, parser: &Parser, dead: u8) -> bool
        requires firsts { AreFirstCharts parser.now.charts.now self.now.firsts }
        ensures { IsTrue result ↔ ((e : ℕ) × BeginsWith parser.now.charts.now parser.now.goal.now dead e) }
    {
        for letter in 0..parser.charts.params().len() as u8 {
            if self.begins_with(parser, Letter(letter), dead) {
                return true;
            }
        }
        false
    }

    /// Whether some word of letters without a dead parameter, which may begin so and begins with the letter, is in the
    /// language.
    fn begins_with(&self, parser: &Parser, letter: Letter, dead: u8) -> bool
        requires firsts { AreFirstCharts parser.now.charts.now self.now.firsts }
        requires letter { letter.0 < length parser.now.charts.now.params }
        ensures { IsTrue result ↔ BeginsWith parser.now.charts.now parser.now.goal.now dead letter.0 }
    {
        let params = parser.charts.params()[letter.0 as usize];
        may_begin(parser.goal, letter)
            && params & dead == 0
            && self.goes_on(parser.charts, letter, dead)
    }

    /// Whether the word of the letter alone is in the language, or one that goes on with letters without a dead
    /// parameter.
    fn goes_on(&self, charts: &Charts, letter: Letter, dead: u8) -> bool
        requires firsts { AreFirstCharts charts.now self.now.firsts }
        requires letter { letter.0 < length self.now.firsts }
        ensures { IsTrue result ↔ GoesOn charts.now dead letter.0 }
    {
        let chart = &self.firsts[letter.0 as usize];
        charts.matches(chart) || charts.alive(chart, dead)
    }
}

/// The charts of the words of one letter, from the chart of the empty word.
fn first_charts(
    alloc: Global,
    charts: &Charts,
    begin: &Chart,
    letters: u8,
) -> Result<Vec<Chart>, NoMemory>
    requires begin { IsChartOf charts.now [] begin.now }
    requires letters { letters ≡ length charts.now.params }
    ensures { IfOk result (λ firsts. AreFirstCharts charts.now firsts.items) }
{
    let mut firsts = Vec::with_capacity(alloc, letters as usize)?;
    for letter in 0..letters {
        firsts.push(charts.next(begin, Letter(letter))?)?;
    }
    Ok(firsts)
}

/// The handlers whose category holds of the chart's words: bit k stands for handler k.
#[inline(never)]
pub(crate) fn handlers_of_chart(goal: &Goal, charts: &Charts, chart: &Chart) -> u16
    ensures { (word : List ℕ) → IsChartOf charts.now word chart.now → (k : ℕ) →
        IsBitSet result k ↔ IsSomeAnd (slice_get goal.now.groups k)
        (λ group. GrammarHolds charts.now.grammar group word) }
{
    let mut hits = 0;
    for handler in 0..goal.handlers() {
        if category_holds(charts, chart, goal.group(handler)) {
            hits |= 1 << handler;
        }
    }
    hits
}

/// Whether the category of this number holds of the chart's words.
fn category_holds(charts: &Charts, chart: &Chart, category: u16) -> bool
    ensures { (word : List ℕ) → IsChartOf charts.now word chart.now →
        IsTrue result ↔ GrammarHolds charts.now.grammar category word }
{
    match category {
        0 => charts.matches(chart),
        1 => charts.fails(chart),
        _ => false,
    }
}
