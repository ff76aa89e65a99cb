ghost use Rattle.std.specs.Prelude.{◌≡◌, IfOk};
ghost use Rattle.std.specs.List.{flat_map};
ghost use Rattle.jm_print.specs.Summaries.{weight_of, count_of, summary_text};

use crate::page::Page;
use jm_history::{History, Piece};
use jm_model::{NoMemory, Outcome, Step};
use std::alloc::Global;

/// What is counted.
#[derive(Clone, Copy)]
pub(crate) enum Measure {
    Events,
    Firings,
    Refusals,
    Deaths,
    Passes,
}

/// The summary of a history: how many events it has, handlers ran and steps were refused, and how many deaths and
/// passes it has, each modulo 2^64.
pub fn render_summary(alloc: Global, name: &str, history: &History) -> Result<Vec<u8>, NoMemory>
    ensures { IfOk result (λ text. text.items ≡ summary_text name.now history.now) }
{
    let pieces = history.pieces(alloc)?;
    let mut page = Page::new(alloc);
    page.text("spec ")?;
    page.text(name)?;
    page.text(" events ")?;
    page.number(count(&pieces, Measure::Events))?;
    page.text(" fired ")?;
    page.number(count(&pieces, Measure::Firings))?;
    page.text(" refused ")?;
    page.number(count(&pieces, Measure::Refusals))?;
    page.text(" deaths ")?;
    page.number(count(&pieces, Measure::Deaths))?;
    page.text(" passes ")?;
    page.number(count(&pieces, Measure::Passes))?;
    page.text("\n")?;
    Ok(page.into_bytes())
}

fn count(pieces: &[Piece], what: Measure) -> u64
    ensures { result ≡ count_of what (flat_map (λ piece. piece) pieces.now) }
{
    let mut count = 0u64;
    for piece in pieces {
        count = count.wrapping_add(count_in(piece, what));
    }
    count
}

fn count_in(piece: &Piece, what: Measure) -> u64
    ensures { result ≡ count_of what piece.now }
{
    let mut count = 0u64;
    let entries = piece.len();
    for i in 0..entries {
        let entry = piece.get(i);
        count = count.wrapping_add(weight(what, entry.step(), entry.outcome()));
    }
    count
}

/// What a step and its outcome add to a count.
fn weight(what: Measure, step: &Step, outcome: &Outcome) -> u64
    ensures { result ≡ weight_of what step.now outcome.now }
{
    match (what, step, outcome) {
        (Measure::Events, Step::Event { .. }, _)
        | (Measure::Deaths, Step::Death { .. }, _)
        | (Measure::Passes, Step::Pass, _)
        | (Measure::Refusals, _, Outcome::Refused(_)) => 1,
        (Measure::Firings, _, Outcome::Fired(firings)) => firings.len() as u64,
        _ => 0,
    }
}
