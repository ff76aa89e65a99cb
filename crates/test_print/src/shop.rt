//! An entry of each kind that can be printed.
ghost use Rattle.std.specs.Prelude.{◌≡◌, [], ◌∷◌, IfOk, Some, None};
ghost use Rattle.jm_print.specs.Lexicons.{Lexicon};
ghost use Rattle.jm_print.specs.Texts.{IsPrintableStep};
ghost use Rattle.test_print.specs.Shops.{HasEnough};

use jm_model::{Binding, Firing, Firings, Letter, NoMemory, Outcome, Step};
use std::alloc::Global;

fn pair() -> Binding
    ensures { result ≡ Some 0 ∷ Some 1 ∷ None ∷ None ∷ None ∷ None ∷ None ∷ None ∷ [] }
{
    Binding::empty().bind(0, 0).bind(1, 1)
}

fn all() -> Binding
    ensures { result ≡ Some 0 ∷ Some 1 ∷ Some 1 ∷ Some 1 ∷ Some 1 ∷ Some 1 ∷ Some 1 ∷ Some 0 ∷ [] }
{
    let half = pair().bind(2, 1).bind(3, 1).bind(4, 1);
    half.bind(5, 1).bind(6, 1).bind(7, 0)
}

fn none() -> Binding
    ensures { result ≡ None ∷ None ∷ None ∷ None ∷ None ∷ None ∷ None ∷ None ∷ [] }
{
    Binding::empty()
}

/// The answer of two handlers, for an instance of eight parameters and for the empty one.
fn answer(alloc: Global) -> Result<Firings, NoMemory>
    ensures { IfOk result (λ f. f ≡
        record { instance = None ∷ None ∷ None ∷ None ∷ None ∷ None ∷ None ∷ None ∷ []; handler = 1 }
        ∷ record {
          instance = Some 0 ∷ Some 1 ∷ Some 1 ∷ Some 1 ∷ Some 1 ∷ Some 1 ∷ Some 1 ∷ Some 0 ∷ [];
          handler = 0;
        } ∷ []) }
{
    let mut firings = Firings::new(alloc);
    firings.push(Firing {
        instance: none(),
        handler: 1,
    })?;
    firings.push(Firing {
        instance: all(),
        handler: 0,
    })?;
    Ok(firings)
}

fn create() -> Step
    ensures { result ≡ Step.Event (record { 0 = 0 }) (Some 0 ∷ Some 1 ∷ None ∷ None ∷ None ∷ None ∷ None ∷ None ∷ []) }
{
    Step::Event {
        letter: Letter(0),
        binding: pair(),
    }
}

fn tick() -> Step
    ensures { result ≡ Step.Event (record { 0 = 1 }) (None ∷ None ∷ None ∷ None ∷ None ∷ None ∷ None ∷ None ∷ []) }
{
    Step::Event {
        letter: Letter(1),
        binding: none(),
    }
}

/// A step and its outcome.
pub(crate) fn entry_of(alloc: Global, kind: &str) -> Result<(Step, Outcome), NoMemory>
    ensures { IfOk result (λ entry. (l : Lexicon) → HasEnough l → IsPrintableStep l entry.0 entry.1) }
{
    match kind {
        "create" => Ok((create(), Outcome::Fired(answer(alloc)?))),
        "tick" => Ok((tick(), Outcome::Fired(Firings::new(alloc)))),
        "death" => Ok((Step::Death { object: 0 }, Outcome::Done)),
        "create-refused" => Ok((create(), Outcome::Refused(0))),
        "death-refused" => Ok((Step::Death { object: 0 }, Outcome::Refused(0))),
        _ => Ok((Step::Pass, Outcome::Kept(12_345_678_901))),
    }
}
