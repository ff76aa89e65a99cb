use crate::bindings::{binding_of, binding_shown};
use jm_model::{Letter, Step};
use std::alloc::{AllocError, Global};
use testkit::{byte_of, number_of};

/// The step of a text: `event:LETTER:BINDING`, `death:OBJECT`, or another for a pass.
pub fn step_of(text: &str) -> Step {
    let (kind, rest) = text.split_once(':').unwrap_or((text, ""));
    match kind {
        "event" => event_of(rest),
        "death" => Step::Death {
            object: number_of(rest),
        },
        _ => Step::Pass,
    }
}

fn event_of(text: &str) -> Step {
    let (letter, binding) = text.split_once(':').unwrap_or((text, ""));
    Step::Event {
        letter: Letter(byte_of(letter)),
        binding: binding_of(binding),
    }
}

/// The text of a step.
pub fn step_shown(alloc: Global, step: &Step) -> Result<String, AllocError> {
    match step {
        Step::Event { letter, binding } => {
            let binding = binding_shown(alloc, binding)?;
            format!(in alloc; "event:{}:{binding}", letter.0)
        }
        Step::Death { object } => format!(in alloc; "death:{object}"),
        Step::Pass => String::from_str(alloc, "pass"),
    }
}
