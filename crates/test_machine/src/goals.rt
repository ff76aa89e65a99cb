//! What tables are run for.

ghost use Rattle.std.specs.Prelude.{◌≤◌, vec_len};

use jm_goal::Goal;
use std::alloc::{AllocError, Global};
use testkit::Case;

/// The goal of the groups after the verb, with the creation letters, what has to be bound and the handlers that reset
/// after them.
pub(crate) fn goal(alloc: Global, case: &Case) -> Result<String, AllocError> {
    let groups = groups_of(alloc, &case.first)?;
    let (creation, rest) = case.second.split_once(' ').unwrap_or(("", ""));
    let (must_bind, resets) = rest.split_once(' ').unwrap_or(("", ""));
    let creation = creation.parse::<u32>().unwrap_or(0);
    let must_bind = must_bind.parse::<u8>().unwrap_or(0);
    let resets = resets.parse::<u16>().unwrap_or(0);
    if groups.len() > 16 {
        return String::from_str(alloc, "too many handlers");
    }
    if resets as u32 >= 1u32 << groups.len() {
        return String::from_str(alloc, "no such handler");
    }
    if resets != 0 && must_bind != 0 {
        return String::from_str(alloc, "a reset and full bindings");
    }
    goal_text(alloc, &Goal::new(groups, creation, must_bind, resets))
}

fn groups_of(alloc: Global, text: &str) -> Result<Vec<u16>, AllocError> {
    let mut groups = Vec::new(alloc);
    for word in text.split_whitespace() {
        groups.push(word.parse::<u16>().unwrap_or(0))?;
    }
    Ok(groups)
}

/// What the goal gives back.
fn goal_text(alloc: Global, goal: &Goal) -> Result<String, AllocError> {
    let mut out = format!(in alloc; "{}", goal.handlers())?;
    for handler in 0..goal.handlers() {
        let group = format!(in alloc; " {}", goal.group(handler))?;
        out.push_str(&group)?;
    }
    let bits = format!(in alloc;
        " / {} {} {}",
        goal.creation(),
        goal.must_bind(),
        goal.resets()
    )?;
    out.push_str(&bits)?;
    Ok(out)
}
