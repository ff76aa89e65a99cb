//! Scripts that are read over a catalog, one after another, and what they come to for a specification.
use crate::catalog::catalog_of;
use jm_events::Names;
use jm_model::{Binding, ScriptError, SpecError, Step};
use jm_script::{Catalog, Script, Target, project, read_script};
use std::alloc::{AllocError, Global};
use testkit::Case;

/// How many specifications the catalog has, and the name of each with the number of its events.
pub(crate) fn catalog(alloc: Global, case: &Case) -> Result<String, SpecError> {
    let catalog = catalog_of(alloc, case.first.as_str())?;
    let mut out = format!(in alloc; "{}", catalog.len())?;
    for spec in 0..catalog.len() {
        let events = catalog.table(spec).letters();
        let one = format!(in alloc; " {} {events}", catalog.name(spec))?;
        out.push_str(one.as_str())?;
    }
    Ok(out)
}

/// The steps of each script, or its fault, and how many names and steps there are then; then all names. A `|` stands
/// between two scripts, and a `;` for a line feed.
pub(crate) fn script(alloc: Global, case: &Case) -> Result<String, SpecError> {
    let mut names = Names::new(alloc);
    let mut out = read_all(alloc, case, &mut names, true)?;
    for number in 0..names.len() {
        out.push(' ')?;
        out.push_str(names.name(number))?;
    }
    Ok(out)
}

/// What is printed without the steps and the names.
pub(crate) fn ending(alloc: Global, case: &Case) -> Result<String, SpecError> {
    let mut names = Names::new(alloc);
    read_all(alloc, case, &mut names, false)
}

fn read_all(
    alloc: Global,
    case: &Case,
    names: &mut Names,
    whole: bool,
) -> Result<String, SpecError> {
    let catalog = catalog_of(alloc, case.first.as_str())?;
    let mut count = 0;
    let mut out = String::new(alloc);
    let text = with_line_feeds(alloc, case.text.as_slice())?;
    for bytes in text.split(|byte| *byte == b'|') {
        let script = read(alloc, bytes, &catalog, names, &mut count);
        let told = told(alloc, script, whole)?;
        put(alloc, &mut out, told.as_str(), names.len(), count)?;
    }
    Ok(out)
}

pub(crate) fn with_line_feeds(alloc: Global, text: &[u8]) -> Result<Vec<u8>, AllocError> {
    let mut out = Vec::new(alloc);
    for byte in text {
        out.push(resolved(*byte))?;
    }
    Ok(out)
}

fn resolved(byte: u8) -> u8 {
    if byte == b';' { b'\n' } else { byte }
}

fn put(
    alloc: Global,
    out: &mut String,
    told: &str,
    names: u32,
    count: u32,
) -> Result<(), AllocError> {
    if !out.is_empty() {
        out.push('\n')?;
    }
    let line = format!(in alloc; "{told} {names} {count}")?;
    out.push_str(line.as_str())
}

fn read(
    alloc: Global,
    bytes: &[u8],
    catalog: &Catalog,
    names: &mut Names,
    count: &mut u32,
) -> Result<Script, ScriptError> {
    if bytes.len() > 4_000_000 || *count > 200_000 || names.len() > 65_536 {
        return Err(ScriptError::NoMemory);
    }
    read_script(alloc, bytes, catalog, names, count)
}

fn told(
    alloc: Global,
    script: Result<Script, ScriptError>,
    whole: bool,
) -> Result<String, AllocError> {
    match script {
        Err(fault) => format!(in alloc; "{fault:?}"),
        Ok(script) if whole => shown(alloc, &script),
        Ok(_) => String::from_str(alloc, "read"),
    }
}

/// The steps of a script.
fn shown(alloc: Global, script: &Script) -> Result<String, AllocError> {
    let mut out = String::new(alloc);
    for line in script.lines() {
        let target = target_shown(alloc, &line.target)?;
        let one = format!(in alloc; "{}:{target};", line.line)?;
        out.push_str(one.as_str())?;
    }
    Ok(out)
}

pub(crate) fn target_shown(alloc: Global, target: &Target) -> Result<String, AllocError> {
    match target {
        Target::Event {
            spec,
            letter,
            binding,
        } => {
            let objects = bound(alloc, binding)?;
            format!(in alloc; "{spec}.{}{objects}", letter.0)
        }
        Target::Death { object } => format!(in alloc; "death {object}"),
        Target::Pass { spec } => format!(in alloc; "pass {spec}"),
    }
}

/// The pairs of a binding.
fn bound(alloc: Global, binding: &Binding) -> Result<String, AllocError> {
    let mut out = String::new(alloc);
    for p in 0..8 {
        if let Some(object) = binding.get(p) {
            let one = format!(in alloc; " {p}={object}")?;
            out.push_str(one.as_str())?;
        }
    }
    Ok(out)
}

/// The steps of a script that are for a specification.
pub(crate) fn projected(alloc: Global, case: &Case) -> Result<String, SpecError> {
    let catalog = catalog_of(alloc, case.first.as_str())?;
    let spec = case.second.parse::<u8>().unwrap_or(255);
    let mut names = Names::new(alloc);
    let mut count = 0;
    let bytes = case.text.as_slice();
    match read(alloc, bytes, &catalog, &mut names, &mut count) {
        Ok(script) => Ok(steps_shown(alloc, &project(alloc, &script, spec)?)?),
        Err(fault) => Ok(format!(in alloc; "{fault:?}")?),
    }
}

pub(crate) fn steps_shown(alloc: Global, steps: &[(u32, Step)]) -> Result<String, AllocError> {
    let mut out = String::new(alloc);
    for (line, step) in steps {
        let step = step_shown(alloc, step)?;
        let one = format!(in alloc; "{line}:{step};")?;
        out.push_str(one.as_str())?;
    }
    Ok(out)
}

fn step_shown(alloc: Global, step: &Step) -> Result<String, AllocError> {
    match step {
        Step::Event { letter, binding } => {
            let objects = bound(alloc, binding)?;
            format!(in alloc; "{}{objects}", letter.0)
        }
        Step::Death { object } => format!(in alloc; "death {object}"),
        Step::Pass => String::from_str(alloc, "pass"),
    }
}
