//! Auditing a history.
ghost use Rattle.std.specs.Prelude.{◌≡◌, ◌≤◌, length, IfOk};
ghost use Rattle.jm_audit.specs.Verdicts.{IsVerdict};
ghost use Rattle.jm_inputs.specs.Reading.{specs_in, IsCatalogued, AreCounted};
ghost use Rattle.jm_top.specs.Histories.{IsTextOfHistories};
ghost use Rattle.jm_top.specs.Texts.{verdict_text, IsTextOfVerdict};
ghost use Rattle.jm_script.specs.Catalogs.{most_specs, most_scripts};

use jm_audit::{Sheet, Verdict, audit};
use jm_inputs::Inputs;
use jm_model::NoMemory;
use std::alloc::Global;

/// What is said of a history, over the specifications and the scripts that were read.
pub(crate) fn verdict_on(
    alloc: Global,
    inputs: &Inputs,
    history: &[u8],
) -> Result<Vec<u8>, NoMemory>
    requires specs { length inputs.now.spec_set.specs.items ≤ most_specs }
    requires scripts { length inputs.now.scripts.list.items ≤ most_scripts }
    requires catalogued { IsCatalogued inputs.now.spec_set }
    requires counted { AreCounted (specs_in inputs.now.spec_set) inputs.now.scripts }
    ensures { IfOk result (λ text. IsTextOfVerdict (specs_in inputs.now.spec_set) inputs.now.scripts.list.items
        inputs.now.scripts.objects history.now text.items) }
{
    let verdict = verdict(alloc, inputs, history)?;
    said(alloc, verdict)
}

/// The verdict on a history.
fn verdict(alloc: Global, inputs: &Inputs, history: &[u8]) -> Result<Verdict, NoMemory>
    requires specs { length inputs.now.spec_set.specs.items ≤ most_specs }
    requires scripts { length inputs.now.scripts.list.items ≤ most_scripts }
    requires catalogued { IsCatalogued inputs.now.spec_set }
    requires counted { AreCounted (specs_in inputs.now.spec_set) inputs.now.scripts }
    ensures { IfOk result (IsVerdict (IsTextOfHistories (specs_in inputs.now.spec_set) inputs.now.scripts.list.items
        inputs.now.scripts.objects) history.now) }
{
    let spec_set = &inputs.spec_set;
    let scripts = &inputs.scripts;
    let mut sheets = Vec::new(alloc);
    for number in 0..spec_set.catalog.len() {
        let compiled = &spec_set.specs[number as usize];
        sheets.push(Sheet {
            rules: &compiled.rules,
            name: spec_set.catalog.name(number),
            table: spec_set.catalog.table(number),
            categories: compiled.rules.handlers(),
            handlers: compiled.header.texts.as_slice(),
        })?;
    }
    audit(
        alloc,
        sheets.as_slice(),
        scripts.list.as_slice(),
        &scripts.objects,
        history,
    )
}

/// What is said of a verdict.
fn said(alloc: Global, verdict: Verdict) -> Result<Vec<u8>, NoMemory>
    ensures { IfOk result (λ text. text.items ≡ verdict_text verdict) }
{
    let text = match verdict {
        Verdict::Yes => format!(in alloc; "yes\n")?,
        Verdict::No { line } => format!(in alloc; "no, line {line}\n")?,
    };
    Ok(text.into_bytes())
}
