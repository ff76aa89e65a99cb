//! The verdict on a text.
ghost use Rattle.std.specs.Prelude.{◌≡◌, ◌<◌, ◌≤◌, length};
ghost use Rattle.jm_inputs.specs.Reading.{specs_in, IsCatalogued, AreCounted};

use jm_audit::{Sheet, Verdict, audit};
use jm_inputs::Inputs;
use jm_model::NoMemory;
use std::alloc::Global;

/// The verdict on a text, over the specifications and the scripts that were read.
pub(crate) fn verdict(alloc: Global, inputs: &Inputs, text: &[u8]) -> Result<Verdict, NoMemory>
    requires catalogued { IsCatalogued inputs.now.spec_set }
    requires counted { AreCounted (specs_in inputs.now.spec_set) inputs.now.scripts }
{
    let spec_set = &inputs.spec_set;
    let scripts = &inputs.scripts;
    if scripts.list.len() > 16 {
        return Err(NoMemory);
    }
    let mut sheets = Vec::new(alloc);
    for number in 0..spec_set.catalog.len() {
        let compiled = &spec_set.specs[number as usize];
        sheets.push(Sheet {
            rules: &compiled.rules,
            name: spec_set.catalog.name(number),
            table: spec_set.catalog.table(number),
            categories: compiled.rules.handlers(),
            handlers: compiled.header.texts.as_slice(),
        })?;
    }
    audit(
        alloc,
        sheets.as_slice(),
        scripts.list.as_slice(),
        &scripts.objects,
        text,
    )
}
