//! Replaying a script.
ghost use Rattle.std.specs.Prelude.{◌≡◌, List, All, IfOk, OnOk, length};
ghost use Rattle.jm_semantics.specs.Legality.{IsLegal};
ghost use Rattle.jm_semantics.specs.Scripts.{projection_of};
ghost use Rattle.jm_machine.specs.Meanings.{rules_meaning};
ghost use Rattle.jm_model.specs.declared.step.Entry.{Entry};
ghost use Rattle.jm_core.specs.Steps.{IsFitStep};
ghost use Rattle.jm_core.specs.Replays.{Replayed};
ghost use Rattle.jm_script.specs.Projections.{script_of};
ghost use Rattle.jm_script.specs.Blocks.{steps_in};
ghost use Rattle.jm_print.specs.Texts.{IsPrintable};
ghost use Rattle.jm_inputs.specs.Reading.{named_entry, titled, specs_in, IsCatalogued, AreCounted};
ghost use Rattle.jm_sync.specs.Checks.{AreSound, sync_of};
ghost use Rattle.jm_top.specs.Histories.{lexicon, IsTextOfOrdered};
ghost use Rattle.jm_top.specs.Replays.{IsReplayOf, IsPrintedReplay};

use jm_core::Prop;
use jm_events::{EventTable, Names};
use jm_history::History;
use jm_inputs::{CompiledSpec, Scripts, SpecSet};
use jm_model::{Monitor, NoMemory};
use jm_print::render_history;
use jm_script::Block;
use std::alloc::Global;
use std::slice;

/// The printed history of the one script, replayed over the one specification. The lines of the script are let go as
/// they are done, and of the core nothing but the rules and the history is left for the printing. A script that can be
/// done in the order that it asks for has each wait below its post, so it is done line by line.
pub(crate) fn replay(
    alloc: Global,
    spec_set: SpecSet,
    scripts: Scripts,
) -> Result<Vec<u8>, NoMemory>
    requires one_spec { length spec_set.specs.items ≡ 1 }
    requires one_script { length scripts.list.items ≡ 1 }
    requires catalogued { IsCatalogued spec_set }
    requires counted { AreCounted (specs_in spec_set) scripts }
    requires sound { AreSound (sync_of scripts.cuts.items) }
    ensures { IfOk result (λ text. IsTextOfOrdered (specs_in spec_set) scripts.list.items (sync_of scripts.cuts.items)
        scripts.objects text.items) }
{
    let Scripts {
        mut list,
        objects,
        ..
    } = scripts;
    let Some(script) = list.pop() else {
        unreachable!()
    };
    let blocks = script.into_blocks()?;
    let SpecSet { mut specs, catalog } = spec_set;
    let Some(compiled) = specs.pop() else {
        unreachable!()
    };
    replay_blocks(
        alloc,
        catalog.name(0),
        catalog.table(0),
        compiled,
        blocks,
        &objects,
    )
}

/// The printed history of the lines of these blocks that are for a specification.
fn replay_blocks(
    alloc: Global,
    name: &str,
    table: &EventTable,
    compiled: CompiledSpec,
    blocks: Vec<Block>,
    objects: &Names,
) -> Result<Vec<u8>, NoMemory>
    requires steps { All (λ step. IsFitStep (rules_meaning compiled.rules.definition) (length objects.now) step.1)
        (steps_in 0 blocks.items) }
    requires printable { (h : List Entry)
        → IsReplayOf (rules_meaning compiled.rules.definition) (steps_in 0 blocks.items) h
        → All (IsPrintable (lexicon objects.now
        (titled (named_entry name.now table.now) compiled.header compiled.rules.definition))) h }
    ensures { IfOk result (λ text. IsPrintedReplay (rules_meaning compiled.rules.definition) (steps_in 0 blocks.items)
        (lexicon objects.now
        (titled (named_entry name.now table.now) compiled.header compiled.rules.definition)) text.items) }
{
    let CompiledSpec { header, rules } = compiled;
    let (rules, history) = history_of(alloc, rules, blocks, objects.len())?;
    render_history(
        alloc,
        name,
        &history,
        table,
        rules.handlers(),
        header.texts.as_slice(),
        objects,
    )
}

/// These rules, and the history of the steps in these blocks by them, which one caller does.
fn history_of<M: Monitor>(
    alloc: Global,
    rules: M,
    blocks: Vec<Block>,
    objects: u32,
) -> Result<(M, History), NoMemory>
    requires { All (λ step. IsFitStep (M.meaning (M.definition rules)) objects step.1) (steps_in 0 blocks.items) }
    ensures rules { IfOk result (λ parts. M.definition parts.0 ≡ M.definition rules) }
    ensures replayed { IfOk result (λ parts.
        IsReplayOf (M.meaning (M.definition rules)) (steps_in 0 blocks.items) parts.1) }
{
    let prop = core_after(alloc, rules, blocks, objects)?;
    Ok(prop.into_parts())
}

/// The core after the steps in these blocks, which one caller does. Each block is let go once it is done.
fn core_after<M: Monitor>(
    alloc: Global,
    rules: M,
    blocks: Vec<Block>,
    objects: u32,
) -> Result<Prop<M>, NoMemory>
    requires { All (λ step. IsFitStep (M.meaning (M.definition rules)) objects step.1) (steps_in 0 blocks.items) }
    ensures definition { IfOk result (λ prop. prop.definition ≡ M.definition rules) }
    ensures replayed { IfOk result (λ prop.
        IsReplayOf (M.meaning (M.definition rules)) (steps_in 0 blocks.items) prop.entries) }
{
    let mut prop = Prop::new(alloc, rules, objects)?;
    for block in blocks {
        replay_block(&mut prop, &block)?;
    }
    Ok(prop)
}

/// Does the steps that a block has for the one specification, line by line, as the one caller.
fn replay_block<M: Monitor>(prop: &mut Prop<M>, block: &Block) -> Result<(), NoMemory>
    requires { All (λ step. IsFitStep (M.meaning prop.old.definition) prop.old.objects step.1)
        (projection_of (script_of block.now) 0) }
    ensures replayed { OnOk result (Replayed 0 (projection_of (script_of block.now) 0) prop.old prop.new) }
    ensures legal { IsLegal (M.meaning prop.new.definition) prop.new.entries }
{
    let _history = prop.history();
    for place in 0..block.len() {
        let line = block.line(place);
        if let Some(step) = line.target.step_for(0) {
            prop.replay(0, slice::from_ref(&(line.line, step)))?;
        }
    }
    Ok(())
}
