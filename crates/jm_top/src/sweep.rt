//! Sweeping a recording: each of its parts is read, replayed and printed by itself.
ghost use Rattle.std.specs.Prelude.{◌≡◌, ◌<◌, ◌≤◌, ◌+◌, [], ◌∷◌, ◌++◌, List, All, length, map, slice_get, Some, IfOk, IfErr, OnOk};
ghost use Rattle.std.specs.List.{AllZip};
ghost use Rattle.jm_machine.specs.Meanings.{rules_meaning};
ghost use Rattle.jm_model.specs.declared.fault.ScriptFault.{ScriptFault};
ghost use Rattle.jm_model.specs.declared.step.Entry.{Entry};
ghost use Rattle.jm_print.specs.Texts.{IsPrintable};
ghost use Rattle.jm_script.specs.Fitting.{FitsCatalog};
ghost use Rattle.jm_sweep.specs.Recordings.{parts_of, span_text, LiesWithin};
ghost use Rattle.jm_sweep.specs.Sweeps.{Fits};
ghost use Rattle.jm_inputs.specs.Causes.{IsNoScriptIn, IsNoRecordingIn};
ghost use Rattle.jm_top.specs.Histories.{lexicon, IsTextOfHistories};
ghost use Rattle.jm_inputs.specs.Reading.{named_entry, titled, specs_in};
ghost use Rattle.jm_top.specs.Replays.{IsReplayOf, IsPrintedReplay};
ghost use Rattle.jm_inputs.specs.Scripts.{catalog_of, IsScriptFault};
ghost use Rattle.jm_inputs.specs.Specifications.{most_bytes};
ghost use Rattle.jm_top.specs.Sweeps.{IsOfOne, CanReplay, IsPieceOf, HasPart, IsSweptWhole};
ghost use Rattle.jm_script.specs.Meanings.{most_steps};

use jm_events::{EventTable, Names};
use jm_history::History;
use jm_inputs::{CompiledSpec, SpecSet, Status};
use jm_model::{Monitor, NoMemory, ScriptError};
use jm_print::render_history;
use jm_script::{CompactScript, read_compact};
use jm_sweep::{Part, parts, replay_part};
use rayon::prelude::*;
use std::alloc::{AllocError, Global};
use std::thread::Threads;

/// The most steps that the parts of a recording may have.
const MOST_STEPS: u32 = 200_000;

/// A part that was replayed: how many steps it has, and its printed history.
#[derive(Drop)]
pub(crate) struct Piece {
    pub steps: u32,
    pub text: Vec<u8>,
}

/// The printed histories of the parts that these bytes say, over the one specification of the spec set, one after
/// another. The parts are split among threads.
pub(crate) fn sweep<R: Threads + Sync>(
    rt: &R,
    alloc: Global,
    spec_set: &SpecSet,
    bytes: &[u8],
) -> Result<Vec<u8>, Status>
    requires spec_set { IsOfOne spec_set.now }
    requires small { length bytes.now ≤ most_bytes }
    ensures ok { IfOk result (λ text. IsSweptWhole (specs_in spec_set.now) bytes.now text.items) }
    ensures err { IfErr result (IsNoRecordingIn (specs_in spec_set.now) bytes.now) }
{
    let spans = parts(alloc, bytes)?;
    let Ok(pieces) = pieces_of(rt, alloc, spec_set, bytes, spans.as_slice()) else {
        return Err(Status::NoMemory);
    };
    put_together(alloc, spec_set, bytes, spans.as_slice(), pieces.as_slice())
}

/// The piece of each part, or why it has none. Each part is read as if no other stood before it.
fn pieces_of<R: Threads + Sync>(
    rt: &R,
    alloc: Global,
    spec_set: &SpecSet,
    bytes: &[u8],
    spans: &[(u32, u32)],
) -> Result<Vec<Result<Piece, ScriptError>>, AllocError>
    requires replayable { All (CanReplay spec_set.now bytes.now) spans.now }
    ensures { IfOk result (λ pieces. AllZip
        (λ span piece. IfOk piece (IsPieceOf (specs_in spec_set.now) 0 (span_text bytes.now span)))
        spans.now pieces.items) }
{
    spans
        .par_iter()
        .with_min_len(1)
        .map(
            |span: &(u32, u32)| -> Result<Piece, ScriptError>
                requires { CanReplay spec_set.now bytes.now span.now }
                ensures { IfOk result (IsPieceOf (specs_in spec_set.entry.now) 0 (span_text bytes.entry.now span.now)) }
            { early_piece(alloc, spec_set, bytes, *span) },
        )
        .collect(rt, alloc)
}

/// The piece of a part, as if no other stood before it.
fn early_piece(
    alloc: Global,
    spec_set: &SpecSet,
    bytes: &[u8],
    span: (u32, u32),
) -> Result<Piece, ScriptError>
    requires { CanReplay spec_set.now bytes.now span }
    ensures { IfOk result (IsPieceOf (specs_in spec_set.now) 0 (span_text bytes.now span)) }
{
    piece_of(alloc, spec_set, part_of(bytes, span), 0)
}

/// The bytes of a part.
fn part_of(bytes: &[u8], span: (u32, u32)) -> &[u8]
    requires { LiesWithin bytes.now span }
    ensures { result.now ≡ span_text bytes.now span }
{
    &bytes[span.0 as usize..span.1 as usize]
}

/// Where the part of this number begins and ends.
fn span_at(spans: &[(u32, u32)], number: usize) -> (u32, u32)
    requires { number < length spans.now }
    ensures { slice_get spans.now number ≡ Some result }
{
    spans[number]
}

/// The texts of these pieces, one after another. A part that has none, or too many steps after those before it, is read
/// again after them.
fn put_together(
    alloc: Global,
    spec_set: &SpecSet,
    bytes: &[u8],
    spans: &[(u32, u32)],
    pieces: &[Result<Piece, ScriptError>],
) -> Result<Vec<u8>, Status>
    requires spans { map (span_text bytes.now) spans.now ≡ parts_of bytes.now }
    requires bounded { length spans.now ≤ most_bytes + 1 }
    requires small { length bytes.now ≤ most_bytes }
    requires replayable { All (CanReplay spec_set.now bytes.now) spans.now }
    requires pieces { AllZip
        (λ span piece. IfOk piece (IsPieceOf (specs_in spec_set.now) 0 (span_text bytes.now span)))
        spans.now pieces.now }
    ensures ok { IfOk result (λ text. IsSweptWhole (specs_in spec_set.now) bytes.now text.items) }
    ensures err { IfErr result (IsNoRecordingIn (specs_in spec_set.now) bytes.now) }
{
    let mut text = Vec::new(alloc);
    let mut count = 0;
    for number in 0..spans.len() {
        let span = span_at(spans, number);
        let part = part_of(bytes, span);
        let piece = &pieces[number];
        count = add_part(
            alloc,
            spec_set,
            part,
            number as u32,
            count,
            piece,
            &mut text,
        )?;
    }
    Ok(text)
}

/// Adds the text of a part, which has this number and stands after a number of steps, and gives how many steps there
/// are then. After an error the text is of no use.
fn add_part(
    alloc: Global,
    spec_set: &SpecSet,
    part: &[u8],
    number: u32,
    count: u32,
    piece: &Result<Piece, ScriptError>,
    text: &mut Vec<u8>,
) -> Result<u32, Status>
    requires spec_set { IsOfOne spec_set.now }
    requires small { length part.now ≤ most_bytes }
    requires bounded { count ≤ most_steps }
    requires piece { IfOk piece.now (IsPieceOf (specs_in spec_set.now) 0 part.now) }
    ensures ok { IfOk result (HasPart (specs_in spec_set.now) count part.now text.old.items text.new.items) }
    ensures err { IfErr result (IsNoScriptIn (specs_in spec_set.now) count [] number part.now) }
{
    match piece {
        Ok(piece) if piece.steps <= MOST_STEPS - count => add_piece(count, piece, text),
        _ => match piece_after(alloc, spec_set, part, number, count) {
            Ok(piece) => add_piece(count, &piece, text),
            Err(status) => Err(status),
        },
    }
}

/// Adds the text of a piece that stands after a number of steps, and gives how many steps there are then.
fn add_piece(count: u32, piece: &Piece, text: &mut Vec<u8>) -> Result<u32, Status>
    requires { count + piece.now.steps ≤ most_steps }
    ensures value { IfOk result (λ then. then ≡ count + piece.now.steps) }
    ensures text { OnOk result (text.new.items ≡ text.old.items ++ piece.now.text.items) }
    ensures err { IfErr result (λ status. status ≡ Status.NoMemory) }
{
    match text.extend_from_slice(piece.text.as_slice()) {
        Ok(()) => Ok(count + piece.steps),
        Err(_) => Err(Status::NoMemory),
    }
}

/// The piece of a part that has this number and stands after a number of steps.
fn piece_after(
    alloc: Global,
    spec_set: &SpecSet,
    part: &[u8],
    number: u32,
    count: u32,
) -> Result<Piece, Status>
    requires spec_set { IsOfOne spec_set.now }
    requires small { length part.now ≤ most_bytes }
    requires bounded { count ≤ most_steps }
    ensures ok { IfOk result (IsPieceOf (specs_in spec_set.now) count part.now) }
    ensures bounded { IfOk result (λ piece. count + piece.steps ≤ most_steps) }
    ensures err { IfErr result (IsNoScriptIn (specs_in spec_set.now) count [] number part.now) }
{
    match piece_of(alloc, spec_set, part, count) {
        Ok(piece) => Ok(piece),
        Err(ScriptError::Bad(fault)) => {
            Err(Status::BadScript {
                script: number,
                fault,
            })
        }
        Err(ScriptError::NoMemory) => Err(Status::NoMemory),
    }
}

/// The piece of a part that stands after a number of steps.
fn piece_of(
    alloc: Global,
    spec_set: &SpecSet,
    part: &[u8],
    count: u32,
) -> Result<Piece, ScriptError>
    requires spec_set { IsOfOne spec_set.now }
    requires small { length part.now ≤ most_bytes }
    requires bounded { count ≤ most_steps }
    ensures ok { IfOk result (IsPieceOf (specs_in spec_set.now) count part.now) }
    ensures bounded { IfOk result (λ piece. count + piece.steps ≤ most_steps) }
    ensures fault { (fault : ScriptFault) → result ≡ Err (ScriptError.Bad fault)
        → IsScriptFault (specs_in spec_set.now) count [] part.now fault }
{
    let mut objects = Names::new(alloc);
    let mut then = count;
    let script = read_compact(alloc, part, &spec_set.catalog, &mut objects, &mut then)?;
    let text = replay_script(alloc, spec_set, script, &objects)?;
    Ok(Piece {
        steps: then - count,
        text,
    })
}

/// The printed history of a script, replayed over the one specification. The script is let go before the replay.
fn replay_script(
    alloc: Global,
    spec_set: &SpecSet,
    script: CompactScript,
    objects: &Names,
) -> Result<Vec<u8>, NoMemory>
    requires spec_set { IsOfOne spec_set.now }
    requires fits { FitsCatalog (catalog_of (specs_in spec_set.now)) (length objects.now) script }
    ensures { IfOk result (λ text. IsTextOfHistories (specs_in spec_set.now) (script ∷ []) objects.now text.items) }
{
    let steps = script.steps(alloc, 0)?;
    drop(script);
    let part = Part {
        objects: objects.len(),
        steps,
    };
    printed_part(
        alloc,
        spec_set.catalog.name(0),
        spec_set.catalog.table(0),
        &spec_set.specs[0],
        &part,
        objects,
    )
}

/// The printed history of the steps of a part.
fn printed_part(
    alloc: Global,
    name: &str,
    table: &EventTable,
    compiled: &CompiledSpec,
    part: &Part,
    objects: &Names,
) -> Result<Vec<u8>, NoMemory>
    requires steps { Fits (rules_meaning compiled.now.rules.definition) part.now.objects part.now.steps.items }
    requires printable { (h : List Entry)
        → IsReplayOf (rules_meaning compiled.now.rules.definition) part.now.steps.items h
        → All (IsPrintable (lexicon objects.now
        (titled (named_entry name.now table.now) compiled.now.header compiled.now.rules.definition))) h }
    ensures { IfOk result (λ text. IsPrintedReplay (rules_meaning compiled.now.rules.definition) part.now.steps.items
        (lexicon objects.now
        (titled (named_entry name.now table.now) compiled.now.header compiled.now.rules.definition)) text.items) }
{
    let history = history_of(alloc, &compiled.rules, part)?;
    render_history(
        alloc,
        name,
        &history,
        table,
        compiled.rules.handlers(),
        compiled.header.texts.as_slice(),
        objects,
    )
}

/// The history of the steps of a part.
fn history_of<M: Monitor>(alloc: Global, rules: &M, part: &Part) -> Result<History, NoMemory>
    requires { Fits (M.meaning (M.definition rules.now)) part.now.objects part.now.steps.items }
    ensures { IfOk result (λ h. IsReplayOf (M.meaning (M.definition rules.now)) part.now.steps.items h) }
{
    replay_part(alloc, rules, part)
}
