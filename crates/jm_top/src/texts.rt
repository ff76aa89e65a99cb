//! What the program says of a command that wasn't done.
ghost use Rattle.std.specs.Prelude.{◌≡◌, ℕ, Option, IfOk};
ghost use Rattle.jm_top.specs.FaultTexts.{counted_words, spec_words, spec_line, script_words, script_line, fault_line, unreadable_line, fault_text_of};

use jm_inputs::Status;
use jm_model::{Counted, NoMemory, ScriptFault, SpecFault};
use std::alloc::Global;

const USAGE: &str = "usage: jmop replay SPEC SCRIPT
       jmop run SPEC.. -- SCRIPT..
       jmop check SPEC..
       jmop coenable SPEC..
       jmop gen N
       jmop sweep SPEC RECORDING
       jmop audit HISTORY SPEC.. -- SCRIPT..
";

/// The text for the error sink: nothing for `Done`, the commands for `Usage`, and else one line.
pub fn fault_text(alloc: Global, status: &Status) -> Result<Vec<u8>, NoMemory>
    ensures { IfOk result (λ text. text.items ≡ fault_text_of status.now) }
{
    match status {
        Status::Done => Ok(Vec::new(alloc)),
        Status::Usage => bytes_of(alloc, USAGE),
        Status::BadSpec { file, fault } => {
            line_of(
                alloc,
                "specification",
                *file,
                spec_line(fault),
                spec_words(fault),
            )
        }
        Status::BadScript { script, fault } => {
            line_of(
                alloc,
                "script",
                *script,
                script_line(fault),
                script_words(fault),
            )
        }
        Status::ReadFailed { file } => unreadable(alloc, *file),
        Status::WriteFailed => bytes_of(alloc, "jmop: the output cannot be written\n"),
        Status::NoMemory => bytes_of(alloc, "jmop: no memory\n"),
        Status::BadHistory => bytes_of(alloc, "jmop: the history is too long\n"),
    }
}

fn bytes_of(alloc: Global, text: &str) -> Result<Vec<u8>, NoMemory>
    ensures { IfOk result (λ v. v.items ≡ text.now) }
{
    Ok(Vec::from_slice(alloc, text.as_bytes())?)
}

/// The line on a file that couldn't be read.
fn unreadable(alloc: Global, file: u32) -> Result<Vec<u8>, NoMemory>
    ensures { IfOk result (λ v. v.items ≡ unreadable_line file) }
{
    let number = u64::from(file) + 1;
    let text = format!(in alloc; "jmop: file {number} cannot be read\n")?;
    Ok(text.into_bytes())
}

/// The line on a fault: what kind of file has it, its number from 0, the line in it and what the fault is called.
fn line_of(
    alloc: Global,
    kind: &str,
    number: u32,
    line: Option<u32>,
    words: &str,
) -> Result<Vec<u8>, NoMemory>
    ensures { IfOk result (λ v. v.items ≡ fault_line kind.now number line words.now) }
{
    let number = u64::from(number) + 1;
    let text = match line {
        Some(line) => format!(in alloc; "jmop: {kind} {number}, line {line}: {words}\n")?,
        None => format!(in alloc; "jmop: {kind} {number}: {words}\n")?,
    };
    Ok(text.into_bytes())
}

fn counted_words(what: &Counted) -> &'static str
    ensures { result.now ≡ counted_words what.now }
{
    match what {
        Counted::Parameters => "too many parameters",
        Counted::Events => "too many events",
        Counted::Handlers => "too many handlers",
        Counted::Aliases => "too many aliases",
        Counted::Nodes => "too many nodes",
        Counted::Nesting => "too many nesting",
        Counted::Term => "too many term",
        Counted::Subformulas => "too many subformulas",
        Counted::Nonterminals => "too many nonterminals",
        Counted::Productions => "too many productions",
        Counted::Symbols => "too many symbols",
        Counted::Properties => "too many properties",
    }
}

fn spec_words(fault: &SpecFault) -> &'static str
    ensures { result.now ≡ spec_words fault.now }
{
    match fault {
        SpecFault::TooLong => "too long",
        SpecFault::NotUtf8 => "not UTF-8",
        SpecFault::OpenText { .. } => "open text",
        SpecFault::Syntax { .. } => "syntax",
        SpecFault::UnsupportedModifier { .. } => "unsupported modifier",
        SpecFault::UnsupportedAdvice { .. } => "unsupported advice",
        SpecFault::NoProperty => "no property",
        SpecFault::UnsupportedLogic { .. } => "unsupported logic",
        SpecFault::DuplicateParameter { .. } => "duplicate parameter",
        SpecFault::DuplicateEvent { .. } => "duplicate event",
        SpecFault::DuplicateState { .. } => "duplicate state",
        SpecFault::DuplicateTransition { .. } => "duplicate transition",
        SpecFault::DuplicateHandler { .. } => "duplicate handler",
        SpecFault::UnknownName { .. } => "unknown name",
        SpecFault::UnknownCategory { .. } => "unknown category",
        SpecFault::NameClash { .. } => "name clash",
        SpecFault::ReservedName { .. } => "reserved name",
        SpecFault::ResetWithFullBinding { .. } => "reset with full binding",
        SpecFault::UnsupportedSuffix { .. } => "unsupported suffix",
        SpecFault::TooMany { what } => counted_words(what),
        SpecFault::TooManyStates => "too many states",
        SpecFault::DuplicateSpec => "duplicate specification",
    }
}

fn spec_line(fault: &SpecFault) -> Option<u32>
    ensures { result ≡ spec_line fault.now }
{
    match fault {
        SpecFault::OpenText { line }
        | SpecFault::Syntax { line }
        | SpecFault::UnsupportedModifier { line }
        | SpecFault::UnsupportedAdvice { line }
        | SpecFault::UnsupportedLogic { line }
        | SpecFault::DuplicateParameter { line }
        | SpecFault::DuplicateEvent { line }
        | SpecFault::DuplicateState { line }
        | SpecFault::DuplicateTransition { line }
        | SpecFault::DuplicateHandler { line }
        | SpecFault::UnknownName { line }
        | SpecFault::UnknownCategory { line }
        | SpecFault::NameClash { line }
        | SpecFault::ReservedName { line }
        | SpecFault::ResetWithFullBinding { line }
        | SpecFault::UnsupportedSuffix { line } => Some(*line),
        _ => None,
    }
}

fn script_words(fault: &ScriptFault) -> &'static str
    ensures { result.now ≡ script_words fault.now }
{
    match fault {
        ScriptFault::TooLong => "too long",
        ScriptFault::BadLine { .. } => "bad line",
        ScriptFault::UnknownSpec { .. } => "unknown specification",
        ScriptFault::UnknownEvent { .. } => "unknown event",
        ScriptFault::WrongCount { .. } => "wrong count",
        ScriptFault::TooManyObjects { .. } => "too many objects",
        ScriptFault::TooManyLines { .. } => "too many lines",
        ScriptFault::TooManyNotes { .. } => "too many notes",
        ScriptFault::DuplicatePost { .. } => "duplicate post",
        ScriptFault::Stuck { .. } => "stuck",
    }
}

/// The line of a fault of a script, if it has one.
pub(crate) fn script_line(fault: &ScriptFault) -> Option<u32>
    ensures { result ≡ script_line fault.now }
{
    match fault {
        ScriptFault::BadLine { line }
        | ScriptFault::UnknownSpec { line }
        | ScriptFault::UnknownEvent { line }
        | ScriptFault::WrongCount { line }
        | ScriptFault::TooManyObjects { line }
        | ScriptFault::TooManyLines { line }
        | ScriptFault::TooManyNotes { line }
        | ScriptFault::DuplicatePost { line }
        | ScriptFault::Stuck { line } => Some(*line),
        _ => None,
    }
}
