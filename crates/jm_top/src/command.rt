//! The commands, from the words to the status.
ghost use Rattle.std.specs.Prelude.{◌≡◌, ◌⊎◌, ℕ, map, string_bytes, None, Some, IfOk, IfErr};
ghost use Rattle.jm_port.specs.Faults.{HasRisen};
ghost use Rattle.jm_cli.specs.Words.{command_of};
ghost use Rattle.jm_cli.specs.Views.{command_words};
ghost use Rattle.jm_inputs.specs.Commands.{IsWithin};
ghost use Rattle.jm_inputs.specs.Jobs.{Job, IsJob, IsSound, IsCaused, AreTold};
ghost use Rattle.jm_top.specs.Endings.{Writes, WritesText, Ends, Reports};

use crate::job::make_text;
use crate::texts::fault_text;
use jm_cli::{Command, WordsError, read_words};
use jm_inputs::Status;
use jm_port::{Folder, PutFault, Sink, put_all};
use jm_runner::Gate;
use std::alloc::Global;
use std::sync::Wait;
use std::thread::Threads;

/// Does a command, and tells how it ended. `words` are those of the command line without the program's name.
///
/// The order of work, and of refusals, is: the words; the history that is audited, loaded; each specification in order,
/// loaded, read and compiled; each script in order, loaded and read, and then the order that they ask for, or the
/// recording, loaded, and each of its parts in order, read; their steps; the whole text; the text given to `out`; and
/// last, where the status isn't `Done`, its text given to `err`. Out of memory may end the work at any point.
///
/// At `Done` the text is that of the command's job. For `replay` and `run` it is, for each specification in order, a
/// printed history that is legal for what the specification means, and an interleaving of the scripts' steps for it, in
/// the order that the scripts ask for: what stands above a `post` comes before what stands below its waits;
/// for `sweep` such a text of `replay` for each part of the recording, in order, whatever number of threads works; for
/// `audit` whether the history is such a text of `run`, or the line after the most whole lines that one shares; for
/// `gen` the summaries of such histories over the workload's files; for `check` what the specifications declare, and
/// for `coenable` their families. A refusal is the job's first fault in the order of work. `ReadFailed` and
/// `WriteFailed` come only where the folder or the sink counted a fault. So where the job has no fault, it is told what
/// the files hold, and no fault was counted, the whole text was written, or memory was short.
pub fn jmop<R: Threads + Wait + Sync, F: Folder, S: Sink, E: Sink, G: Gate>(
    rt: &R,
    alloc: Global,
    words: &[String],
    files: &mut F,
    out: &mut S,
    err: &mut E,
    gate: &G,
) -> Status
    ensures written { Writes (map string_bytes words.now) (F.holds files.old) result (S.written out.old)
        (S.written out.new) }
    ensures caused { IsCaused (map string_bytes words.now) (F.holds files.old) result }
    ensures no_command { command_of (map string_bytes words.now) ≡ None → (result ≡ Status.Usage)
        ⊎ (result ≡ Status.NoMemory) }
    ensures read_failed { (file : ℕ) → result ≡ Status.ReadFailed file
        → HasRisen (F.faults files.old) (F.faults files.new) }
    ensures write_failed { result ≡ Status.WriteFailed → HasRisen (S.faults out.old) (S.faults out.new) }
    ensures complete { (job : Job) → AreTold (map string_bytes words.now) (F.holds files.old)
        → IsJob (map string_bytes words.now) (F.holds files.old) job → IsSound job
        → ¬ HasRisen (F.faults files.old) (F.faults files.new) → ¬ HasRisen (S.faults out.old) (S.faults out.new)
        → (result ≡ Status.Done) ⊎ (result ≡ Status.NoMemory) }
    ensures reported { Reports (Ends (map string_bytes words.now) (F.holds files.old) (F.faults files.old)
        (F.faults files.new) (S.faults out.old, S.written out.old) (S.faults out.new, S.written out.new))
        result (E.faults err.old, E.written err.old) (E.faults err.new, E.written err.new) }
{
    let status = carry_out(rt, alloc, words, files, out, gate);
    report(alloc, status, err)
}

/// Does the work of a command up to the writing of its text.
fn carry_out<R: Threads + Wait + Sync, F: Folder, S: Sink, G: Gate>(
    rt: &R,
    alloc: Global,
    words: &[String],
    files: &mut F,
    out: &mut S,
    gate: &G,
) -> Status
    ensures ends { Ends (map string_bytes words.now) (F.holds files.old) (F.faults files.old) (F.faults files.new)
        (S.faults out.old, S.written out.old) (S.faults out.new, S.written out.new) result }
    ensures no_command { command_of (map string_bytes words.now) ≡ None → (result ≡ Status.Usage)
        ⊎ (result ≡ Status.NoMemory) }
{
    let command = match read_command(alloc, words) {
        Ok(command) => command,
        Err(status) => return status,
    };
    match make_text(rt, alloc, &command, files, gate) {
        Ok(text) => write(out, text.as_slice()),
        Err(status) => status,
    }
}

/// The command that the words spell.
fn read_command(alloc: Global, words: &[String]) -> Result<Command, Status>
    ensures spelled { IfOk result (λ command. command_of (map string_bytes words.now) ≡ Some (command_words command)) }
    ensures within { IfOk result (λ command. IsWithin (command_words command)) }
    ensures err { IfErr result (λ status. ((status ≡ Status.Usage) × (command_of (map string_bytes words.now) ≡ None))
        ⊎ (status ≡ Status.NoMemory)) }
{
    match read_words(alloc, words) {
        Ok(command) => Ok(command),
        Err(WordsError::Usage) => Err(Status::Usage),
        Err(WordsError::NoMemory) => Err(Status::NoMemory),
    }
}

/// Gives the text to the sink.
fn write<S: Sink>(out: &mut S, text: &[u8]) -> Status
    ensures write_failed { result ≡ Status.WriteFailed → HasRisen (S.faults out.old) (S.faults out.new) }
    ensures written { WritesText result (S.written out.old) (S.written out.new) text.now }
{
    match put_all(out, text) {
        Ok(()) => Status::Done,
        Err(PutFault::Failed) => Status::WriteFailed,
        Err(PutFault::NoMemory) => Status::NoMemory,
    }
}

/// Tells the error sink how a command ended, if it wasn't done.
fn report<E: Sink>(alloc: Global, status: Status, err: &mut E) -> Status
    ensures done { status ≡ Status.Done → result ≡ Status.Done }
    ensures kept { (result ≡ status) ⊎ (result ≡ Status.NoMemory) }
    ensures reported { Reports (λ meant. meant ≡ status) result (E.faults err.old, E.written err.old)
        (E.faults err.new, E.written err.new) }
{
    if let Status::Done = status {
        return status;
    }
    let Ok(text) = fault_text(alloc, &status) else {
        return Status::NoMemory;
    };
    match put_all(err, &text) {
        Err(PutFault::NoMemory) => Status::NoMemory,
        _ => status,
    }
}
