//! `jmop`: the top call over real files, standard output and standard error, with a gate that holds nobody up.
#![tactic(auto)]

ghost use Rattle.std.specs.Prelude.{◌≡◌, ◌≢◌};

use jm_port::{Folder, HostFault, HostFolder, HostSink, Sink, put_all};
use jm_runner::FreeGate;
use jm_top::{Status, fault_text, jmop};
use std::alloc::Global;
use std::io::ErrorKind;
use std::process::ExitCode;
use std::sync::Wait;
use std::thread::Threads;
use std::{env, io};

fn main(rt: HostRuntime) -> ExitCode {
    let alloc = rt.alloc();
    let mut err = HostFault::new(rt);
    let status = match words_of(&rt) {
        Ok(words) => {
            let mut files = HostFolder::new(rt);
            let mut out = HostSink::new(rt);
            run_command(&rt, alloc, &words, &mut files, &mut out, &mut err)
        }
        Err(error) => refuse(alloc, status_of(error.kind()), &mut err),
    };
    ExitCode::from(status.code())
}

/// Does what the words say, over real files. It has no clause, so that what the top call promises ends here.
fn run_command<F: Folder, S: Sink, E: Sink>(
    rt: &(impl Threads + Wait + Sync),
    alloc: Global,
    words: &[String],
    files: &mut F,
    out: &mut S,
    err: &mut E,
) -> Status {
    jmop(rt, alloc, words, files, out, err, &FreeGate)
}

/// The words of the command line without the program's name.
fn words_of(rt: &HostRuntime) -> io::Result<Vec<String>> {
    let words = env::args(rt)?.skip(1).collect(rt.alloc())?;
    Ok(words)
}

/// How the program ends where its words couldn't be had: those that can't be read spell no command.
fn status_of(kind: ErrorKind) -> Status
    ensures refused { kind ≡ ErrorKind.OutOfMemory → result ≡ Status.NoMemory }
    ensures unreadable { kind ≢ ErrorKind.OutOfMemory → result ≡ Status.Usage }
{
    match kind {
        ErrorKind::OutOfMemory => Status::NoMemory,
        _ => Status::Usage,
    }
}

/// Says on standard error how the program ends, and tells the status that it ends with.
fn refuse(alloc: Global, status: Status, err: &mut HostFault) -> Status {
    match fault_text(alloc, &status) {
        Ok(text) => {
            // As in the top call, a status stands also where its text can't be written.
            let _ = put_all(err, &text);
            status
        }
        Err(_) => Status::NoMemory,
    }
}
