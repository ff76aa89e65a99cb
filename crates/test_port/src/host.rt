//! The folder and the sinks over the system, and over a printer that is none.
use crate::port::put;
use jm_port::{Folder, HostFault, HostFolder, HostSink, Sink};
use std::alloc::{AllocError, Global};
use std::cell::Cell;
use std::fmt::Display;
use std::io::ErrorKind;
use std::{env, fs, io, process};
use testkit::{Case, put_line};
use testkit_files::files;

/// What the verbs over the system answer.
pub(crate) fn answer(
    rt: HostRuntime,
    alloc: Global,
    case: &Case,
    verb: &str,
) -> Result<String, AllocError> {
    match verb {
        "real-file" => match real_file(rt, case) {
            Ok(answer) => Ok(answer),
            Err(fault) => format!(in alloc; "{fault}"),
        },
        "output" => puts(alloc, &mut HostSink::new(rt), case),
        "error" => puts(alloc, &mut HostFault::new(rt), case),
        "printer" => over_printer(alloc, case),
        _ => String::from_str(alloc, "no such verb"),
    }
}

/// Writes the text to a real file, and loads it with each limit of the words; and again once the file is gone.
fn real_file(rt: HostRuntime, case: &Case) -> io::Result<String> {
    let alloc = rt.alloc();
    let mut path = env::temp_dir(&rt)?;
    path.push(format!(in alloc; "port_cases_{}", process::id(rt.process()))?)?;
    let name = path.as_path().as_str();
    fs::write(&rt, name, case.text.as_slice())?;
    let mut folder = HostFolder::new(rt);
    let mut answer = String::new(alloc);
    put_loads(alloc, &mut answer, &mut folder, name, case)?;
    fs::remove_file(&rt, name)?;
    put_loads(alloc, &mut answer, &mut folder, name, case)?;
    Ok(answer)
}

/// Appends what the loads of a file of the case's text answer.
fn put_loads<F: Folder>(
    alloc: Global,
    answer: &mut String,
    folder: &mut F,
    name: &str,
    case: &Case,
) -> Result<(), AllocError> {
    for word in case.first.split_whitespace() {
        let line = match folder.load(name, word.parse::<usize>().unwrap_or(0)) {
            Ok(bytes) if bytes.as_slice() == case.text.as_slice() => format!(in alloc;
                "{word} all"
            )?,
            Ok(bytes) => format!(in alloc; "{word} {} other bytes", bytes.len())?,
            Err(fault) => format!(in alloc; "{word} {fault:?}")?,
        };
        put_line(answer, line.as_str())?;
    }
    Ok(())
}

/// What the puts of the text are answered.
fn puts<S: Sink>(alloc: Global, sink: &mut S, case: &Case) -> Result<String, AllocError> {
    let mut answer = String::new(alloc);
    for step in &files(alloc, case.text.as_slice())? {
        let line = put(alloc, sink, step.0.as_str(), step.1.as_slice())?;
        put_line(&mut answer, line.as_str())?;
    }
    Ok(answer)
}

/// A printer whose calls do as the words say: `interrupted`, or write so many bytes. After the last word the pipe is
/// closed.
#[derive(Drop)]
struct Printer<'a> {
    words: &'a str,
    calls: Cell<usize>,
}

impl Print for Printer<'_> {
    fn print<D: Display + Drop>(&self, _value: D) -> io::Result<()> {
        Ok(())
    }

    fn println<D: Display + Drop>(&self, _value: D) -> io::Result<()> {
        Ok(())
    }

    fn write_all(&self, _bytes: &[u8]) -> io::Result<()> {
        Ok(())
    }

    fn write_some(&self, bytes: &[u8]) -> io::Result<usize> {
        let call = self.calls.get();
        self.calls.set(call.saturating_add(1));
        match self.words.split_whitespace().nth(call) {
            None => Err(io::Error::from(ErrorKind::BrokenPipe)),
            Some("interrupted") => Err(io::Error::from(ErrorKind::Interrupted)),
            Some(word) => Ok(word.parse::<usize>().unwrap_or(0).min(bytes.len())),
        }
    }
}

/// What the puts of the text are answered over a printer, and how often it was called.
fn over_printer(alloc: Global, case: &Case) -> Result<String, AllocError> {
    let printer = Printer {
        words: case.first.as_str(),
        calls: Cell::new(0),
    };
    let mut sink = HostSink::new(&printer);
    let mut answer = puts(alloc, &mut sink, case)?;
    let line = format!(in alloc; "{} calls", printer.calls.get())?;
    put_line(&mut answer, line.as_str())?;
    Ok(answer)
}
