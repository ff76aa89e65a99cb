//! The commands.
ghost use Rattle.std.specs.Prelude.{codes, ◌≡◌, ◌<◌, ◌⊎◌, true, length, map, string_bytes, position, Some, None, IfOk, IfNone, IsSome};
ghost use Rattle.std.specs.List.{list_all};
ghost use Rattle.std.specs.Str.{bytes_eq};
ghost use Rattle.clap.specs.Walk.{all_of, first_of, rows_of};
ghost use Rattle.clap.specs.Matches.{found_of};
ghost use Rattle.jm_cli.specs.Words.{is_name, is_audit, command_of, command_around, run_command, audit_around};
ghost use Rattle.jm_cli.specs.Line.{is_whole, found_command, replay_found, check_found, coenable_found, gen_found, sweep_found};
ghost use Rattle.jm_cli.specs.Views.{command_words, Reads};

use crate::line::{names, parse_line, parse_names, text};
use crate::words::{copy, is_each_a_name, rounds, separator};
use clap::ArgMatches;
use std::alloc::{AllocError, AllocFailed, Global};

/// What the words of a command line ask for. Names of files are as they were given, and none begins with `-`.
#[derive(Debug, Drop)]
pub enum Command {
    /// Replays a script over a specification.
    Replay {
        spec: String,
        script: String,
    },
    /// Runs scripts over specifications at once, on threads where they can be had.
    Run {
        specs: Vec<String>,
        scripts: Vec<String>,
    },
    /// Tells what specifications declare.
    Check {
        specs: Vec<String>,
    },
    /// Tells the coenable sets of specifications.
    Coenable {
        specs: Vec<String>,
    },
    /// Runs a workload of `n` rounds.
    Gen {
        n: u32,
    },
    /// Replays each part of a recording by itself over a specification.
    Sweep {
        spec: String,
        recording: String,
    },
    /// Tells whether a text is one that `run` may print.
    Audit {
        history: String,
        specs: Vec<String>,
        scripts: Vec<String>,
    },
}

/// Why words give no command.
#[derive(Clone, Copy, Debug, PartialEq, Eq)]
pub enum WordsError {
    /// They spell none.
    Usage,
    /// Memory is short.
    NoMemory,
}

impl From<AllocError> for WordsError {
    ghost use Rattle.jm_cli.specs.declared.command.WordsError.TheVariants.{NoMemory};

    ghost from_gives = { λ _ error. error ≡ NoMemory };

    fn from(_refused: AllocError) -> WordsError {
        WordsError::NoMemory
    }
}

impl<T: Drop> From<AllocFailed<T>> for WordsError {
    ghost use Rattle.jm_cli.specs.declared.command.WordsError.TheVariants.{NoMemory};

    ghost from_gives = { λ _ error. error ≡ NoMemory };

    fn from(_refused: AllocFailed<T>) -> WordsError {
        WordsError::NoMemory
    }
}

/// The command that words spell: `replay` and two names; `run`, 1 to 16 names, `--` and 1 to 16 names; `check` or
/// `coenable` and 1 to 16 names; `gen` and a number from 1 to 8000; `sweep` and two names; `audit`, a name, and such
/// names as those of `run`. A name is a word that doesn't begin with `-`, and a number has neither a sign nor a leading
/// zero.
///
/// The answer is `Usage` only where the words spell no command, and `NoMemory` where memory is short.
pub fn read_words(alloc: Global, words: &[String]) -> Result<Command, WordsError>
    ensures command { IfOk result (λ command. command_of (map string_bytes words.now) ≡ Some (command_words command)) }
    ensures usage { result ≡ Err WordsError.Usage → command_of (map string_bytes words.now) ≡ None }
    ensures refused { IfNone (command_of (map string_bytes words.now)) ((result ≡ Err WordsError.Usage)
        ⊎ (result ≡ Err WordsError.NoMemory)) }
{
    match separator(words) {
        Some(place) => read_around(alloc, &words[..place], &words[place + 1..]),
        None => read_plain(alloc, words),
    }
}

/// The command that words around a separator spell.
fn read_around(alloc: Global, before: &[String], after: &[String]) -> Result<Command, WordsError>
    ensures { Reads (command_around (map string_bytes before.now) (map string_bytes after.now)) result }
{
    if !is_each_a_name(before) || !is_each_a_name(after) {
        return Err(WordsError::Usage);
    }
    if is_audit(before) {
        return read_audit(alloc, &before[1..], after);
    }
    read_run(alloc, before, after)
}

/// Whether the first word is `audit`.
fn is_audit(words: &[String]) -> bool
    ensures value { result ≡ is_audit (map string_bytes words.now) }
    ensures some { result ≡ true → 0 < length words.now }
{
    match words.first() {
        Some(word) => word.as_str() == "audit",
        None => false,
    }
}

/// The command that the names after `audit`, around a separator, spell.
fn read_audit(alloc: Global, before: &[String], after: &[String]) -> Result<Command, WordsError>
    requires before { list_all is_name (map string_bytes before.now) ≡ true }
    requires after { list_all is_name (map string_bytes after.now) ≡ true }
    ensures { Reads (audit_around (map string_bytes before.now) (map string_bytes after.now)) result }
{
    match before.split_first() {
        Some((history, specs)) => {
            let history = copy(alloc, history.as_str())?;
            let specs = parse_names(alloc, specs)?;
            let scripts = parse_names(alloc, after)?;
            Ok(Command::Audit {
                history,
                specs,
                scripts,
            })
        }
        None => Err(WordsError::Usage),
    }
}

/// The command that names around a separator spell, where it is `run`.
fn read_run(alloc: Global, before: &[String], after: &[String]) -> Result<Command, WordsError>
    requires before { list_all is_name (map string_bytes before.now) ≡ true }
    requires after { list_all is_name (map string_bytes after.now) ≡ true }
    ensures { Reads (run_command (map string_bytes before.now) (map string_bytes after.now)) result }
{
    let line = parse_line(alloc, before)?;
    match line.subcommand_matches("run") {
        Some(found) => {
            let specs = names(alloc, found)?;
            let scripts = parse_names(alloc, after)?;
            Ok(Command::Run { specs, scripts })
        }
        None => Err(WordsError::Usage),
    }
}

/// The command that words without a separator spell.
fn read_plain(alloc: Global, words: &[String]) -> Result<Command, WordsError>
    requires { position (λ word. bytes_eq (codes "--") (string_bytes word)) words.now ≡ None }
    ensures { Reads (command_of (map string_bytes words.now)) result }
{
    if !is_each_a_name(words) {
        return Err(WordsError::Usage);
    }
    read_names(alloc, words)
}

/// The command that names spell.
fn read_names(alloc: Global, words: &[String]) -> Result<Command, WordsError>
    requires { list_all is_name (map string_bytes words.now) ≡ true }
    ensures { Reads (command_of (map string_bytes words.now)) result }
{
    let line = parse_line(alloc, words)?;
    match line.subcommand() {
        Some((name, found)) => read_found(alloc, name, found),
        None => unreachable!(),
    }
}

/// The command of which clap found the values.
fn read_found(alloc: Global, name: &str, found: &ArgMatches<'_>) -> Result<Command, WordsError>
    requires { is_whole name.now (rows_of (found_of found.now)) ≡ true }
    ensures { Reads (found_command name.now (rows_of (found_of found.now))) result }
{
    match name {
        "replay" => replay(alloc, found),
        "check" => check(alloc, found),
        "coenable" => coenable(alloc, found),
        "gen" => generate(found),
        "sweep" => sweep(alloc, found),
        _ => Err(WordsError::Usage),
    }
}

fn replay(alloc: Global, found: &ArgMatches<'_>) -> Result<Command, WordsError>
    requires first { IsSome (first_of (codes "first") (rows_of (found_of found.now))) }
    requires second { IsSome (first_of (codes "second") (rows_of (found_of found.now))) }
    ensures { Reads (replay_found (rows_of (found_of found.now))) result }
{
    let spec = copy(alloc, text(found, "first"))?;
    let script = copy(alloc, text(found, "second"))?;
    Ok(Command::Replay { spec, script })
}

fn check(alloc: Global, found: &ArgMatches<'_>) -> Result<Command, WordsError>
    requires { IsSome (all_of (codes "names") (rows_of (found_of found.now))) }
    ensures { Reads (check_found (rows_of (found_of found.now))) result }
{
    let specs = names(alloc, found)?;
    Ok(Command::Check { specs })
}

fn coenable(alloc: Global, found: &ArgMatches<'_>) -> Result<Command, WordsError>
    requires { IsSome (all_of (codes "names") (rows_of (found_of found.now))) }
    ensures { Reads (coenable_found (rows_of (found_of found.now))) result }
{
    let specs = names(alloc, found)?;
    Ok(Command::Coenable { specs })
}

fn generate(found: &ArgMatches<'_>) -> Result<Command, WordsError>
    requires { IsSome (first_of (codes "n") (rows_of (found_of found.now))) }
    ensures { Reads (gen_found (rows_of (found_of found.now))) result }
{
    match rounds(text(found, "n")) {
        Some(n) => Ok(Command::Gen { n }),
        None => Err(WordsError::Usage),
    }
}

fn sweep(alloc: Global, found: &ArgMatches<'_>) -> Result<Command, WordsError>
    requires first { IsSome (first_of (codes "first") (rows_of (found_of found.now))) }
    requires second { IsSome (first_of (codes "second") (rows_of (found_of found.now))) }
    ensures { Reads (sweep_found (rows_of (found_of found.now))) result }
{
    let spec = copy(alloc, text(found, "first"))?;
    let recording = copy(alloc, text(found, "second"))?;
    Ok(Command::Sweep { spec, recording })
}
