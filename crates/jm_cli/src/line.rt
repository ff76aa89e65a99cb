//! The command line, as clap is told of it and reads it.
ghost use Rattle.std.specs.Prelude.{codes, ◌≡◌, ◌≢◌, ◌⊎◌, true, false, map, string_bytes, [], Some, IfOk, IfErr, IsOkUnless, IsSome};
ghost use Rattle.std.specs.List.{list_all};
ghost use Rattle.clap.specs.Walk.{rule_of, all_of, first_of, rows_of};
ghost use Rattle.clap.specs.Simple.{app_of, HasMatchesOf, subcommand_of, subcommand_rows_of};
ghost use Rattle.clap.specs.Faults.{fault_of, is_simple_and_free};
ghost use Rattle.clap.specs.Matches.{found_of};
ghost use Rattle.clap.specs.Values.{kind_of};
ghost use Rattle.jm_cli.specs.Words.{is_name, are_names};
ghost use Rattle.jm_cli.specs.Line.{value_rule, names_rule, names_shape, pair_shape, gen_shape, line_app, alone, Makes};

use crate::command::WordsError;
use crate::words::copy;
use clap::error::ErrorKind;
use clap::{Arg, ArgMatches, Command};
use std::alloc::{AllocError, Global};

/// One value, which has to be there.
fn value<'a>(alloc: Global, id: &'a str) -> Arg<'a>
    ensures rule { rule_of result ≡ value_rule id.now }
    ensures local { result.global ≡ false }
{
    Arg::new(alloc, id).required(true)
}

/// 1 to 16 names.
fn names_value<'a>(alloc: Global) -> Arg<'a>
    ensures rule { rule_of result ≡ names_rule }
    ensures local { result.global ≡ false }
{
    value(alloc, "names").num_args(1..=16)
}

/// A command of 1 to 16 names. What it says of the program's name and of help holds where it stands by itself.
fn names_command<'a>(alloc: Global, name: &'a str) -> Result<Command<'a>, AllocError>
    ensures { IfOk result (Makes (names_shape name.now)) }
{
    Command::new(alloc, name)
        .no_binary_name(true)
        .disable_help_flag(true)
        .arg(names_value(alloc))
}

/// A command of two names.
fn pair_command<'a>(alloc: Global, name: &'a str) -> Result<Command<'a>, AllocError>
    ensures { IfOk result (Makes (pair_shape name.now)) }
{
    let command = Command::new(alloc, name).arg(value(alloc, "first"))?;
    command.arg(value(alloc, "second"))
}

fn gen_command<'a>(alloc: Global) -> Result<Command<'a>, AllocError>
    ensures { IfOk result (Makes gen_shape) }
{
    Command::new(alloc, "gen").arg(value(alloc, "n"))
}

/// The whole command line.
fn line_command<'a>(alloc: Global) -> Result<Command<'a>, AllocError>
    ensures { IfOk result (λ command. app_of command ≡ line_app) }
{
    let line = Command::new(alloc, "jmop")
        .no_binary_name(true)
        .disable_help_flag(true)
        .disable_help_subcommand(true)
        .subcommand_required(true);
    let line = line.subcommand(pair_command(alloc, "replay")?)?;
    let line = line.subcommand(names_command(alloc, "run")?)?;
    let line = line.subcommand(names_command(alloc, "check")?)?;
    let line = line.subcommand(names_command(alloc, "coenable")?)?;
    let line = line.subcommand(gen_command(alloc)?)?;
    line.subcommand(pair_command(alloc, "sweep")?)
}

/// How clap's error is told.
fn refusal(error: &clap::Error) -> WordsError
    ensures short { kind_of error.now ≡ ErrorKind.OutOfMemory → result ≡ WordsError.NoMemory }
    ensures other { kind_of error.now ≢ ErrorKind.OutOfMemory → result ≡ WordsError.Usage }
{
    match error.kind() {
        ErrorKind::OutOfMemory => WordsError::NoMemory,
        _ => WordsError::Usage,
    }
}

/// What clap finds in the words.
fn parse<'a>(command: Command<'a>, words: &'a [String]) -> Result<ArgMatches<'a>, WordsError>
    requires { is_simple_and_free (app_of command) ≡ true }
    ensures taken { IfOk result (λ found. fault_of (app_of command.entry) (map string_bytes words.now) ≡ []) }
    ensures found { IfOk result (HasMatchesOf (app_of command.entry) (map string_bytes words.now)) }
    ensures refused { IfErr result (λ error. (error ≡ WordsError.NoMemory)
        ⊎ ((error ≡ WordsError.Usage) × (fault_of (app_of command.entry) (map string_bytes words.now) ≢ []))) }
{
    match command.try_get_matches_from(words) {
        Ok(found) => Ok(found),
        Err(error) => Err(refusal(&error)),
    }
}

/// What clap finds in the words of a command line.
pub(crate) fn parse_line<'a>(
    alloc: Global,
    words: &'a [String],
) -> Result<ArgMatches<'a>, WordsError>
    ensures taken { IfOk result (λ found. fault_of line_app (map string_bytes words.now) ≡ []) }
    ensures found { IfOk result (λ found. subcommand_rows_of found
        ≡ subcommand_of line_app (map string_bytes words.now)) }
    ensures refused { IfErr result (λ error. (error ≡ WordsError.NoMemory)
        ⊎ ((error ≡ WordsError.Usage) × (fault_of line_app (map string_bytes words.now) ≢ []))) }
{
    parse(line_command(alloc)?, words)
}

/// The 1 to 16 names that words are of which none begins with `-`.
pub(crate) fn parse_names(alloc: Global, words: &[String]) -> Result<Vec<String>, WordsError>
    requires { list_all is_name (map string_bytes words.now) ≡ true }
    ensures ok { IfOk result (λ names. map string_bytes names.items ≡ map string_bytes words.now) }
    ensures taken { IfOk result (λ names. are_names (map string_bytes words.now) ≡ true) }
    ensures refused { IfErr result (λ error. (error ≡ WordsError.NoMemory)
        ⊎ ((error ≡ WordsError.Usage) × (are_names (map string_bytes words.now) ≡ false))) }
{
    let found = parse(names_command(alloc, "names")?, words)?;
    names(alloc, &found)
}

/// The names that clap found.
pub(crate) fn names(alloc: Global, found: &ArgMatches<'_>) -> Result<Vec<String>, WordsError>
    requires { IsSome (all_of (codes "names") (rows_of (found_of found.now))) }
    ensures ok { IfOk result (λ names. all_of (codes "names") (rows_of (found_of found.now))
        ≡ Some (map string_bytes names.items)) }
    ensures err { IsOkUnless result WordsError.NoMemory }
{
    match found.get_strs("names") {
        Some(names) => copies(alloc, names),
        None => unreachable!(),
    }
}

/// The text that clap found by an id.
pub(crate) fn text<'a>(found: &ArgMatches<'a>, id: &str) -> &'a str
    requires { IsSome (first_of id.now (rows_of (found_of found.now))) }
    ensures { first_of id.now (rows_of (found_of found.now)) ≡ Some result.now }
{
    match found.get_str(id) {
        Some(text) => text,
        None => unreachable!(),
    }
}

/// The texts, as strings.
fn copies(alloc: Global, texts: &[&str]) -> Result<Vec<String>, WordsError>
    ensures ok { IfOk result (λ copies. map string_bytes copies.items ≡ map (λ text. text.now) texts.now) }
    ensures err { IsOkUnless result WordsError.NoMemory }
{
    let mut copies = Vec::new(alloc);
    for text in texts {
        copies.push(copy(alloc, text)?)?;
    }
    Ok(copies)
}
