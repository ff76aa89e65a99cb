use jm_cli::{Command, WordsError, read_words};
use std::alloc::{AllocError, Global};
use testkit::{Case, put_word, text_of};

/// What the case's verb answers.
pub(crate) fn answer(alloc: Global, case: &Case) -> Result<String, AllocError> {
    match case.verb.as_str() {
        "words" => spelled(alloc, case),
        _ => laws(alloc),
    }
}

/// Names the law, which is proved.
fn laws(alloc: Global) -> Result<String, AllocError> {
    jm_cli::words_spell_what_the_table_says();
    String::from_str(alloc, "one law")
}

/// What the words of a case spell, one on each line.
fn spelled(alloc: Global, case: &Case) -> Result<String, AllocError> {
    let mut words = Vec::new(alloc);
    for line in text_of(case.text.as_slice()).lines() {
        words.push(String::from_str(alloc, line)?)?;
    }
    match read_words(alloc, words.as_slice()) {
        Ok(command) => told(alloc, &command),
        Err(WordsError::Usage) => String::from_str(alloc, "usage"),
        Err(WordsError::NoMemory) => String::from_str(alloc, "out of memory"),
    }
}

/// The command with its names.
fn told(alloc: Global, command: &Command) -> Result<String, AllocError> {
    let mut out = String::new(alloc);
    match command {
        Command::Replay { spec, script } => {
            put_word(&mut out, "replay")?;
            put_word(&mut out, spec.as_str())?;
            put_word(&mut out, script.as_str())?;
        }
        Command::Run { specs, scripts } => {
            put_word(&mut out, "run")?;
            put_names(&mut out, specs.as_slice())?;
            put_word(&mut out, "over")?;
            put_names(&mut out, scripts.as_slice())?;
        }
        Command::Check { specs } => {
            put_word(&mut out, "check")?;
            put_names(&mut out, specs.as_slice())?;
        }
        Command::Coenable { specs } => {
            put_word(&mut out, "coenable")?;
            put_names(&mut out, specs.as_slice())?;
        }
        Command::Sweep { spec, recording } => {
            put_word(&mut out, "sweep")?;
            put_word(&mut out, spec.as_str())?;
            put_word(&mut out, recording.as_str())?;
        }
        Command::Audit {
            history,
            specs,
            scripts,
        } => {
            put_word(&mut out, "audit")?;
            put_word(&mut out, history.as_str())?;
            put_word(&mut out, "with")?;
            put_names(&mut out, specs.as_slice())?;
            put_word(&mut out, "over")?;
            put_names(&mut out, scripts.as_slice())?;
        }
        Command::Gen { n } => return format!(in alloc; "gen {n}"),
    }
    Ok(out)
}

fn put_names(out: &mut String, names: &[String]) -> Result<(), AllocError> {
    for name in names {
        put_word(out, name.as_str())?;
    }
    Ok(())
}
