//! Tokens, and a place among them from which a reader goes on.
use jm_model::SpecError;
use jm_reading::{Cursor, Items, name_of};
use jm_text::{Token, TokenKind, is_mark, is_name, is_word, name};
use std::alloc::{AllocError, Global};
use testkit::{Case, number_of, put_line, put_word};
use testkit_tokens::{said, tokens_of};

/// The tokens of a text, each as its kind's first letter, its line and its text.
pub(crate) fn tokens_shown(alloc: Global, case: &Case) -> Result<String, SpecError> {
    let bytes = case.text.as_slice();
    let all = tokens_of(alloc, bytes)?;
    let mut out = String::new(alloc);
    for token in &all {
        let shown = token_shown(alloc, bytes, *token)?;
        put_word(&mut out, shown.as_str())?;
    }
    Ok(out)
}

fn token_shown(alloc: Global, bytes: &[u8], token: Token) -> Result<String, AllocError> {
    let letter = match token.kind {
        TokenKind::Word => 'w',
        TokenKind::Text => 't',
        TokenKind::Mark => 'm',
    };
    let line = token.line;
    let text = said(bytes, token);
    format!(in alloc; "{letter}{line}:{text}")
}

/// Of each token of a text: whether it is the first word of the case, whether it is the second as a mark, whether it is
/// a name, and which.
pub(crate) fn tells(alloc: Global, case: &Case) -> Result<String, SpecError> {
    let bytes = case.text.as_slice();
    let all = tokens_of(alloc, bytes)?;
    let mut out = String::new(alloc);
    for token in &all {
        let told = told(alloc, bytes, *token, case)?;
        put_line(&mut out, told.as_str())?;
    }
    Ok(out)
}

fn told(alloc: Global, bytes: &[u8], token: Token, case: &Case) -> Result<String, AllocError> {
    if token.start > token.end || token.end as usize > bytes.len() {
        return String::from_str(alloc, "outside");
    }
    let is_word = is_word(bytes, token, case.first.as_bytes());
    let is_mark = is_mark(bytes, token, case.second.as_bytes());
    let is_name = is_name(bytes, token);
    let name = name(bytes, token).unwrap_or("");
    format!(in alloc; "{is_word} {is_mark} {is_name} {name}")
}

/// What a cursor answers to the steps of a case, one line each. It stands before the tokens of the text, which follow a
/// token on the line that the case says.
pub(crate) fn cursor(alloc: Global, case: &Case) -> Result<String, SpecError> {
    let bytes = case.text.as_slice();
    let all = tokens_of(alloc, bytes)?;
    let line = number_of(case.first.as_str());
    let mut cursor = Cursor::new(alloc, bytes, all.as_slice(), line);
    let mut out = String::new(alloc);
    for step in case.second.split_whitespace() {
        let answer = moved(alloc, &mut cursor, step)?;
        put_line(&mut out, answer.as_str())?;
    }
    Ok(out)
}

/// What a step that reads answers.
fn moved(alloc: Global, cursor: &mut Cursor<'_>, step: &str) -> Result<String, AllocError> {
    let (verb, rest) = step.split_once(':').unwrap_or((step, ""));
    match verb {
        "name" => {
            let read = cursor.name();
            let bytes = cursor.bytes;
            let name = read.map(|token| name_of(bytes, token));
            format!(in alloc; "{name:?}")
        }
        "mark" => {
            let read = cursor.mark(rest.as_bytes());
            format!(in alloc; "{read:?}")
        }
        "word" => {
            let line = cursor.word(rest.as_bytes()).map(|token| token.line);
            format!(in alloc; "{line:?}")
        }
        _ => seen(alloc, cursor, verb, rest),
    }
}

/// What a step that only looks answers.
fn seen(alloc: Global, cursor: &Cursor<'_>, verb: &str, rest: &str) -> Result<String, AllocError> {
    match verb {
        "line" => format!(in alloc; "{}", cursor.line()),
        "left" => format!(in alloc; "{}", cursor.is_left()),
        "syntax" => format!(in alloc; "{:?}", cursor.syntax()),
        _ => format!(in alloc; "{}", is_there(cursor, verb, rest)),
    }
}

/// Whether what a step asks for stands so far on.
fn is_there(cursor: &Cursor<'_>, verb: &str, rest: &str) -> bool {
    let (place, wanted) = rest.split_once(':').unwrap_or((rest, ""));
    let place = number_of(place) as usize;
    match verb {
        "name-at" => cursor.is_name_at(place),
        "mark-at" => cursor.is_mark_at(place, wanted.as_bytes()),
        _ => cursor.is_word_at(place, wanted.as_bytes()),
    }
}

/// A list of the numbers of a case, and how many it has.
pub(crate) fn items(alloc: Global, case: &Case) -> Result<String, SpecError> {
    let mut numbers: Items<u32> = Items::new(alloc);
    for word in case.first.split_whitespace() {
        numbers.push(number_of(word))?;
    }
    let mut out = format!(in alloc; "{:?}", numbers.as_slice())?;
    let count = format!(in alloc; "{}", numbers.into_vec().len())?;
    put_line(&mut out, count.as_str())?;
    Ok(out)
}
