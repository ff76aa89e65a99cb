//! The lines of a script that ask for order are taken out.
ghost use Rattle.std.specs.Prelude.{◌≡◌, ◌<◌, ◌≤◌, ◌-◌, ◌^◌, ◌++◌, All, IfOk, IfSome, IsTrue, MatchResult, OnOk, OnErr, length, map, option_map};
ghost use Rattle.jm_lines.specs.Lines.{words_of};
ghost use Rattle.jm_lines.specs.Objects.{is_object};
ghost use Rattle.jm_sync.specs.Cuts.{IsExtension, RisesFrom, kind_of, names_after, names_with, number_for, numbered, request_of, rest_of, rest_of_line, sync_lines_of, words_request};
ghost use Rattle.jm_events.specs.Names.{with_name};

use crate::line::{Cut, SyncKind, SyncLine};
use jm_events::Names;
use jm_lines::{behind_line, first_words, is_object, is_word, text};
use jm_model::NoMemory;
use std::alloc::Global;

/// Takes the lines `post OBJECT` and `wait OBJECT` out of a script, and adds their new names. An empty line stays in
/// the place of each, so that all other lines keep their numbers. Blanks, a comment and a carriage return at the end of
/// a line are as in other lines. After NoMemory the names may have new ones at their end.
pub fn cut(alloc: Global, bytes: &[u8], names: &mut Names) -> Result<Cut, NoMemory>
    requires small { length bytes.now < 2 ^ 32 - 1 }
    requires bounded { length (names_after names.old bytes.now) < 2 ^ 32 }
    ensures rest { IfOk result (λ cut. cut.rest.items ≡ rest_of bytes.now) }
    ensures shorter { IfOk result (λ cut. length cut.rest.items ≤ length bytes.now) }
    ensures lines { IfOk result (λ cut. cut.lines.items ≡ sync_lines_of names.old bytes.now) }
    ensures rising { IfOk result (λ cut. RisesFrom 1 cut.lines.items) }
    ensures named { IfOk result (λ cut. All (λ l. l.name < length names.new) cut.lines.items) }
    ensures ok { MatchResult result (λ _. names.new ≡ names_after names.old bytes.now)
        (λ _. IsExtension names.old names.new) }
{
    let mut cut = Cut {
        rest: Vec::with_capacity(alloc, bytes.len())?,
        lines: Vec::new(alloc),
    };
    let mut words = Vec::new(alloc);
    let mut number = 0;
    let mut left = Some(bytes);
    while let Some(text) = left {
        number += 1;
        let end = first_words(text, &mut words)?;
        left = behind_line(text, end);
        cut_line(&text[..end], &words, number, names, &mut cut)?;
        if left.is_some() {
            cut.rest.push(b'\n')?;
        }
    }
    Ok(cut)
}

/// Adds a line of these words to what was cut.
fn cut_line(
    line: &[u8],
    words: &[&[u8]],
    number: u32,
    names: &mut Names,
    cut: &mut Cut,
) -> Result<(), NoMemory>
    requires words { map (λ w. w.now) words.now ≡ words_of line.now }
    requires bounded { length (names_with names.old (request_of line.now)) < 2 ^ 32 }
    ensures rest { OnOk result (cut.new.rest.items ≡ cut.old.rest.items ++ rest_of_line line.now) }
    ensures lines { OnOk result (cut.new.lines.items ≡ cut.old.lines.items
        ++ numbered number names.old (request_of line.now)) }
    ensures ok { OnOk result (names.new ≡ names_with names.old (request_of line.now)) }
    ensures err { OnErr result (IsExtension names.old names.new) }
{
    match requested(words) {
        Some(request) => {
            let name = mention(request.name, names)?;
            let kind = request.kind;
            cut.lines.push(SyncLine {
                line: number,
                kind,
                name,
            })?;
        }
        None => cut.rest.extend_from_slice(line)?,
    }
    Ok(())
}

/// What a line asks for, under the text of a name.
#[derive(Clone, Copy)]
struct Request<'a> {
    kind: SyncKind,
    name: &'a [u8],
}

/// What words ask for.
fn requested<'a>(words: &[&'a [u8]]) -> Option<Request<'a>>
    ensures value { option_map (λ r. record { kind = r.kind; name = r.name.now }) result
        ≡ words_request (map (λ w. w.now) words.now) }
    ensures object { IfSome result (λ r. IsTrue (is_object r.name.now)) }
{
    let [word, name] = words else {
        return None;
    };
    if !is_object(name) {
        return None;
    }
    let kind = asked_kind(word)?;
    Some(Request { kind, name })
}

/// What a word asks for.
fn asked_kind(word: &[u8]) -> Option<SyncKind>
    ensures { result ≡ kind_of word.now }
{
    if is_word(word, b"post") {
        Some(SyncKind::Post)
    } else if is_word(word, b"wait") {
        Some(SyncKind::Wait)
    } else {
        None
    }
}

/// The number of a name, which is added at the end if it is new.
fn mention(name: &[u8], names: &mut Names) -> Result<u32, NoMemory>
    requires object { IsTrue (is_object name.now) }
    requires bounded { length (with_name names.old name.now) < 2 ^ 32 }
    ensures ok { OnOk result (names.new ≡ with_name names.old name.now) }
    ensures number { IfOk result (λ number. number ≡ number_for names.old name.now) }
    ensures err { OnErr result (names.new ≡ names.old) }
{
    let name = text(name);
    match names.find(name) {
        Some(number) => Ok(number),
        None => Ok(names.add(name)?),
    }
}
