//! The parts of a recording.
ghost use Rattle.std.specs.Prelude.{◌≡◌, ◌<◌, ◌≤◌, ◌+◌, ◌-◌, ◌^◌, length, map, All, IfOk, IsTrue, false};
ghost use Rattle.std.specs.List.{position_or_len};
ghost use Rattle.jm_lines.specs.Lines.{is_line_feed, first_line};
ghost use Rattle.jm_sweep.specs.Recordings.{are_parting, is_parting, parts_of, span_text, LiesWithin};

use jm_lines::{first_words, is_word, position_of};
use jm_model::NoMemory;
use std::alloc::Global;

/// A line: how long it is, and whether a recording is cut at it.
#[derive(Clone, Copy)]
struct Line {
    len: usize,
    parting: bool,
}

/// Where the parts of a recording begin and end, in order, at least one. A recording is cut at each line whose only
/// word, outside comment, is `---`. No part has such a line, nor the line feed before it.
pub fn parts(alloc: Global, bytes: &[u8]) -> Result<Vec<(u32, u32)>, NoMemory>
    requires { length bytes.now < 2 ^ 32 - 1 }
    ensures value { IfOk result (λ spans. map (span_text bytes.now) spans.items ≡ parts_of bytes.now) }
    ensures bounded { IfOk result (λ spans. length spans.items ≤ length bytes.now + 1) }
    ensures within { IfOk result (λ spans. All (LiesWithin bytes.now) spans.items) }
{
    let mut spans = Vec::new(alloc);
    let mut words = Vec::new(alloc);
    let mut begin = 0;
    let mut at = 0;
    loop {
        let line = next_line(&bytes[at..], &mut words)?;
        let end = at + line.len;
        if line.parting {
            spans.push(span(begin, at.saturating_sub(1).max(begin)))?;
            if end == bytes.len() {
                spans.push(span(end, end))?;
                return Ok(spans);
            }
            begin = end + 1;
        } else if end == bytes.len() {
            spans.push(span(begin, end))?;
            return Ok(spans);
        }
        at = end + 1;
    }
}

/// The first line of a text: how long it is, and whether a recording is cut at it.
fn next_line<'a>(text: &'a [u8], words: &mut Vec<&'a [u8]>) -> Result<Line, NoMemory>
    ensures len { IfOk result (λ line. line.len ≡ position_or_len is_line_feed text.now) }
    ensures parting { IfOk result (λ line. line.parting ≡ is_parting (first_line text.now)) }
{
    if begins_a_name(text) {
        let len = position_of(text, b'\n');
        return Ok(Line {
            len,
            parting: false,
        });
    }
    let len = first_words(text, words)?;
    let parting = is_parting(words);
    Ok(Line { len, parting })
}

/// Whether the first byte begins a word that isn't `---`, as that of most lines does.
fn begins_a_name(text: &[u8]) -> bool
    ensures { IsTrue result → is_parting (first_line text.now) ≡ false }
{
    match text {
        [first, ..] => *first > b'-',
        [] => false,
    }
}

/// Whether these are the words of a line at which a recording is cut.
fn is_parting(words: &[&[u8]]) -> bool
    ensures { result ≡ are_parting (map (λ w. w.now) words.now) }
{
    match words {
        [word] => is_word(word, b"---"),
        _ => false,
    }
}

fn span(begin: usize, end: usize) -> (u32, u32)
    requires begin { begin < 2 ^ 32 }
    requires end { end < 2 ^ 32 }
    ensures { result ≡ (begin, end) }
{
    (begin as u32, end as u32)
}
