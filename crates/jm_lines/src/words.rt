//! The words of a line.
ghost use Rattle.std.specs.Prelude.{◌≡◌, ◌==◌, ◌<◌, ◌≤◌, ◌+◌, [], ◌∷◌, ◌++◌, map, filter, length, drop, OnOk, IfOk, IfSome, IsUtf8};
ghost use Rattle.std.specs.Simd.Lanes.{chunk, mask_l};
ghost use Rattle.std.specs.List.{list_all, position_or_len};
ghost use Rattle.std.specs.Str.{bytes_eq};
ghost use Rattle.std.specs.Str.Lines.{strip_carriage_return};
ghost use Rattle.jm_lines.specs.Lines.{is_line_feed, is_blank, is_some_word, first_line, lines_of, lines_left, bytes_left, content_of, words_of};
ghost use Rattle.jm_lines.specs.Low.{is_low, TellsLow};
ghost use Rattle.jm_lines.specs.Objects.{is_object_byte, is_object};

use jm_model::NoMemory;
use memchr::memchr;
use std::simd::prelude::*;
use std::str::from_utf8_unchecked;

/// Puts the words of a text's first line in the place of those that are there, and answers where the line ends.
pub fn first_words<'a>(text: &'a [u8], words: &mut Vec<&'a [u8]>) -> Result<usize, NoMemory>
    ensures words { OnOk result (map (λ w. w.now) words.new.items ≡ words_of (first_line text.now)) }
    ensures line { IfOk result (λ end. end ≡ position_or_len is_line_feed text.now) }
{
    match plain_words(text, words)? {
        Some(end) => Ok(end),
        None => marked_words(text, words),
    }
}

/// First words read in one walk over the line; none if a byte below `$` that is no blank may stand in it.
fn plain_words<'a>(text: &'a [u8], words: &mut Vec<&'a [u8]>) -> Result<Option<usize>, NoMemory>
    ensures words { IfOk result (λ end. IfSome end (λ _.
        map (λ w. w.now) words.new.items ≡ words_of (first_line text.now))) }
    ensures line { IfOk result (λ end. IfSome end (λ n. n ≡ position_or_len is_line_feed text.now)) }
{
    words.clear();
    let mut at = 0;
    let mut low = 0;
    loop {
        let next = next_low(text, at, low);
        add_word(&text[at..next.place], words)?;
        if next.place == text.len() {
            return Ok(Some(next.place));
        }
        let b = text[next.place];
        if b == b'\n' {
            return Ok(Some(next.place));
        }
        if !is_blank(b) {
            return Ok(None);
        }
        at = next.place + 1;
        low = next.behind;
    }
}

/// First words read in several walks: over the line, its content and its words.
fn marked_words<'a>(text: &'a [u8], words: &mut Vec<&'a [u8]>) -> Result<usize, NoMemory>
    ensures words { OnOk result (map (λ w. w.now) words.new.items ≡ words_of (first_line text.now)) }
    ensures line { IfOk result (λ end. end ≡ position_or_len is_line_feed text.now) }
{
    let end = position_of(text, b'\n');
    read_words(&text[..end], words)?;
    Ok(end)
}

/// What stands after a text's first line, which ends here, if a line feed ends it.
pub fn behind_line(text: &[u8], end: usize) -> Option<&[u8]>
    requires { end ≡ position_or_len is_line_feed text.now }
    ensures lines { lines_of text.now ≡ first_line text.now ∷ lines_left result }
    ensures shorter { bytes_left result ≤ length text.now }
{
    if end >= text.len() {
        return None;
    }
    Some(&text[end + 1..])
}

/// Where a byte below `$` stands, and what is known of those after it.
#[derive(Clone, Copy)]
struct Low {
    place: usize,
    behind: u64,
}

/// The first byte below `$` from a place on, or the end of the text. Each byte at which a word ends is below `$`, and
/// most others are not.
#[inline(always)]
fn next_low(text: &[u8], at: usize, low: u64) -> Low
    requires { TellsLow text.now at low }
    ensures place { result.place ≡ at + position_or_len is_low (drop at text.now) }
    ensures fits { result.place ≤ length text.now }
    ensures behind { result.place < length text.now → TellsLow text.now (result.place + 1) result.behind }
{
    if low != 0 {
        return told_low(text, at, low);
    }
    let more = more_low(text, at);
    if more != 0 {
        return told_low(text, at, more);
    }
    Low {
        place: high_end(text, at),
        behind: 0,
    }
}

/// The first byte below `$` from a place on, where one is known.
#[inline(always)]
fn told_low(text: &[u8], at: usize, low: u64) -> Low
    requires told { TellsLow text.now at low }
    requires some { 0 < low }
    ensures place { result.place ≡ at + position_or_len is_low (drop at text.now) }
    ensures fits { result.place ≤ length text.now }
    ensures behind { result.place < length text.now → TellsLow text.now (result.place + 1) result.behind }
{
    let run = low.trailing_zeros() as usize;
    Low {
        place: at + run,
        behind: low >> run >> 1,
    }
}

/// Which bytes from a place on are below `$`, of those that are looked at together, where there are enough.
#[inline(always)]
fn more_low(text: &[u8], at: usize) -> u64
    requires { at ≤ length text.now }
    ensures { TellsLow text.now at result }
{
    if text.len() - at < TOGETHER {
        return 0;
    }
    low_bytes(text, at)
}

const TOGETHER: usize = 32;

/// Which bytes from a place on are below `$`, of those that are looked at together.
#[inline(always)]
fn low_bytes(text: &[u8], at: usize) -> u64
    requires { at + TOGETHER ≤ length text.now }
    ensures { result ≡ mask_l (map is_low (chunk at 32 text.now)) }
{
    u8x32::from_slice(&text[at..])
        .simd_lt(u8x32::splat(b'$'))
        .to_bitmask()
}

/// The first byte below `$` from a place on, or the end of the text, byte by byte.
#[inline(never)]
fn high_end(text: &[u8], at: usize) -> usize
    requires { at ≤ length text.now }
    ensures value { result ≡ at + position_or_len is_low (drop at text.now) }
    ensures fits { result ≤ length text.now }
{
    at + high_len(&text[at..])
}

/// How many bytes stand in front of the first that is below `$`.
fn high_len(text: &[u8]) -> usize
    ensures value { result ≡ position_or_len is_low text.now }
    ensures fits { result ≤ length text.now }
{
    for (i, b) in text.iter().enumerate() {
        if *b < b'$' {
            return i;
        }
    }
    text.len()
}

/// Adds a word, if it has some bytes.
fn add_word<'a>(word: &'a [u8], words: &mut Vec<&'a [u8]>) -> Result<(), NoMemory>
    ensures { OnOk result (map (λ w. w.now) words.new.items ≡
        map (λ w. w.now) words.old.items ++ filter is_some_word (word.now ∷ [])) }
{
    if word.is_empty() {
        return Ok(());
    }
    words.push(word)?;
    Ok(())
}

/// Puts the words of a line in the place of those that are there.
fn read_words<'a>(line: &'a [u8], words: &mut Vec<&'a [u8]>) -> Result<(), NoMemory>
    ensures { OnOk result (map (λ w. w.now) words.new.items ≡ words_of line.now) }
{
    words.clear();
    for word in content(line).split(|b| is_blank(*b)) {
        if word.is_empty() {
            continue;
        }
        words.push(word)?;
    }
    Ok(())
}

/// What counts of a line.
fn content(line: &[u8]) -> &[u8]
    ensures { result.now ≡ content_of line.now }
{
    let line = without_carriage_return(line);
    &line[..position_of(line, b'#')]
}

/// Without a carriage return at the end.
fn without_carriage_return(line: &[u8]) -> &[u8]
    ensures { result.now ≡ strip_carriage_return line.now }
{
    match line {
        [rest @ .., b'\r'] => rest,
        _ => line,
    }
}

/// Where a byte first stands, or the text ends.
pub fn position_of(text: &[u8], byte: u8) -> usize
    ensures value { result ≡ position_or_len (λ b. b == byte) text.now }
    ensures fits { result ≤ length text.now }
{
    match memchr(byte, text) {
        Some(place) => place,
        None => text.len(),
    }
}

fn is_blank(b: u8) -> bool
    ensures { result ≡ is_blank b }
{
    b == b' ' || b == b'\t'
}

/// Whether the word is this text.
pub fn is_word(word: &[u8], text: &[u8]) -> bool
    ensures { result ≡ bytes_eq word.now text.now }
{
    word.len() == text.len() && are_same(word, text)
}

// Out of line, since most words have another length.
#[inline(never)]
fn are_same(word: &[u8], text: &[u8]) -> bool
    ensures { result ≡ bytes_eq word.now text.now }
{
    word == text
}

/// Whether the word may name an object: 1 to 255 ASCII letters, digits, `_`, `$`, `.`, `@` and `-`.
pub fn is_object(word: &[u8]) -> bool
    ensures { result ≡ is_object word.now }
{
    1 <= word.len() && word.len() <= 255 && are_object_bytes(word)
}

fn are_object_bytes(word: &[u8]) -> bool
    ensures { result ≡ list_all is_object_byte word.now }
{
    word.iter().all(|b| is_object_byte(*b))
}

fn is_object_byte(b: u8) -> bool
    ensures { result ≡ is_object_byte b }
{
    if b.is_ascii_alphabetic() {
        return true;
    }
    match b {
        b'_' | b'$' | b'.' | b'@' | b'-' => true,
        _ => b.is_ascii_digit(),
    }
}

/// The text of a word. It isn't checked again: the bytes of a name are ASCII.
pub fn text(word: &[u8]) -> &str
    requires { IsUtf8 word.now }
    ensures { result.now ≡ word.now }
{
    unsafe { from_utf8_unchecked(word) }
}
