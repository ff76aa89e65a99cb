//! Names and numbers among the words.
ghost use Rattle.std.specs.Prelude.{◌≡◌, ◌<◌, length, map, string_bytes, codes, Some, None, IfOk, IfSome, IsOkUnless, position};
ghost use Rattle.std.specs.Char.{is_ascii_digit};
ghost use Rattle.std.specs.List.{list_all};
ghost use Rattle.std.specs.Str.{bytes_eq};
ghost use Rattle.jm_cli.specs.Words.{is_name, is_short_number, rounds_of};

use crate::command::WordsError;
use std::alloc::Global;

/// The most digits of a number, and its greatest value.
const MAX_DIGITS: usize = 4;

const MAX_ROUNDS: u32 = 8000;

/// Whether each word may name a file.
pub(crate) fn is_each_a_name(words: &[String]) -> bool
    ensures { result ≡ list_all (λ word. is_name (string_bytes word)) words.now }
{
    words.iter().all(|word| is_name(word.as_str()))
}

fn is_name(word: &str) -> bool
    ensures { result ≡ is_name word.now }
{
    !word.as_bytes().starts_with(b"-")
}

/// The place of the first separator.
pub(crate) fn separator(words: &[String]) -> Option<usize>
    ensures value { result ≡ position (λ word. bytes_eq (codes "--") (string_bytes word)) words.now }
    ensures within { IfSome result (λ place. place < length words.now) }
{
    words.iter().position(|word| word.as_str() == "--")
}

/// The text, as a string.
pub(crate) fn copy(alloc: Global, word: &str) -> Result<String, WordsError>
    ensures ok { IfOk result (λ copy. string_bytes copy ≡ word.now) }
    ensures err { IsOkUnless result WordsError.NoMemory }
{
    Ok(String::from_str(alloc, word)?)
}

/// The number of rounds that a word gives.
pub(crate) fn rounds(word: &str) -> Option<u32>
    ensures { result ≡ rounds_of word.now }
{
    if !is_short_number(word.as_bytes()) {
        return None;
    }
    match word.parse::<u32>() {
        Ok(n) if n <= MAX_ROUNDS => Some(n),
        _ => None,
    }
}

/// Whether a word is 1 to 4 digits without a leading zero.
fn is_short_number(word: &[u8]) -> bool
    ensures { result ≡ is_short_number word.now }
{
    !word.is_empty() && word.len() <= MAX_DIGITS && are_digits(word) && !word.starts_with(b"0")
}

fn are_digits(word: &[u8]) -> bool
    ensures { result ≡ list_all is_ascii_digit word.now }
{
    word.iter().all(|byte| byte.is_ascii_digit())
}
