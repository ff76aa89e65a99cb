//! A place in a list of tokens, from which a reader goes on.
ghost use Rattle.std.specs.Prelude.{◌≡◌, ◌≤◌, length, drop, slice_range};
ghost use Rattle.jm_model.specs.declared.fault.SpecError.TheVariants.{Bad};
ghost use Rattle.jm_model.specs.declared.fault.SpecFault.TheVariants.{Syntax};
ghost use Rattle.jm_text.specs.Spans.{LieWithin};
ghost use Rattle.jm_reading.specs.Answers.{Reads, Leaves, IsSyntax};
ghost use Rattle.jm_reading.specs.Reading.{is_mark_at, is_word_at, is_name_at, is_left, last_line_of, line_of, mark_at, name_at, word_at, accepted};

use jm_model::{SpecError, SpecFault};
use jm_text::{Token, is_mark, is_name, is_word};
use std::alloc::Global;

/// The tokens that are left. A call that reads takes what it reads from their front; where it can't, it answers
/// `Syntax` with the line of the next token, or of the last at the end, and leaves the tokens as they are.
#[derive(Drop)]
pub struct Cursor<'a> {
    pub alloc: Global,
    pub bytes: &'a [u8],
    /// The line of the last token, or of the token before an empty list.
    pub last_line: u32,
    pub rest: &'a [Token],
    ghost within: { LieWithin bytes.now rest.now },
}

impl<'a> Cursor<'a> {
    ghost use Rattle.jm_reading.specs.Taking.{TakesOne};

    /// Before all of the tokens, which follow a token on this line.
    pub fn new(alloc: Global, bytes: &'a [u8], tokens: &'a [Token], line: u32) -> Cursor<'a>
        requires { LieWithin bytes.now tokens.now }
        ensures bytes { result.bytes.now ≡ bytes.now }
        ensures rest { result.rest.now ≡ tokens.now }
        ensures line { result.last_line ≡ last_line_of line tokens.now }
    {
        Cursor {
            alloc,
            bytes,
            last_line: tokens.last().map_or(line, |token| token.line),
            rest: tokens,
        }
    }

    /// The line of the next token, or of the last at the end.
    pub fn line(&self) -> u32
        ensures { result ≡ line_of self.now.last_line self.now.rest.now }
    {
        self.rest.first().map_or(self.last_line, |token| token.line)
    }

    /// `Syntax`, at the next token.
    pub fn syntax(&self) -> SpecError
        ensures is { IsSyntax result }
        ensures line { result ≡ Bad (Syntax (line_of self.now.last_line self.now.rest.now)) }
    {
        SpecFault::Syntax { line: self.line() }.into()
    }

    /// Whether the token that many tokens ahead is this mark.
    pub fn is_mark_at(&self, k: usize, mark: &[u8]) -> bool
        ensures { result ≡ is_mark_at self.now.bytes.now self.now.rest.now k mark.now }
    {
        matches!(self.rest.get(k), Some(token) if is_mark(self.bytes, *token, mark))
    }

    /// Whether the token that many tokens ahead is this word.
    pub fn is_word_at(&self, k: usize, word: &[u8]) -> bool
        ensures { result ≡ is_word_at self.now.bytes.now self.now.rest.now k word.now }
    {
        matches!(self.rest.get(k), Some(token) if is_word(self.bytes, *token, word))
    }

    /// Whether the token that many tokens ahead is a name.
    pub fn is_name_at(&self, k: usize) -> bool
        ensures { result ≡ is_name_at self.now.bytes.now self.now.rest.now k }
    {
        matches!(self.rest.get(k), Some(token) if is_name(self.bytes, *token))
    }

    /// Whether a token is left.
    pub fn is_left(&self) -> bool
        ensures { result ≡ is_left self.now.bytes.now self.now.rest.now }
    {
        !self.rest.is_empty()
    }

    /// Reads this mark.
    pub fn mark(&mut self, mark: &[u8]) -> Result<(), SpecError>
        ensures reads { Leaves result self.new.rest.now (mark_at self.old.bytes.now mark.now self.old.rest.now) }
        ensures one { TakesOne self.old result self.new }
    {
        self.accept(self.is_mark_at(0, mark))?;
        Ok(())
    }

    /// Reads a name.
    pub fn name(&mut self) -> Result<Token, SpecError>
        ensures reads { Reads result self.new.rest.now (name_at self.old.bytes.now self.old.rest.now) }
        ensures one { TakesOne self.old result self.new }
    {
        self.accept(self.is_name_at(0))
    }

    /// Reads this word.
    pub fn word(&mut self, word: &[u8]) -> Result<Token, SpecError>
        ensures reads { Reads result self.new.rest.now (word_at self.old.bytes.now word.now self.old.rest.now) }
        ensures one { TakesOne self.old result self.new }
    {
        self.accept(self.is_word_at(0, word))
    }

    /// Reads the next token, if it is wanted.
    fn accept(&mut self, is_wanted: bool) -> Result<Token, SpecError>
        ensures reads { Reads result self.new.rest.now (accepted is_wanted self.old.rest.now) }
        ensures one { TakesOne self.old result self.new }
    {
        match self.rest {
            [token, ..] if is_wanted => {
                let token = *token;
                self.advance(1);
                Ok(token)
            }
            _ => Err(self.syntax()),
        }
    }

    /// Passes over a number of tokens.
    pub fn advance(&mut self, n: usize)
        requires { n ≤ length self.old.rest.now }
        ensures rest { self.new.rest.now ≡ drop n self.old.rest.now }
        ensures bytes { self.new.bytes.now ≡ self.old.bytes.now }
        ensures last_line { self.new.last_line ≡ self.old.last_line }
    {
        self.rest = &self.rest[n..];
    }
}

/// The tokens from `first` up to `last`, cut where the tokens end.
pub fn range_of(tokens: &[Token], first: u32, last: u32) -> &[Token]
    ensures { result.now ≡ slice_range tokens.now first last }
{
    let last = tokens.len().min(last as usize);
    let first = last.min(first as usize);
    &tokens[first..last]
}
