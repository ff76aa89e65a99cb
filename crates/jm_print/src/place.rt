//! The text of a caller and a line of its script, which often differs from that of the line before in a digit alone.
ghost use Rattle.std.specs.Prelude.{◌≡◌, ◌+◌, ◌≤◌, ◌++◌, vec_len, vec_capacity};
ghost use Rattle.jm_print.specs.Shorts.{place_text};

use crate::short::{MOST, ShortText};
use itoa::write_digits;
use std::marker::Model;

/// A caller, a line of its script, and their text. Contracts see the text.
#[derive(Drop)]
pub(crate) struct Place {
    caller: u32,
    line: u32,
    text: ShortText,
}

impl Model for Place {
    ghost use Rattle.std.specs.Prelude.{List, ℕ, ◌≡◌};
    ghost use Rattle.jm_print.specs.Shorts.{IsShort, short_text, place_text};

    ghost Value = { List ℕ };

    ghost view = { λ p. short_text p.text };

    ghost invariant = { λ p. IsShort p.text × (short_text p.text ≡ place_text p.caller p.line) };
}

impl Place {
    /// The text of a line of a caller's script.
    pub(crate) fn new(caller: u32, line: u32) -> Place
        ensures { result ≡ place_text caller line }
    {
        let mut bytes = [b' '; MOST];
        let behind = write_digits(u64::from(line), &mut bytes, MOST - 1) - 1;
        bytes[behind] = b':';
        let start = write_digits(u64::from(caller), &mut bytes, behind);
        let text = ShortText::new(&bytes[start..]);
        Place { caller, line, text }
    }

    /// Makes it that of another line. Where that is the next one of the same caller, and its number differs in the last
    /// digit alone, that digit is raised.
    #[inline(always)]
    pub(crate) fn move_to(&mut self, caller: u32, line: u32)
        ensures { self.new ≡ place_text caller line }
    {
        let last = self.text.bytes[self.text.len - 2];
        if last < b'9' && caller == self.caller && u64::from(line) == u64::from(self.line) + 1 {
            self.text.bytes[self.text.len - 2] = last + 1;
            self.line = line;
        } else {
            self.restart(caller, line);
        }
    }

    /// Makes it that of another line, whatever stood there.
    #[inline(never)]
    fn restart(&mut self, caller: u32, line: u32)
        ensures { self.new ≡ place_text caller line }
    {
        *self = Place::new(caller, line);
    }

    /// Puts the text after bytes that have room for it.
    #[inline(always)]
    pub(crate) fn put_onto(&self, bytes: &mut Vec<u8>)
        requires { vec_len bytes.old + 32 ≤ vec_capacity bytes.old }
        ensures { bytes.new.items ≡ bytes.old.items ++ self.now }
    {
        self.text.put_onto(bytes);
    }
}
