//! A text that grows.
ghost use Rattle.std.specs.Prelude.{◌≡◌, ◌++◌, [], ◌∷◌, codes, decimal, length, vec_len, vec_capacity, OnOk, ◌+◌, ◌≤◌, if◌then◌else◌};
ghost use Rattle.jm_print.specs.Shorts.{IsShort, short_text, place_text};
ghost use Rattle.jm_handler.specs.Renderings.{AreNamed, occasion, handler_text};

use crate::place::Place;
use crate::short::{MOST, ShortText};
use itoa::Buffer;
use jm_events::Names;
use jm_handler::Handler;
use jm_model::{Binding, NoMemory};
use std::alloc::Global;
use std::marker::Model;

/// The bytes that were written so far, and the last caller and line. Its memory grows geometrically.
#[derive(Drop)]
pub(crate) struct Page {
    bytes: Vec<u8>,
    place: Place,
}

impl Model for Page {
    ghost use Rattle.std.specs.Prelude.{List, ℕ};

    ghost Value = { List ℕ };

    ghost view = { λ p. p.bytes.items };
}

impl Page {
    pub(crate) fn new(alloc: Global) -> Page
        ensures { result ≡ [] }
    {
        Page {
            bytes: Vec::new(alloc),
            place: Place::new(0, 0),
        }
    }

    /// Makes room for the given number of further bytes, if there is memory.
    pub(crate) fn make_room(&mut self, bytes: usize)
        ensures { self.new ≡ self.old }
    {
        let _ = self.bytes.reserve(bytes);
    }

    /// How many bytes were written.
    pub(crate) fn len(&self) -> usize
        ensures { result ≡ length self.now }
    {
        self.bytes.len()
    }

    /// Writes a text.
    #[inline(always)]
    pub(crate) fn text(&mut self, text: &str) -> Result<(), NoMemory>
        ensures { OnOk result (self.new ≡ self.old ++ text.now) }
    {
        self.bytes(text.as_bytes())
    }

    /// Writes bytes.
    #[inline(always)]
    pub(crate) fn bytes(&mut self, bytes: &[u8]) -> Result<(), NoMemory>
        ensures { OnOk result (self.new ≡ self.old ++ bytes.now) }
    {
        Ok(self.bytes.extend_from_slice(bytes)?)
    }

    /// Writes a byte.
    #[inline(always)]
    pub(crate) fn byte(&mut self, byte: u8) -> Result<(), NoMemory>
        ensures { OnOk result (self.new ≡ self.old ++ byte ∷ []) }
    {
        Ok(self.bytes.push(byte)?)
    }

    /// Writes a short text and then a word.
    #[inline(always)]
    pub(crate) fn short(&mut self, short: &ShortText, word: &str) -> Result<(), NoMemory>
        requires { IsShort short.now }
        ensures { OnOk result (self.new ≡ self.old ++ (short_text short.now ++ word.now)) }
    {
        self.bytes.reserve(word.len().saturating_add(MOST))?;
        short.put_onto(&mut self.bytes);
        put_word(&mut self.bytes, word.as_bytes());
        Ok(())
    }

    /// Writes a parameter with its object, after a comma where it isn't the first.
    #[inline(always)]
    pub(crate) fn pair(
        &mut self,
        first: bool,
        parameter: &str,
        object: &str,
    ) -> Result<(), NoMemory>
        ensures { OnOk result (self.new ≡ self.old
            ++ (if first then [] else codes ",") ++ (parameter.now ++ codes "=" ++ object.now)) }
    {
        let more = (parameter.len() + 2).saturating_add(object.len());
        self.bytes.reserve(more)?;
        if !first {
            self.bytes.push_reserved(b',');
        }
        put_word(&mut self.bytes, parameter.as_bytes());
        self.bytes.push_reserved(b'=');
        put_word(&mut self.bytes, object.as_bytes());
        Ok(())
    }

    /// Writes a number, without leading zeros.
    #[inline(always)]
    pub(crate) fn number(&mut self, number: u64) -> Result<(), NoMemory>
        ensures { OnOk result (self.new ≡ self.old ++ decimal number) }
    {
        if number < 10 {
            return self.byte(b'0' + number as u8);
        }
        self.long_number(number)
    }

    #[inline(always)]
    fn long_number(&mut self, number: u64) -> Result<(), NoMemory>
        ensures { OnOk result (self.new ≡ self.old ++ decimal number) }
    {
        let mut buffer = Buffer::new();
        self.text(buffer.format(number))
    }

    /// Writes a caller and a line of its script, with what stands after each.
    #[inline(always)]
    pub(crate) fn place(&mut self, caller: u32, line: u32) -> Result<(), NoMemory>
        ensures { OnOk result (self.new ≡ self.old ++ place_text caller line) }
    {
        self.place.move_to(caller, line);
        self.bytes.reserve(MOST)?;
        self.place.put_onto(&mut self.bytes);
        Ok(())
    }

    /// Writes what a handler prints for an instance, at an event on this line of this caller.
    pub(crate) fn handler(
        &mut self,
        handler: &Handler,
        instance: &Binding,
        objects: &Names,
        caller: u32,
        line: u32,
    ) -> Result<(), NoMemory>
        requires { AreNamed objects.now instance.now }
        ensures { OnOk result (self.new
            ≡ self.old ++ handler_text (occasion instance.now objects.now caller line) handler.now) }
    {
        handler.render_onto(&mut self.bytes, instance, objects, caller, line)
    }

    pub(crate) fn into_bytes(self) -> Vec<u8>
        ensures { result.items ≡ self }
    {
        let Page { bytes, place: _ } = self;
        bytes
    }
}

/// Puts a text that is often very short after bytes that have room for it.
#[inline(always)]
fn put_word(bytes: &mut Vec<u8>, word: &[u8])
    requires { vec_len bytes.old + length word.now ≤ vec_capacity bytes.old }
    ensures items { bytes.new.items ≡ bytes.old.items ++ word.now }
    ensures len { vec_len bytes.new ≡ vec_len bytes.old + length word.now }
    ensures capacity { vec_capacity bytes.old ≤ vec_capacity bytes.new }
{
    match word {
        [a] => bytes.push_reserved(*a),
        [a, b] => {
            bytes.push_reserved(*a);
            bytes.push_reserved(*b);
        }
        [a, b, c] => {
            bytes.push_reserved(*a);
            bytes.push_reserved(*b);
            bytes.push_reserved(*c);
        }
        all => {
            let _ = bytes.extend_from_slice(all);
        }
    }
}
