//! The event words that were looked up, which often come again.
ghost use Rattle.std.specs.Prelude.{◌≡◌, ◌<◌, ◌≤◌, ◌+◌, List, length, take, drop, IfSome, IsTrue};
ghost use Rattle.std.specs.Int.{w64, to_le_bytes};
ghost use Rattle.jm_script.specs.Catalogs.{CatalogEntry};
ghost use Rattle.jm_script.specs.Known.{IsEventOf, IsSound, AreSound};

use crate::event::NamedEvent;

/// An odd number that spreads the bits of another over the high ones of their product.
const SPREAD: u64 = 0x9e37_79b9_7f4a_7c15;

/// The word of an event line, with its event and the number of its objects.
#[derive(Clone, Copy)]
pub struct KnownWord<'a> {
    pub word: &'a [u8],
    pub count: usize,
    pub event: NamedEvent,
}

/// Known words, each in the slot that its bytes give. A new word takes the slot of one that stands there.
#[derive(Clone, Copy)]
pub struct KnownWords<'a> {
    slots: [Option<KnownWord<'a>>; 64],
}

/// What lasts from line to line: the known words, and the numbers of the objects of the last line that has some.
#[derive(Clone, Copy)]
pub struct Scratch<'a> {
    pub known: KnownWords<'a>,
    pub numbers: [u32; 8],
}

impl<'a> KnownWords<'a> {
    /// No word.
    pub fn new() -> KnownWords<'a>
        ensures { (catalog : List CatalogEntry) → AreSound catalog result.slots }
    {
        KnownWords { slots: [None; 64] }
    }

    /// The event of a word with the given number of objects, if it is known.
    pub fn find(&self, word: &[u8], count: usize) -> Option<NamedEvent>
        ensures { (catalog : List CatalogEntry) → AreSound catalog self.now.slots →
            IfSome result (IsEventOf catalog word.now count) }
    {
        known_event(&self.slots[slot_of(word)], word, count)
    }

    /// Keeps a word.
    pub fn keep(&mut self, known: KnownWord<'a>)
        ensures { (catalog : List CatalogEntry) → AreSound catalog self.old.slots → IsSound catalog known.entry →
            AreSound catalog self.new.slots }
    {
        self.slots[slot_of(known.word)] = Some(known);
    }
}

/// The slot of a word, by its last bytes: the words of a specification begin with the same.
fn slot_of(word: &[u8]) -> usize
    ensures { result < 64 }
{
    match word {
        [.., a, b, c, d, e, f, g, h] => {
            let last = u64::from_le_bytes([*a, *b, *c, *d, *e, *f, *g, *h]);
            (last.wrapping_mul(SPREAD) >> 58) as usize
        }
        [.., last] => *last as usize % 64,
        [] => 0,
    }
}

/// The event of a word with the given number of objects, if it is the known one.
fn known_event(known: &Option<KnownWord<'_>>, word: &[u8], count: usize) -> Option<NamedEvent>
    ensures { (catalog : List CatalogEntry) → IfSome known.now (IsSound catalog) →
        IfSome result (IsEventOf catalog word.now count) }
{
    match known {
        Some(known) if known.count == count && are_same(known.word, word) => Some(known.event),
        _ => None,
    }
}

/// Whether two words are the same.
fn are_same(a: &[u8], b: &[u8]) -> bool
    ensures { IsTrue result → a.now ≡ b.now }
{
    let end = a.len();
    if b.len() != end {
        return false;
    }
    if end < 8 {
        return a == b;
    }
    let mut at = 0;
    while at + 8 < end {
        if eight(a, at) != eight(b, at) {
            return false;
        }
        at += 8;
    }
    eight(a, end - 8) == eight(b, end - 8)
}

/// Eight bytes as one number.
fn eight(text: &[u8], at: usize) -> u64
    requires { at + 8 ≤ length text.now }
    ensures { to_le_bytes w64 result ≡ take 8 (drop at text.now) }
{
    match &text[at..] {
        [a, b, c, d, e, f, g, h, ..] => u64::from_le_bytes([*a, *b, *c, *d, *e, *f, *g, *h]),
        _ => unreachable!(),
    }
}
