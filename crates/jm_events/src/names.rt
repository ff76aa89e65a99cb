ghost use Rattle.std.specs.Prelude.{ℕ, ◌≡◌, ◌<◌, ◌≤◌, ◌-◌, ◌^◌, ◌↔◌, [], ◌∷◌, ◌++◌, length, Contains, Some, None, IsNone, IfSome, IfOk, OnOk, OnErr, slice_get, slice_index, slice_range, unwrap_or};
ghost use Rattle.std.specs.List.{IsDistinct};
ghost use Rattle.std.specs.Str.{bytes_eq};
ghost use Rattle.jm_events.specs.Hash.{hash_of};
ghost use Rattle.jm_events.specs.Names.{number_of, with_name};
ghost use Rattle.jm_events.specs.Texts.{texts_from, Rise, AreTexts};

use crate::chains::Chains;
use crate::hash::hash_of;
use jm_model::NoMemory;
use std::alloc::Global;
use std::marker::Model;
use std::str::from_utf8_unchecked;

/// Distinct texts in order of first mention. The number of a text is its place. Look-ups are by hash. The bytes of all
/// texts stand one after the other in one block.
pub struct Names {
    bytes: Vec<u8>,
    ends: Vec<usize>,
    chains: Chains,
}

// Written out, so that a drop is one call wherever names are let go.
impl Drop for Names {
    fn drop(self) {
        let Names {
            bytes: _,
            ends: _,
            chains: _,
        } = self;
    }
}

impl Model for Names {
    ghost use Rattle.std.specs.Prelude.{ℕ, List};
    ghost use Rattle.jm_events.specs.Texts.{texts_from, AreTexts};

    ghost Value = { List (List ℕ) };

    ghost view = { λ n. texts_from 0 n.bytes.items n.ends.items };

    ghost invariant = { λ n. AreTexts n.bytes.items n.ends.items n.chains.hashes };
}

impl Names {
    /// No name.
    pub fn new(alloc: Global) -> Names
        ensures { result ≡ [] }
    {
        Names {
            bytes: Vec::new(alloc),
            ends: Vec::new(alloc),
            chains: Chains::new(alloc),
        }
    }

    /// The number of a name, which is added at the end if it is new.
    pub fn add(&mut self, name: &str) -> Result<u32, NoMemory>
        requires { length self.old < 2 ^ 32 - 1 }
        ensures ok { OnOk result (self.new ≡ with_name self.old name.now) }
        ensures number { IfOk result (λ number. slice_get self.new number ≡ Some name.now) }
        ensures place { IfOk result (λ number. number ≡ unwrap_or (number_of self.old name.now) (length self.old)) }
        ensures err { OnErr result (self.new ≡ self.old) }
    {
        let hash = hash_of(name.as_bytes());
        match self.find_hashed(name, hash) {
            Some(number) => Ok(number),
            None => self.append_hashed(name, hash),
        }
    }

    /// Adds a new name at the end.
    pub(crate) fn append(&mut self, name: &str) -> Result<u32, NoMemory>
        requires room { length self.old < 2 ^ 32 - 1 }
        requires absent { number_of self.old name.now ≡ None }
        ensures ok { OnOk result (self.new ≡ self.old ++ name.now ∷ []) }
        ensures number { IfOk result (λ number. number ≡ length self.old) }
        ensures err { OnErr result (self.new ≡ self.old) }
    {
        self.append_hashed(name, hash_of(name.as_bytes()))
    }

    /// Adds a new name with this hash at the end.
    fn append_hashed(&mut self, name: &str, hash: u32) -> Result<u32, NoMemory>
        requires room { length self.old < 2 ^ 32 - 1 }
        requires absent { number_of self.old name.now ≡ None }
        requires hash { hash ≡ hash_of name.now }
        ensures ok { OnOk result (self.new ≡ self.old ++ name.now ∷ []) }
        ensures number { IfOk result (λ number. number ≡ length self.old) }
        ensures err { OnErr result (self.new ≡ self.old) }
    {
        let number = self.ends.len() as u32;
        self.chains.reserve()?;
        self.ends.reserve(1)?;
        self.bytes.extend_from_slice(name.as_bytes())?;
        self.ends.push_reserved(self.bytes.len());
        self.chains.push_reserved(hash);
        Ok(number)
    }

    /// The number of a name, if it is there.
    pub fn find(&self, name: &str) -> Option<u32>
        ensures value { result ≡ number_of self.now name.now }
        ensures at { (k : ℕ) → (result ≡ Some k) ↔ (slice_get self.now k ≡ Some name.now) }
        ensures absent { IsNone result ↔ ¬ Contains self.now name.now }
        ensures within { IfSome result (λ number. number < length self.now) }
        ensures distinct { IsDistinct bytes_eq self.now }
    {
        self.find_hashed(name, hash_of(name.as_bytes()))
    }

    /// The number of a name with this hash, if it is there.
    #[inline(always)]
    fn find_hashed(&self, name: &str, hash: u32) -> Option<u32>
        requires { hash ≡ hash_of name.now }
        ensures value { result ≡ number_of self.now name.now }
        ensures at { (k : ℕ) → (result ≡ Some k) ↔ (slice_get self.now k ≡ Some name.now) }
        ensures absent { IsNone result ↔ ¬ Contains self.now name.now }
        ensures within { IfSome result (λ number. number < length self.now) }
        ensures distinct { IsDistinct bytes_eq self.now }
    {
        search(
            self.bytes.as_slice(),
            self.ends.as_slice(),
            &self.chains,
            name.as_bytes(),
            hash,
        )
    }

    /// The name of a number.
    pub fn name(&self, number: u32) -> &str
        requires { number < length self.now }
        ensures { slice_get self.now number ≡ Some result.now }
    {
        let text = text_at(self.bytes.as_slice(), self.ends.as_slice(), number as usize);
        unsafe { from_utf8_unchecked(text) }
    }

    /// How many names there are.
    pub fn len(&self) -> u32
        ensures value { result ≡ length self.now }
        ensures distinct { IsDistinct bytes_eq self.now }
    {
        self.ends.len() as u32
    }

    /// Equal names, under equal numbers.
    pub(crate) fn copy(&self) -> Result<Names, NoMemory>
        ensures { IfOk result (λ names. names ≡ self.now) }
    {
        let bytes = self.bytes.clone()?;
        let ends = self.ends.clone()?;
        let chains = self.chains.copy()?;
        Ok(Names {
            bytes,
            ends,
            chains,
        })
    }
}

/// The number of a name with this hash among the texts of a block.
#[inline(always)]
fn search(bytes: &[u8], ends: &[usize], chains: &Chains, name: &[u8], hash: u32) -> Option<u32>
    requires texts { AreTexts bytes.now ends.now chains.now.hashes }
    requires hash { hash ≡ hash_of name.now }
    ensures { result ≡ number_of (texts_from 0 bytes.now ends.now) name.now }
{
    let mut at = chains.first(hash);
    while at > 0 {
        let number = at - 1;
        let text = text_at(bytes, ends, number as usize);
        if is_same(chains.hash(number), text, hash, name) {
            return Some(number);
        }
        at = chains.before(number);
    }
    None
}

/// The text of a number.
#[inline(always)]
fn text_at<'a>(bytes: &'a [u8], ends: &[usize], number: usize) -> &'a [u8]
    requires rise { Rise 0 ends.now (length bytes.now) }
    requires within { number < length ends.now }
    ensures { slice_get (texts_from 0 bytes.now ends.now) number ≡ Some result.now }
{
    let start = start_of(ends, number);
    part(bytes, start, ends[number])
}

/// A part of a block.
#[inline(always)]
fn part(bytes: &[u8], start: usize, end: usize) -> &[u8]
    requires below { start ≤ end }
    requires within { end ≤ length bytes.now }
    ensures { result.now ≡ slice_range bytes.now start end }
{
    &bytes[start..end]
}

/// Where the text of a number begins.
#[inline(always)]
fn start_of(ends: &[usize], number: usize) -> usize
    requires { number < length ends.now }
    ensures { result ≡ slice_index (0 ∷ ends.now) number }
{
    if number == 0 {
        return 0;
    }
    ends[number - 1]
}

/// Whether two texts are the same, by their hashes first.
#[inline(always)]
fn is_same(seen: u32, text: &[u8], hash: u32, name: &[u8]) -> bool
    requires seen { seen ≡ hash_of text.now }
    requires hash { hash ≡ hash_of name.now }
    ensures { result ≡ bytes_eq name.now text.now }
{
    seen == hash && name == text
}
