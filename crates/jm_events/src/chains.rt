//! Where the names of a hash stand. It sees no name.
ghost use Rattle.std.specs.Prelude.{◌≡◌, ◌<◌, ◌≤◌, ◌+◌, ◌-◌, ◌^◌, [], ◌∷◌, ◌++◌, length, replicate, slice_index, slice_set, vec_len, vec_capacity, IfOk, OnOk, OnErr};
ghost use Rattle.jm_events.specs.Chains.{hashes_of, chain_of, IsLast, AreChains};

use jm_model::NoMemory;
use std::alloc::Global;
use std::marker::Model;

/// How many chains there are at least, where there is a hash.
const FEWEST: u32 = 16;

/// A hash, and one more than the last number before it in its chain, or 0 where there is none.
#[derive(Clone, Copy)]
pub struct Link {
    hash: u32,
    before: u32,
}

/// Hashes by their numbers. Numbers of equal hashes stand in one chain, which is walked from the last one back.
#[derive(Drop)]
pub(crate) struct Chains {
    links: Vec<Link>,
    heads: Vec<u32>,
}

impl Model for Chains {
    ghost use Rattle.std.specs.Prelude.{length, min, vec_capacity};
    ghost use Rattle.jm_events.specs.Chains.{Hashes};

    ghost Value = { Hashes };

    ghost use Rattle.jm_events.specs.Chains.{hashes_of, AreChains};

    ghost view = { λ c. record {
      hashes = hashes_of c.links.items;
      chains = length c.heads.items;
      room = min (vec_capacity c.links) (length c.heads.items);
    } };

    ghost invariant = { λ c. AreChains c.links.items c.heads.items };
}

impl Chains {
    /// No hash.
    pub(crate) fn new(alloc: Global) -> Chains
        ensures { result.hashes ≡ [] }
    {
        Chains {
            links: Vec::new(alloc),
            heads: Vec::new(alloc),
        }
    }

    /// One more than the last number in the chain of a hash, or 0 where there is none.
    #[inline(always)]
    pub(crate) fn first(&self, hash: u32) -> u32
        ensures { IsLast self.now.hashes self.now.chains (chain_of self.now.chains hash)
            (length self.now.hashes) result }
    {
        if self.heads.is_empty() {
            return 0;
        }
        self.heads[chain_of(self.heads.len(), hash)]
    }

    /// The hash of a number.
    #[inline(always)]
    pub(crate) fn hash(&self, number: u32) -> u32
        requires { number < length self.now.hashes }
        ensures { result ≡ slice_index self.now.hashes number }
    {
        self.links[number as usize].hash
    }

    /// One more than the last number before this one in its chain, or 0 where there is none.
    #[inline(always)]
    pub(crate) fn before(&self, number: u32) -> u32
        requires { number < length self.now.hashes }
        ensures { IsLast self.now.hashes self.now.chains
            (chain_of self.now.chains (slice_index self.now.hashes number)) number result }
    {
        self.links[number as usize].before
    }

    /// Makes room for one more hash.
    #[inline(always)]
    pub(crate) fn reserve(&mut self) -> Result<(), NoMemory>
        requires { length self.old.hashes < 2 ^ 32 - 1 }
        ensures unchanged { self.new.hashes ≡ self.old.hashes }
        ensures room { OnOk result (length self.new.hashes < self.new.room) }
    {
        self.links.reserve(1)?;
        if self.links.len() >= self.heads.len() {
            self.heads = linked(*self.links.allocator(), &mut self.links)?;
        }
        Ok(())
    }

    /// Adds a hash at the end, where there is room.
    #[inline(always)]
    pub(crate) fn push_reserved(&mut self, hash: u32)
        requires bounded { length self.old.hashes < 2 ^ 32 - 1 }
        requires room { length self.old.hashes < self.old.room }
        ensures { self.new.hashes ≡ self.old.hashes ++ hash ∷ [] }
    {
        let number = self.links.len() as u32;
        let before = enter(&mut self.heads, number, hash);
        self.links.push_reserved(Link { hash, before });
    }

    /// Equal hashes, under equal numbers.
    pub(crate) fn copy(&self) -> Result<Chains, NoMemory>
        ensures { IfOk result (λ copy. copy.hashes ≡ self.now.hashes) }
    {
        let links = self.links.clone()?;
        let heads = self.heads.clone()?;
        Ok(Chains { links, heads })
    }
}

/// The heads of twice as many chains as there are hashes, which are put into them.
#[inline(never)]
fn linked(alloc: Global, links: &mut Vec<Link>) -> Result<Vec<u32>, NoMemory>
    requires { length links.old.items < 2 ^ 32 - 1 }
    ensures unchanged { hashes_of links.new.items ≡ hashes_of links.old.items }
    ensures chains { IfOk result (λ heads. AreChains links.new.items heads.items) }
    ensures more { IfOk result (λ heads. length links.new.items < length heads.items) }
    ensures err { OnErr result (links.new.items ≡ links.old.items) }
    ensures room { vec_capacity links.new ≡ vec_capacity links.old }
{
    let size = (links.len() as u32).saturating_mul(2).max(FEWEST);
    let mut heads = vec![in alloc; 0u32; size as usize]?;
    enter_all(links, &mut heads);
    Ok(heads)
}

/// Puts hashes into chains that have none.
fn enter_all(links: &mut Vec<Link>, heads: &mut Vec<u32>)
    requires fits { length links.old.items < 2 ^ 32 - 1 }
    requires bounded { length heads.old.items < 2 ^ 32 }
    requires enough { length links.old.items ≤ length heads.old.items }
    requires empty { heads.old.items ≡ replicate (length heads.old.items) 0 }
    ensures unchanged { hashes_of links.new.items ≡ hashes_of links.old.items }
    ensures chains { AreChains links.new.items heads.new.items }
    ensures sizes { (vec_len links.new ≡ vec_len links.old) × (vec_len heads.new ≡ vec_len heads.old) }
    ensures room { vec_capacity links.new ≡ vec_capacity links.old }
{
    for number in 0..links.len() {
        let hash = links[number].hash;
        let before = enter(heads, number as u32, hash);
        set_link(links, number, Link { hash, before });
    }
}

/// Puts a link in the place of that of a number.
#[inline(always)]
fn set_link(links: &mut Vec<Link>, number: usize, link: Link)
    requires { number < vec_len links.old }
    ensures links { links.new.items ≡ slice_set links.old.items number link }
    ensures len { vec_len links.new ≡ vec_len links.old }
    ensures room { vec_capacity links.new ≡ vec_capacity links.old }
{
    links[number] = link;
}

/// Puts a number in front of the chain of its hash, and answers what stood there.
#[inline(always)]
fn enter(heads: &mut Vec<u32>, number: u32, hash: u32) -> u32
    requires some { 0 < length heads.old.items }
    requires bounded { length heads.old.items < 2 ^ 32 }
    requires number { number < 2 ^ 32 - 1 }
    ensures before { result ≡ slice_index heads.old.items (chain_of (length heads.old.items) hash) }
    ensures heads { heads.new.items ≡ slice_set heads.old.items (chain_of (length heads.old.items) hash) (number + 1) }
    ensures within { chain_of (length heads.old.items) hash < length heads.old.items }
    ensures len { vec_len heads.new ≡ vec_len heads.old }
{
    let chain = chain_of(heads.len(), hash);
    let before = heads[chain];
    heads[chain] = number + 1;
    before
}

/// The chain of a hash, out of the given number of chains.
#[inline(always)]
fn chain_of(chains: usize, hash: u32) -> usize
    requires some { 0 < chains }
    requires bounded { chains < 2 ^ 32 }
    ensures value { result ≡ chain_of chains hash }
    ensures within { result < chains }
{
    ((hash as u64 * chains as u64) >> 32) as usize
}
