ghost use Rattle.std.specs.Int.{bit_at};
ghost use Rattle.std.specs.Prelude.{ℕ, ◌≡◌, ◌<◌, ◌≤◌, ◌*◌, ◌/◌, ◌%◌, ◌^◌, ◌==◌, Bool, not, true, false, Some, IfOk, length, replicate, slice_get, slice_index, slice_set};

use std::alloc::{AllocError, Global};
use std::marker::Model;

/// The objects 0, 1, 2, .., each alive or dead. Contracts see a list of flags: true where the object is dead.
#[derive(Drop)]
pub struct Objects {
    words: Vec<u64>,
    len: u32,
    /// Whether some object is dead.
    any_dead: bool,
}

impl Model for Objects {
    ghost use Rattle.std.specs.Prelude.{List, Bool};
    ghost use Rattle.jm_objects.specs.Flags.{flags_of, AreSoundFlags};

    ghost Value = { List Bool };

    ghost view = { λ o. flags_of o.len o.words.items };

    ghost invariant = { λ o. AreSoundFlags o.len o.words.items o.any_dead };
}

impl Objects {
    /// The given number of live objects.
    pub fn new(alloc: Global, n: u32) -> Result<Objects, AllocError>
        ensures { IfOk result (λ objects. objects ≡ replicate n false) }
    {
        let words = vec![in alloc; 0u64; (n as usize).div_ceil(64)]?;
        Ok(Objects {
            words,
            len: n,
            any_dead: false,
        })
    }

    /// How many objects there are, dead ones among them.
    pub fn len(&self) -> u32
        ensures { result ≡ length self.now }
    {
        self.len
    }

    /// Whether some object is dead.
    pub fn any_dead(&self) -> bool
        ensures { result ≡ false → (o : ℕ) → slice_get self.now o ≡ Some true → ⊥ }
    {
        self.any_dead
    }

    /// Whether an object is dead.
    pub fn is_dead(&self, object: u32) -> bool
        requires { object < length self.now }
        ensures { slice_get self.now object ≡ Some result }
    {
        (self.words[object as usize / 64] >> (object % 64)) % 2 == 1
    }

    /// The flags of 64 objects: bit k is that of object 64 * index + k, where there is such an object.
    pub fn word(&self, index: u32) -> u64
        requires { 64 * index < length self.now }
        ensures { (k : ℕ) → k < length self.now → k / 64 ≡ index
            → slice_get self.now k ≡ Some (bit_at result (k % 64) == 1) }
    {
        self.words[index as usize]
    }

    /// The flags of all objects, 64 in a word: bit k % 64 of word k / 64 is that of object k.
    pub fn words(&self) -> &[u64]
        ensures room { length self.now ≤ 64 * length result.now }
        ensures flags { (k : ℕ) → k < length self.now
            → slice_get self.now k ≡ Some (bit_at (slice_index result.now (k / 64)) (k % 64) == 1) }
    {
        self.words.as_slice()
    }

    /// Lets an object die, and answers whether it was alive.
    pub fn kill(&mut self, object: u32) -> bool
        requires { object < length self.old }
        ensures answer { slice_get self.old object ≡ Some (not result) }
        ensures dead { self.new ≡ slice_set self.old object true }
    {
        let index = object as usize / 64;
        let word = self.words[index];
        self.words[index] = word | 1 << (object % 64);
        self.any_dead = true;
        (word >> (object % 64)) % 2 == 0
    }
}
