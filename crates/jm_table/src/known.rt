ghost use Rattle.std.specs.Prelude.{ℕ, ◌≡◌, ◌%◌, ◌⊎◌, [], ◌∷◌, ◌++◌, IfOk, OnOk};
ghost use Rattle.jm_table.specs.Buckets.{bucket_of};

use jm_model::NoMemory;
use std::alloc::Global;
use std::marker::Model;

const BUCKETS: u64 = 1024;

/// The numbers of known nodes, in buckets by the low bits of their keys.
#[derive(Drop)]
pub(crate) struct Known {
    buckets: Vec<Vec<u16>>,
}

impl Model for Known {
    ghost use Rattle.std.specs.Prelude.{ℕ, ◌≡◌, List, map, length};
    ghost use Rattle.jm_table.specs.declared.known.TheConstants.{BUCKETS};

    ghost Value = { List (List ℕ) };

    ghost view = { λ k. map (λ bucket. bucket.items) k.buckets.items };

    ghost invariant = { λ k. length k.buckets.items ≡ BUCKETS };
}

impl Known {
    /// No number.
    pub(crate) fn new(alloc: Global) -> Result<Known, NoMemory>
        ensures { IfOk result (λ known. (key : ℕ) → bucket_of known key ≡ []) }
    {
        let mut buckets = Vec::with_capacity(alloc, BUCKETS as usize)?;
        for _made in 0..BUCKETS {
            buckets.push(Vec::new(alloc))?;
        }
        Ok(Known { buckets })
    }

    /// The numbers in the bucket of a key.
    pub(crate) fn bucket(&self, key: u64) -> &[u16]
        ensures { result.now ≡ bucket_of self.now key }
    {
        self.buckets[(key % BUCKETS) as usize].as_slice()
    }

    /// Puts a number into the bucket of a key.
    pub(crate) fn add(&mut self, key: u64, number: u16) -> Result<(), NoMemory>
        ensures at_key { OnOk result (bucket_of self.new key ≡ bucket_of self.old key ++ number ∷ []) }
        ensures others { OnOk result ((q : ℕ) → (bucket_of self.new q ≡ bucket_of self.old q)
            ⊎ (bucket_of self.new q ≡ bucket_of self.old q ++ number ∷ [])) }
    {
        let bucket = &mut self.buckets[(key % BUCKETS) as usize];
        bucket.push(number)?;
        Ok(())
    }
}
