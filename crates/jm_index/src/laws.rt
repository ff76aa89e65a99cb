//! What is proved of the definitions alone.
ghost use Rattle.std.specs.Prelude.{◌≡◌, ℕ, Bool, List, true, false, Contains, slice_set};
ghost use Rattle.jm_index.specs.Index.{Pair, PairList, flag_of, Binds, IsKey, IsFitting};

/// An index that fits a table of objects fits it after a death.
pub fn fits_after_death()
    ensures { (index : PairList) (dead : List Bool) (o : ℕ) → IsFitting index dead
        → IsFitting index (slice_set dead o true) }
{}

/// Over a table that an index fits, each live object of a pair is a key.
pub fn live_objects_are_keys()
    ensures { (index : PairList) (dead : List Bool) (pair : Pair) (o : ℕ) → IsFitting index dead
        → Contains index.list pair → Binds pair.binding o → flag_of dead o ≡ false → IsKey index o }
{}
