//! Regular expressions of rules that may begin anywhere.
ghost use Rattle.std.specs.Prelude.{◌≡◌, ◌↔◌, ℕ, List, IfOk};
ghost use Rattle.jm_ere.specs.Meanings.{InLanguage};
ghost use Rattle.jm_ere.specs.Suffixes.{EndsIn, suffixed};

use jm_ere::Ere;
use jm_model::NoMemory;
use std::alloc::Global;

/// The expression of the words that end in a word of this one, of a letter or more: `~empty (r & ~epsilon)`.
pub fn suffix_ere(alloc: Global, ere: Ere) -> Result<Ere, NoMemory>
    ensures formula { IfOk result (λ e. e ≡ suffixed ere) }
    ensures words { IfOk result (λ e. (word : List ℕ) → InLanguage e word ↔ EndsIn (InLanguage ere) word) }
{
    ere.suffixed(alloc)
}
