//! What holds of the frames of all files.
ghost use Rattle.std.specs.Prelude.{◌≡◌, ◌<◌, ℕ, List, Some, None, take};
ghost use Rattle.jm_model.specs.declared.fault.SpecFault.{SpecFault};
ghost use Rattle.jm_text.specs.declared.token.Token.{Token};
ghost use Rattle.jm_spec.specs.declared.frame.Frame.{Frame};
ghost use Rattle.jm_spec.specs.declared.tree.SpecTree.{SpecTree};
ghost use Rattle.jm_spec.specs.Runs.{member_length};
ghost use Rattle.jm_spec.specs.Balance.{EndsMember};
ghost use Rattle.jm_spec.specs.Spelling.{Spells};
ghost use Rattle.jm_spec.specs.Trees.{IsTreeOfTokens, IsFaultOfTokens};

use jm_model::SpecError;

/// One reading: no tokens spell two frames, or have a tree and a fault.
pub fn one_reading()
    ensures frame { (bytes : List ℕ) (tokens : List Token) (frame other : Frame) → Spells bytes tokens frame
        → Spells bytes tokens other → frame ≡ other }
    ensures never_both { (bytes : List ℕ) (tokens : List Token) (tree : SpecTree) (fault : SpecFault)
        → IsTreeOfTokens bytes tokens tree → IsFaultOfTokens bytes tokens (SpecError.Bad fault) → ⊥ }
{}

/// A member is the shortest front that is balanced and ends with a `;` or a block outside brackets; there is none where
/// no front does.
pub fn member_ends()
    ensures found { (bytes : List ℕ) (tokens : List Token) (n : ℕ) → member_length bytes tokens ≡ Some n
        → EndsMember bytes (take n tokens) }
    ensures first { (bytes : List ℕ) (tokens : List Token) (n k : ℕ) → member_length bytes tokens ≡ Some n → k < n
        → EndsMember bytes (take k tokens) → ⊥ }
    ensures none { (bytes : List ℕ) (tokens : List Token) (k : ℕ) → member_length bytes tokens ≡ None
        → EndsMember bytes (take k tokens) → ⊥ }
{}
