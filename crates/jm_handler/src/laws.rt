//! What holds of the tokens of every block.
ghost use Rattle.std.specs.Prelude.{◌≡◌, ℕ, List};
ghost use Rattle.jm_text.specs.declared.token.Token.{Token};
ghost use Rattle.jm_handler.specs.declared.term.Term.{Term};
ghost use Rattle.jm_handler.specs.Blocks.{Says};

/// One reading: the tokens of each block say something, and no two things.
pub fn one_reading()
    ensures some { (bytes : List ℕ) (parameters : List (List ℕ)) (tokens : List Token)
        → (printed : List (List Term)) × Says bytes parameters tokens printed }
    ensures one { (bytes : List ℕ) (parameters : List (List ℕ)) (tokens : List Token)
        → (printed others : List (List Term))
        → Says bytes parameters tokens printed → Says bytes parameters tokens others → printed ≡ others }
{}
