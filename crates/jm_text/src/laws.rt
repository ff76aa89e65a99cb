//! What holds of the tokens of every file.
ghost use Rattle.std.specs.Prelude.{◌≡◌, ◌⊎◌, ℕ, List, IsUtf8};
ghost use Rattle.jm_text.specs.declared.token.Token.{Token};
ghost use Rattle.jm_text.specs.Tokens.{AreTokensOf, IsOpenOn};

/// One reading: a file has one list of tokens, or else one line on which the first text or comment that
/// isn't closed opens, and never both.
pub fn one_reading()
    ensures list { (bytes : List ℕ) (tokens others : List Token) → AreTokensOf bytes tokens → AreTokensOf bytes others
        → tokens ≡ others }
    ensures line { (bytes : List ℕ) (line other : ℕ) → IsOpenOn bytes line → IsOpenOn bytes other → line ≡ other }
    ensures never_both { (bytes : List ℕ) (tokens : List Token) (line : ℕ) → AreTokensOf bytes tokens
        → IsOpenOn bytes line → ⊥ }
    ensures either { (bytes : List ℕ) → IsUtf8 bytes → ((tokens : List Token) × AreTokensOf bytes tokens)
        ⊎ ((line : ℕ) × IsOpenOn bytes line) }
{}
