//! What holds of the formulas of all files.
ghost use Rattle.std.specs.Prelude.{◌≡◌, ℕ, List};
ghost use Rattle.jm_model.specs.declared.step.Letter.{Letter};
ghost use Rattle.jm_model.specs.declared.fault.SpecFault.{SpecFault};
ghost use Rattle.jm_model.specs.declared.fault.SpecError.TheVariants.{Bad};
ghost use Rattle.jm_text.specs.declared.token.Token.{Token};
ghost use Rattle.jm_events.specs.Events.{EventDefinitions};
ghost use Rattle.jm_ptltl.specs.Formulas.{Formula};
ghost use Rattle.jm_ptltl.specs.Spelling.{Spells};
ghost use Rattle.jm_ptltl.specs.Readings.{IsReadFrom, IsRefused};

/// One reading: no tokens spell two formulas, so none have two formulas over letters, and none have both such a formula
/// and a fault.
pub fn one_reading()
    ensures formulas { (bytes : List ℕ) (tokens : List Token) (f g : Formula Token) → Spells bytes tokens f
        → Spells bytes tokens g → f ≡ g }
    ensures letters { (bytes : List ℕ) (tokens : List Token) (table : EventDefinitions) (f g : Formula Letter) →
        IsReadFrom bytes tokens table f → IsReadFrom bytes tokens table g → f ≡ g }
    ensures never_both { (bytes : List ℕ) (tokens : List Token) (table : EventDefinitions) (f : Formula Letter)
        (fault : SpecFault) →
        IsReadFrom bytes tokens table f → IsRefused bytes tokens table (Bad fault) → ⊥ }
{}
