//! Laws of the definitions, on functions that do nothing.
ghost use Rattle.std.specs.Prelude.{ℕ, ◌≡◌, List, Ok};
ghost use Rattle.std.specs.Cmp.{IsTotalOrder};
ghost use Rattle.jm_model.specs.declared.fault.SpecFault.{SpecFault};
ghost use Rattle.jm_model.specs.declared.fault.SpecError.TheVariants.{Bad};
ghost use Rattle.jm_text.specs.declared.token.Token.{Token};
ghost use Rattle.jm_events.specs.Events.{EventDefinitions};
ghost use Rattle.jm_table.specs.Graphs.{reached_by};
ghost use Rattle.jm_ere.specs.Expressions.{Expression};
ghost use Rattle.jm_ere.specs.NormalForms.{order, forms_of};
ghost use Rattle.jm_ere.specs.Normality.{IsNormal};
ghost use Rattle.jm_ere.specs.Formulas.{Formula};
ghost use Rattle.jm_ere.specs.Spelling.{Spells};
ghost use Rattle.jm_ere.specs.Readings.{IsReadFrom, IsRefused};

/// One reading: no tokens spell two formulas, so none have two expressions, and none have both an expression and a
/// fault.
pub fn one_reading()
    ensures formulas { (bytes : List ℕ) (tokens : List Token) (f g : Formula) → Spells bytes tokens f
        → Spells bytes tokens g → f ≡ g }
    ensures expressions { (bytes : List ℕ) (tokens : List Token) (table : EventDefinitions) (d e : Expression) →
        IsReadFrom bytes tokens table d → IsReadFrom bytes tokens table e → d ≡ e }
    ensures never_both { (bytes : List ℕ) (tokens : List Token) (table : EventDefinitions) (e : Expression)
        (fault : SpecFault) →
        IsReadFrom bytes tokens table e → IsRefused bytes tokens table (Bad fault) → ⊥ }
{}

/// The order in which the members of a run stand is a total one: so members have one order, and none stands twice.
#[tactic(auto, using(crate::proofs::OrderLaws::order_total))]
pub fn one_order()
    ensures { IsTotalOrder order }
{}

/// What is reached is normal: no rule is left to apply.
pub fn forms_are_normal()
    ensures { (e d : Expression) (word : List ℕ) → reached_by (forms_of e) word ≡ Ok d → IsNormal d }
{}
