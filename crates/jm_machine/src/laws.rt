//! What holds of all trees, and of all rules.
ghost use Rattle.std.specs.Prelude.{ℕ, ◌≡◌, ◌≢◌, ◌⊎◌, ◌↔◌, ◌++◌, ◌∷◌, ◌+◌, ◌<◌, [], List, Some, length, slice_get};
ghost use Rattle.jm_model.specs.declared.fault.SpecFault.{SpecFault};
ghost use Rattle.jm_text.specs.declared.token.Token.{Token};
ghost use Rattle.jm_spec.specs.declared.tree.SpecTree.{SpecTree};
ghost use Rattle.jm_spec.specs.Trees.{IsTreeOfTokens, IsFewProperties};
ghost use Rattle.jm_model.specs.Meanings.{IsCreated, IsHit};
ghost use Rattle.jm_machine.specs.Rests.{IsRest};
ghost use Rattle.jm_machine.specs.PropertyMeanings.{IsInCategory, Resets};
ghost use Rattle.jm_machine.specs.Meanings.{PropertyDefinition, RuleDefinition, IsResetBy, first_of, rules_about, rules_meaning};
ghost use Rattle.jm_machine.specs.Compiling.{IsCompiledFrom, IsFaultyTree};

/// One reading: no tree says two rules, or rules and a fault.
pub fn one_reading()
    ensures one { (bytes : List ℕ) (tokens : List Token) (tree : SpecTree) (r s : RuleDefinition)
        → IsCompiledFrom bytes tokens tree r → IsCompiledFrom bytes tokens tree s → r ≡ s }
    ensures never_both { (bytes : List ℕ) (tokens : List Token) (tree : SpecTree) (r : RuleDefinition)
        (fault : SpecFault) → IsCompiledFrom bytes tokens tree r → IsFaultyTree bytes tokens tree fault → ⊥ }
{}

/// Few properties: the tree of tokens has 1 to 16, so `Rules::compile` may be asked of it.
pub fn few_properties()
    ensures { (bytes : List ℕ) (tokens : List Token) (tree : SpecTree) → IsTreeOfTokens bytes tokens tree
        → IsFewProperties tree }
{}

/// One letter more: a word that begins as it may hits the handlers of a property whose category holds of what is left
/// of the word before its last letter, with that letter. Of the word nothing is left where it hits a handler that
/// resets the property, and else those letters are.
pub fn one_letter_more()
    ensures hit { (r : RuleDefinition) (j : ℕ) (p : PropertyDefinition) → slice_get r.properties j ≡ Some p
        → (w rest : List ℕ) (e i : ℕ) → i < length p.handlers → IsRest (Resets (rules_about r p)) w rest
        → IsCreated (rules_meaning r) (w ++ e ∷ [])
        → IsHit (rules_meaning r) (w ++ e ∷ []) (first_of r.properties j + i)
        ↔ IsInCategory (rules_about r p) (rest ++ e ∷ []) i }
    ensures rest { (r : RuleDefinition) (j : ℕ) (p : PropertyDefinition) → slice_get r.properties j ≡ Some p
        → (w rest : List ℕ) (e : ℕ) (after : List ℕ) → IsRest (Resets (rules_about r p)) w rest
        → IsCreated (rules_meaning r) (w ++ e ∷ []) → IsRest (Resets (rules_about r p)) (w ++ e ∷ []) after
        ↔ ((IsResetBy r j p (w ++ e ∷ []) × (after ≡ []))
        ⊎ ((IsResetBy r j p (w ++ e ∷ []) → ⊥) × (after ≡ rest ++ e ∷ []))) }
{}

/// Without resets: where no handler resets a property, a word that isn't empty and begins as it may hits the handlers
/// of the property whose category holds of it.
pub fn without_resets()
    ensures { (r : RuleDefinition) (j : ℕ) (p : PropertyDefinition) → slice_get r.properties j ≡ Some p
        → (w : List ℕ) (i : ℕ) → i < length p.handlers → p.resets ≡ [] →
        IsHit (rules_meaning r) w (first_of r.properties j + i)
        ↔ ((w ≢ []) × IsCreated (rules_meaning r) w × IsInCategory (rules_about r p) w i) }
{}
