//! What holds of the formulas of all files.
ghost use Rattle.std.specs.Prelude.{◌≡◌, ◌<◌, ℕ, Bool, List, Contains, length};
ghost use Rattle.jm_model.specs.declared.step.Letter.{Letter as LetterType};
ghost use Rattle.jm_model.specs.declared.fault.SpecFault.{SpecFault};
ghost use Rattle.jm_model.specs.declared.fault.SpecError.TheVariants.{Bad};
ghost use Rattle.jm_text.specs.declared.token.Token.{Token};
ghost use Rattle.jm_events.specs.Events.{EventDefinitions, event_names};
ghost use Rattle.jm_grammar.specs.declared.formula.Part.{Part};
ghost use Rattle.jm_grammar.specs.declared.grammar.GrammarSymbol.TheVariants.{Letter};
ghost use Rattle.jm_grammar.specs.declared.grammar.Production.{Production};
ghost use Rattle.jm_grammar.specs.Grammars.{GrammarDefinition, IsWithin};
ghost use Rattle.jm_grammar.specs.Spelling.{Spells};
ghost use Rattle.jm_grammar.specs.Faults.{nonterminals, most_nonterminals};
ghost use Rattle.jm_grammar.specs.Readings.{IsReadFrom, IsRefused};
ghost use Rattle.jm_grammar.specs.Written.{AreAsWritten};

/// One reading: no tokens spell two formulas, so none have two grammars, and none have both a grammar and a fault.
pub fn one_reading()
    ensures formulas { (bytes : List ℕ) (tokens : List Token) (parts other : List Part) → Spells bytes tokens parts
        → Spells bytes tokens other → parts ≡ other }
    ensures grammars { (bytes : List ℕ) (tokens : List Token) (table : EventDefinitions) (suffix : Bool)
        (g h : GrammarDefinition) →
        IsReadFrom bytes tokens table suffix g → IsReadFrom bytes tokens table suffix h → g ≡ h }
    ensures never_both { (bytes : List ℕ) (tokens : List Token) (table : EventDefinitions) (suffix : Bool)
        (g : GrammarDefinition) (fault : SpecFault) →
        IsReadFrom bytes tokens table suffix g → IsRefused bytes tokens table suffix (Bad fault) → ⊥ }
{}

/// Each letter of a grammar that was read is that of an event.
pub fn letters_are_events()
    ensures { (bytes : List ℕ) (tokens : List Token) (table : EventDefinitions) (suffix : Bool) (g : GrammarDefinition)
        → IsReadFrom bytes tokens table suffix g →
        (p : Production) → Contains g.productions p → (letter : LetterType) → Contains p.symbols (Letter letter)
        → letter.0 < length table.events }
{}

/// The nonterminals of a grammar that was read are below 64, and below 31 where the rule may begin anywhere.
pub fn nonterminals_are_few()
    ensures { (bytes : List ℕ) (tokens : List Token) (table : EventDefinitions) (suffix : Bool) (g : GrammarDefinition)
        → IsReadFrom bytes tokens table suffix g → IsWithin (most_nonterminals suffix) g }
{}

/// A grammar that was read is as it is written: its productions are the alternatives of the formula, in order, each
/// with the letters and nonterminals that its names say.
pub fn productions_as_written()
    ensures { (bytes : List ℕ) (tokens : List Token) (table : EventDefinitions) (suffix : Bool) (g : GrammarDefinition)
        → IsReadFrom bytes tokens table suffix g →
        (parts : List Part) × Spells bytes tokens parts
        × AreAsWritten bytes (event_names table) (nonterminals bytes parts) parts g.productions }
{}
