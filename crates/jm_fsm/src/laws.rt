//! What holds of the formulas of all files.
ghost use Rattle.std.specs.Prelude.{◌≡◌, ℕ, List};
ghost use Rattle.jm_model.specs.declared.fault.SpecFault.{SpecFault};
ghost use Rattle.jm_model.specs.declared.fault.SpecError.TheVariants.{Bad};
ghost use Rattle.jm_text.specs.declared.token.Token.{Token};
ghost use Rattle.jm_events.specs.Events.{EventDefinitions, event_names};
ghost use Rattle.jm_fsm.specs.declared.formula.Part.{Part};
ghost use Rattle.jm_fsm.specs.Spelling.{Spells};
ghost use Rattle.jm_fsm.specs.Faults.{state_names};
ghost use Rattle.jm_fsm.specs.Machines.{StateMachine};
ghost use Rattle.jm_fsm.specs.Readings.{IsReadFrom, IsRefused};
ghost use Rattle.jm_fsm.specs.Written.{AreAsWritten, AreAliasesAsWritten};

/// One reading: no tokens spell two formulas, so none have two machines, and none have both a machine and a fault.
pub fn one_reading()
    ensures formulas { (bytes : List ℕ) (tokens : List Token) (parts other : List Part) → Spells bytes tokens parts
        → Spells bytes tokens other → parts ≡ other }
    ensures machines { (bytes : List ℕ) (tokens : List Token) (table : EventDefinitions) (m n : StateMachine) →
        IsReadFrom bytes tokens table m → IsReadFrom bytes tokens table n → m ≡ n }
    ensures never_both { (bytes : List ℕ) (tokens : List Token) (table : EventDefinitions) (m : StateMachine)
        (fault : SpecFault) →
        IsReadFrom bytes tokens table m → IsRefused bytes tokens table (Bad fault) → ⊥ }
{}

/// A machine that was read is as it is written: its states are those that the formula declares, in order, and each
/// letter leads from a state to the one whose name is after the arrow of its event, else after `default`, else to
/// `fail`.
pub fn states_as_written()
    ensures { (bytes : List ℕ) (tokens : List Token) (table : EventDefinitions) (m : StateMachine)
        → IsReadFrom bytes tokens table m →
        (parts : List Part) × Spells bytes tokens parts
        × AreAsWritten bytes (event_names table) (state_names bytes parts) parts m.states }
{}

/// And so are its aliases: they are those that the formula has, in order, each with the states that it names, in order.
pub fn aliases_as_written()
    ensures { (bytes : List ℕ) (tokens : List Token) (table : EventDefinitions) (m : StateMachine)
        → IsReadFrom bytes tokens table m →
        (parts : List Part) × Spells bytes tokens parts
        × AreAliasesAsWritten bytes (state_names bytes parts) parts m.aliases }
{}
