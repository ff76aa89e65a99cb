//! What can be wrong with a specification or a script.
ghost use Rattle.std.specs.Prelude.{◌≡◌};

use crate::step::NoMemory;
use std::alloc::{AllocError, AllocFailed};

/// What a specification has too many of.
#[derive(Clone, Copy, Debug, PartialEq, Eq)]
pub enum Counted {
    Parameters,
    Events,
    Handlers,
    Aliases,
    Nodes,
    Nesting,
    Term,
    Subformulas,
    Nonterminals,
    Productions,
    Symbols,
    Properties,
}

/// What is wrong with a specification. A line is that of the first token that offends, counted from 1.
#[derive(Clone, Copy, Debug, PartialEq, Eq)]
pub enum SpecFault {
    TooLong,
    NotUtf8,
    OpenText { line: u32 },
    Syntax { line: u32 },
    UnsupportedModifier { line: u32 },
    UnsupportedAdvice { line: u32 },
    NoProperty,
    UnsupportedLogic { line: u32 },
    DuplicateParameter { line: u32 },
    DuplicateEvent { line: u32 },
    DuplicateState { line: u32 },
    DuplicateTransition { line: u32 },
    DuplicateHandler { line: u32 },
    UnknownName { line: u32 },
    UnknownCategory { line: u32 },
    NameClash { line: u32 },
    ReservedName { line: u32 },
    ResetWithFullBinding { line: u32 },
    UnsupportedSuffix { line: u32 },
    TooMany { what: Counted },
    TooManyStates,
    DuplicateSpec,
}

/// Why a specification was not read.
#[derive(Clone, Copy, Debug, PartialEq, Eq)]
pub enum SpecError {
    Bad(SpecFault),
    NoMemory,
}

impl From<SpecFault> for SpecError {
    ghost use Rattle.jm_model.specs.declared.fault.SpecError.TheVariants.{Bad};

    ghost from_gives = { λ fault error. error ≡ Bad fault };

    fn from(fault: SpecFault) -> SpecError {
        SpecError::Bad(fault)
    }
}

impl From<NoMemory> for SpecError {
    ghost use Rattle.jm_model.specs.declared.fault.SpecError.TheVariants.{NoMemory};

    ghost from_gives = { λ _ error. error ≡ NoMemory };

    fn from(_refused: NoMemory) -> SpecError {
        SpecError::NoMemory
    }
}

impl From<AllocError> for SpecError {
    ghost use Rattle.jm_model.specs.declared.fault.SpecError.TheVariants.{NoMemory};

    ghost from_gives = { λ _ error. error ≡ NoMemory };

    fn from(_refused: AllocError) -> SpecError {
        SpecError::NoMemory
    }
}

impl<T: Drop> From<AllocFailed<T>> for SpecError {
    ghost use Rattle.jm_model.specs.declared.fault.SpecError.TheVariants.{NoMemory};

    ghost from_gives = { λ _ error. error ≡ NoMemory };

    fn from(_refused: AllocFailed<T>) -> SpecError {
        SpecError::NoMemory
    }
}

/// What is wrong with a script: the first fault of the first line that has one. Lines are counted from 1.
#[derive(Clone, Copy, Debug, PartialEq, Eq)]
pub enum ScriptFault {
    TooLong,
    BadLine { line: u32 },
    UnknownSpec { line: u32 },
    UnknownEvent { line: u32 },
    WrongCount { line: u32 },
    TooManyObjects { line: u32 },
    TooManyLines { line: u32 },
    TooManyNotes { line: u32 },
    DuplicatePost { line: u32 },
    Stuck { line: u32 },
}

/// Why a script was not read.
#[derive(Clone, Copy, Debug, PartialEq, Eq)]
pub enum ScriptError {
    Bad(ScriptFault),
    NoMemory,
}

impl From<NoMemory> for ScriptError {
    ghost use Rattle.jm_model.specs.declared.fault.ScriptError.TheVariants.{NoMemory};

    ghost from_gives = { λ _ error. error ≡ NoMemory };

    fn from(_refused: NoMemory) -> ScriptError {
        ScriptError::NoMemory
    }
}

impl From<AllocError> for ScriptError {
    ghost use Rattle.jm_model.specs.declared.fault.ScriptError.TheVariants.{NoMemory};

    ghost from_gives = { λ _ error. error ≡ NoMemory };

    fn from(_refused: AllocError) -> ScriptError {
        ScriptError::NoMemory
    }
}

impl<T: Drop> From<AllocFailed<T>> for ScriptError {
    ghost use Rattle.jm_model.specs.declared.fault.ScriptError.TheVariants.{NoMemory};

    ghost from_gives = { λ _ error. error ≡ NoMemory };

    fn from(_refused: AllocFailed<T>) -> ScriptError {
        ScriptError::NoMemory
    }
}
