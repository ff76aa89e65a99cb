//! What a formula says, as it is written.
ghost use Rattle.std.specs.Prelude.{◌≡◌};
ghost use Rattle.jm_fsm.specs.Spelling.{is_state};
ghost use Rattle.jm_fsm.specs.Faults.{is_alias, name_token};

use jm_reading::Items;
use jm_text::Token;

/// A transition of a state.
#[derive(Clone, Copy)]
pub enum TransitionText {
    /// An event leads to a destination.
    On { event: Token, destination: Token },
    /// The word `default`, and where it leads.
    Fallback { word: Token, destination: Token },
}

/// A state or an alias.
#[derive(Drop)]
pub enum Part {
    /// A state, with its transitions.
    Declaration {
        name: Token,
        transitions: Items<TransitionText>,
    },
    /// An alias, with its members.
    Alias {
        name: Token,
        members: Items<Token>,
    },
}

impl Part {
    pub fn is_state(&self) -> bool
        ensures { result ≡ is_state self.now }
    {
        match self {
            Part::Declaration { .. } => true,
            Part::Alias { .. } => false,
        }
    }

    pub fn is_alias(&self) -> bool
        ensures { result ≡ is_alias self.now }
    {
        match self {
            Part::Declaration { .. } => false,
            Part::Alias { .. } => true,
        }
    }

    pub fn name_token(&self) -> Token
        ensures { result ≡ name_token self.now }
    {
        match self {
            Part::Declaration { name, .. } => *name,
            Part::Alias { name, .. } => *name,
        }
    }
}
