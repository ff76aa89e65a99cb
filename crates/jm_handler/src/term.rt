//! What a statement prints.
ghost use Rattle.std.specs.Prelude.{◌≡◌, [], ◌∷◌, ◌++◌, OnOk};

use jm_model::NoMemory;
use std::alloc::Global;
use std::marker::Model;

/// The bytes of a text whose escapes are resolved.
#[derive(Drop)]
pub struct Text {
    bytes: Vec<u8>,
}

impl Model for Text {
    ghost use Rattle.std.specs.Prelude.{List, ℕ};

    ghost Value = { List ℕ };

    ghost view = { λ t. t.bytes.items };
}

impl Text {
    /// No byte.
    pub(crate) fn new(alloc: Global) -> Text
        ensures { result ≡ [] }
    {
        Text {
            bytes: Vec::new(alloc),
        }
    }

    /// Adds a byte at the end.
    pub(crate) fn push(&mut self, byte: u8) -> Result<(), NoMemory>
        ensures { OnOk result (self.new ≡ self.old ++ byte ∷ []) }
    {
        Ok(self.bytes.push(byte)?)
    }

    /// The bytes.
    pub fn as_slice(&self) -> &[u8]
        ensures { result.now ≡ self.now }
    {
        self.bytes.as_slice()
    }
}

/// A term of a statement that prints.
#[derive(Drop)]
pub enum Term {
    /// A text in double quotes.
    Literal(Text),
    /// The object of a parameter, by the parameter's number.
    Parameter(u8),
    /// Where the event stands: the caller's number and the line.
    Place,
}
