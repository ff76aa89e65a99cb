//! The statements of a handler that print.
ghost use Rattle.std.specs.Prelude.{◌≡◌, [], ◌∷◌, ◌++◌, OnOk};

use crate::term::Term;
use jm_model::NoMemory;
use std::alloc::Global;
use std::marker::Model;

/// A statement that prints: its terms in order.
#[derive(Drop)]
pub(crate) struct Statement {
    terms: Vec<Term>,
}

impl Model for Statement {
    ghost use Rattle.std.specs.Prelude.{List};
    ghost use Rattle.jm_handler.specs.declared.term.Term.{Term};

    ghost Value = { List Term };

    ghost view = { λ s. s.terms.items };
}

impl Statement {
    pub(crate) fn new(alloc: Global) -> Statement
        ensures { result ≡ [] }
    {
        Statement {
            terms: Vec::new(alloc),
        }
    }

    /// Adds a term at the end.
    pub(crate) fn push(&mut self, term: Term) -> Result<(), NoMemory>
        ensures { OnOk result (self.new ≡ self.old ++ term ∷ []) }
    {
        Ok(self.terms.push(term)?)
    }

    pub(crate) fn terms(&self) -> &[Term]
        ensures { result.now ≡ self.now }
    {
        self.terms.as_slice()
    }
}

/// What a handler prints when it runs: the statements of its block that print, in order. Contracts see a list of terms
/// for each. A handler without such a statement takes no memory.
#[derive(Drop)]
pub struct Handler {
    statements: Vec<Statement>,
}

impl Model for Handler {
    ghost use Rattle.std.specs.Prelude.{List};
    ghost use Rattle.jm_handler.specs.declared.term.Term.{Term};

    ghost Value = { List (List Term) };

    ghost view = { λ h. h.statements.items };
}

impl Handler {
    pub(crate) fn new(alloc: Global) -> Handler
        ensures { result ≡ [] }
    {
        Handler {
            statements: Vec::new(alloc),
        }
    }

    /// Adds a statement at the end.
    pub(crate) fn push(&mut self, statement: Statement) -> Result<(), NoMemory>
        ensures { OnOk result (self.new ≡ self.old ++ statement ∷ []) }
    {
        Ok(self.statements.push(statement)?)
    }

    pub(crate) fn statements(&self) -> &[Statement]
        ensures { result.now ≡ self.now }
    {
        self.statements.as_slice()
    }
}
