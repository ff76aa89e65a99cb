//! A regular expression as a tree, and what becomes of it where a rule may begin anywhere.
ghost use Rattle.std.specs.Prelude.{ℕ, ◌≡◌, ◌↔◌, List, IfOk};
ghost use Rattle.jm_ere.specs.Meanings.{InLanguage};
ghost use Rattle.jm_ere.specs.Suffixes.{EndsIn, suffixed};
ghost use Rattle.jm_ere.specs.Trees.{expression_of};

use crate::forms::copy;
use jm_model::{Letter, NoMemory};
use std::alloc::Global;
use std::marker::Model;

/// `|` and `&`.
#[derive(Clone, Copy)]
pub enum Operator {
    Or,
    And,
}

/// A regular expression, or a part of one.
#[derive(Drop)]
pub enum Tree {
    /// The word of one letter.
    Letter(Letter),
    /// The empty word alone.
    Epsilon,
    /// No word.
    Empty,
    /// The words that the part hasn't.
    Not(Box<Tree>),
    /// Any number of words one after the other.
    Star(Box<Tree>),
    /// One word or more, one after the other.
    Plus(Box<Tree>),
    /// A word of the first part and then one of the second.
    Then(Box<Tree>, Box<Tree>),
    /// The words of either part, or those of both.
    Combined(Operator, Box<Tree>, Box<Tree>),
}

/// A regular expression. Contracts see it as its `Expression`.
#[derive(Drop)]
pub struct Ere {
    pub(crate) tree: Tree,
}

impl Model for Ere {
    ghost use Rattle.jm_ere.specs.Expressions.{Expression};
    ghost use Rattle.jm_ere.specs.Codes.{expression_code};
    ghost use Rattle.jm_ere.specs.Trees.{expression_of};

    ghost Value = { Expression };

    ghost coded = { expression_code };

    ghost view = { λ e. expression_of e.tree };
}

impl Ere {
    /// The expression of a tree.
    pub(crate) fn new(tree: Tree) -> Ere
        ensures { result ≡ expression_of tree }
    {
        Ere { tree }
    }
    /// An equal expression.
    pub fn copy(&self, alloc: Global) -> Result<Ere, NoMemory>
        ensures { IfOk result (λ e. e ≡ self.now) }
    {
        match copy(alloc, &self.tree) {
            Ok(tree) => Ok(Ere::new(tree)),
            Err(_) => Err(NoMemory),
        }
    }

    /// `~empty (r & ~epsilon)`, where this expression is r: the words that end in a word of this expression that has
    /// one letter or more.
    pub fn suffixed(self, alloc: Global) -> Result<Ere, NoMemory>
        ensures formula { IfOk result (λ e. e ≡ suffixed self) }
        ensures words { IfOk result (λ e. (word : List ℕ) → InLanguage e word ↔ EndsIn (InLanguage self) word) }
    {
        let front = Tree::Not(Box::new(alloc, Tree::Empty)?);
        let some = Tree::Not(Box::new(alloc, Tree::Epsilon)?);
        let back = Tree::Combined(
            Operator::And,
            Box::new(alloc, self.tree)?,
            Box::new(alloc, some)?,
        );
        Ok(Ere::new(Tree::Then(Box::new(alloc, front)?, Box::new(alloc, back)?)))
    }
}
