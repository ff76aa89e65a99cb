ghost use Rattle.std.specs.Prelude.{◌≡◌, ◌<◌};
ghost use Rattle.jm_ere.specs.NormalForms.{forms_of, mixed, key_of};
ghost use Rattle.jm_ere.specs.Trees.{expression_of};

use crate::derivative::{derivative, normal_form};
use crate::order::is_same;
use crate::tree::{Ere, Operator, Tree};
use jm_model::{Letter, SpecError};
use jm_table::Graph;
use std::alloc::Global;

/// The normal form of an expression and all derivatives as nodes.
#[derive(Drop)]
pub(crate) struct Forms {
    pub(crate) alloc: Global,
    pub(crate) ere: Ere,
}

impl Graph for Forms {
    type Node = Ere;

    type Data = Ere;

    ghost data_of = { λ g e. e };

    ghost meaning = { λ g. forms_of g.ere };

    ghost key_of = { λ g e. key_of e };

    fn start(&self) -> Result<Ere, SpecError> {
        let tree = normal_form(self.alloc, &self.ere.tree)?;
        Ok(Ere::new(tree))
    }

    fn step(&self, node: &Ere, letter: Letter) -> Result<Ere, SpecError> {
        let tree = derivative(self.alloc, &node.tree, letter)?;
        Ok(Ere::new(tree))
    }

    fn same(&self, a: &Ere, b: &Ere) -> bool {
        is_same(&a.tree, &b.tree)
    }

    fn key(&self, node: &Ere) -> u64 {
        key_of(&node.tree)
    }
}

/// A key of the keys of two parts and of the number of a kind.
fn mixed(kind: u64, first: u64, second: u64) -> u64
    requires kind { kind < 16 }
    requires first { first < 4294967291 }
    requires second { second < 4294967291 }
    ensures value { result ≡ mixed kind first second }
    ensures within { result < 4294967291 }
{
    (first * 16_777_619 + second * 40_503 + kind) % 4_294_967_291
}

/// A key, by which known forms are looked up.
fn key_of(tree: &Tree) -> u64
    ensures value { result ≡ key_of (expression_of tree.now) }
    ensures within { result < 4294967291 }
{
    match tree {
        Tree::Letter(letter) => mixed(8, u64::from(letter.0), 0),
        Tree::Epsilon => 1,
        Tree::Empty => 2,
        Tree::Not(r) => mixed(3, key_of(r), 0),
        Tree::Star(r) => mixed(4, key_of(r), 0),
        Tree::Plus(r) => mixed(5, key_of(r), 0),
        Tree::Then(r, s) => mixed(6, key_of(r), key_of(s)),
        Tree::Combined(Operator::Or, r, s) => mixed(7, key_of(r), key_of(s)),
        Tree::Combined(Operator::And, r, s) => mixed(9, key_of(r), key_of(s)),
    }
}
