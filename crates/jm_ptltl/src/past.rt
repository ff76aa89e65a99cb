ghost use Rattle.std.specs.Prelude.{◌≡◌, ◌≤◌, length, IfOk};
ghost use Rattle.jm_ptltl.specs.Categories.{category_names};
ghost use Rattle.jm_ptltl.specs.Formulas.{postfix};

use crate::formula::Node;
use jm_events::Names;
use jm_model::{Letter, NoMemory};
use std::alloc::Global;
use std::marker::Model;

/// A past-time formula of at most 64 subformulas. Contracts see it as its `Formula`.
#[derive(Drop)]
pub struct Past {
    /// The subformulas, each after its parts.
    pub(crate) nodes: Vec<Node<Letter>>,
}

impl Model for Past {
    ghost use Rattle.std.specs.Prelude.{◌≡◌, ◌≤◌, length};
    ghost use Rattle.jm_model.specs.declared.step.Letter.{Letter};
    ghost use Rattle.jm_ptltl.specs.Formulas.{Formula, formula_of, postfix};
    ghost use Rattle.jm_ptltl.specs.Codes.{coded_formula};

    ghost Value = { Formula Letter };

    ghost coded = { coded_formula };

    ghost view = { λ p. formula_of p.nodes.items };

    ghost invariant = { λ p. (postfix (formula_of p.nodes.items) ≡ p.nodes.items) × (length p.nodes.items ≤ 64) };
}

impl Past {
    /// The names of the categories: `validation` and `violation`. The number of a name is the category's group in the
    /// compiled table.
    pub fn categories(&self, alloc: Global) -> Result<Names, NoMemory>
        ensures { IfOk result (λ names. names ≡ category_names) }
    {
        let mut names = Names::new(alloc);
        names.add("validation")?;
        names.add("violation")?;
        Ok(names)
    }

    /// The subformulas, each after its parts: at most 64.
    pub(crate) fn nodes(&self) -> &[Node<Letter>]
        ensures nodes { result.now ≡ postfix self.now }
        ensures bounded { length result.now ≤ 64 }
    {
        self.nodes.as_slice()
    }
}
