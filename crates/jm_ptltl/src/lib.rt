//! Past-time temporal formulas, one of the four logics.
//!
//! `read` reads a formula, a `Past`, from its tokens. `Past::categories` names what handlers may be written for, and
//! `Past::compile` makes a table whose states are the truths of all subformulas at the last position, with a group for
//! each category. What the tokens spell and where a formula is true stands in `specs`, apart from the reader and from
//! any table: the grammar as a relation, and truth at a position of a word. That a state is known by the truths of all
//! subformulas alone is the method of Havelund and Rosu (2002).
#![tactic(auto)]

mod check;
mod compile;
mod formula;
mod graph;
mod laws;
mod lexicon;
mod parse;
mod past;
mod reads;
mod resolve;
mod vector;

pub use laws::one_reading;
pub use past::Past;
pub use reads::read;
