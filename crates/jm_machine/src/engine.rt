//! What runs a formula.
use jm_earley::Charts;
use jm_table::Table;

/// What runs a formula: a table of states, or the charts of a grammar.
#[derive(Drop)]
pub enum Engine {
    /// The states of a state machine, a regular expression or a past-time formula.
    States(Table),
    /// The charts of a grammar.
    Parses(Charts),
}
