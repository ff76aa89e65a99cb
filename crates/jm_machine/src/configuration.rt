//! A state of the rules.
use crate::place::Place;

/// Where a word leads in the rules, which is a place of each property. It takes 16 bytes.
///
/// A configuration stands for words by `IsConfigurationOf`. One that stands for no word, as a state of a table where
/// the rules have several properties, may be answered anything.
#[derive(Drop)]
pub enum Configuration {
    /// The configuration of the empty word.
    Start,
    /// The configuration of the words that begin with another letter than a creation letter, where there are creation
    /// letters. No word that goes on from there hits.
    Trap,
    /// A state of the table, where there is one property.
    State(u16),
    /// The place of the one property.
    Single(Box<Place>),
    /// The places of all properties, in their order.
    Several(Box<Vec<Place>>),
}
