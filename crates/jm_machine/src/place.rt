//! Where a word leads in what runs one property.
use jm_earley::Chart;

/// Where a word leads in what runs one property.
///
/// A place stands for words by `IsPlaceAfter`. One that stands for no word, as a chart where the property has a table,
/// may be answered anything.
#[derive(Drop)]
pub enum Place {
    /// The place of the empty word.
    Start,
    /// The place of the words that begin with another letter than a creation letter, where there are creation letters.
    /// No word that goes on from there hits.
    Trap,
    /// A state of the table.
    State(u16),
    /// A chart.
    Parse(Chart),
}
