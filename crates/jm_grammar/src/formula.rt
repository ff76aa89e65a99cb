//! What a formula says, as it is written.
use jm_reading::Items;
use jm_text::Token;

/// A left side, and its alternatives, each of which is a list of symbols.
#[derive(Drop)]
pub struct Part {
    pub left: Token,
    pub alternatives: Items<Items<Token>>,
}
