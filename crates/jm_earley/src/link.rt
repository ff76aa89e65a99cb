//! What an item says of the nonterminal after its dot.
ghost use Rattle.std.specs.Prelude.{◌≡◌, drop};
ghost use Rattle.jm_earley.specs.Links.{link_of};

use crate::item::Item;
use crate::letter_set::LetterSet;
use jm_grammar::{GrammarSymbol, Production};

/// The nonterminal after an item's dot, where the symbols after it spell a word of some letters, and whether they
/// spell one of one or more.
#[derive(Clone, Copy)]
pub(crate) struct Link {
    pub left: u8,
    pub next: u8,
    pub goes_on: bool,
}

/// The symbols from the dot on.
pub(crate) fn behind(symbols: &[GrammarSymbol], dot: u8) -> &[GrammarSymbol]
    ensures { result.now ≡ drop dot symbols.now }
{
    let dot = usize::from(dot);
    if dot < symbols.len() {
        &symbols[dot..]
    } else {
        &symbols[symbols.len()..]
    }
}

/// The nonterminal after the item's dot.
pub(crate) fn link_of(productions: &[Production], set: LetterSet, item: Item) -> Option<Link>
    ensures { result ≡ link_of productions.now set item }
{
    let production = productions.get(usize::from(item.production))?;
    match behind(production.symbols.as_slice(), item.dot) {
        [GrammarSymbol::Nonterminal(next), back @ ..] if set.can_spell(back) => Some(Link {
            left: production.left,
            next: *next,
            goes_on: set.can_go_on(back),
        }),
        _ => None,
    }
}
