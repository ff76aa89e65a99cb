//! Sets of nonterminals as bits, and rules that add to them until they stay.
ghost use Rattle.std.specs.Prelude.{ℕ, ◌≡◌, ◌<◌, ◌↔◌, IsBitSet};
ghost use Rattle.jm_grammar.specs.Rounds.{has_bit};
ghost use Rattle.jm_earley.specs.Rules.{only, has, no_rule, IsGained};

/// The set of one nonterminal, which is below 64.
pub(crate) fn only(n: u8) -> u64
    ensures { result ≡ only n }
{
    if n < 64 { 1 << n } else { 0 }
}

/// Whether a set, of which bit k stands for number k, has this number.
#[inline(always)]
pub(crate) fn contains(set: u64, number: u8) -> bool
    requires { number < 64 }
    ensures { result ≡ has_bit set number }
{
    (set >> number) % 2 == 1
}

/// Whether a nonterminal is in a set.
pub(crate) fn has(known: u64, n: u8) -> bool
    ensures { result ≡ has known n }
{
    n < 64 && contains(known, n)
}

/// What is gained always, or where one of some nonterminals was gained.
#[derive(Clone, Copy)]
pub(crate) struct Rule {
    pub gives: u64,
    pub any: u64,
    pub always: bool,
}

/// A rule that gives nothing.
pub(crate) fn no_rule() -> Rule
    ensures { result ≡ no_rule }
{
    Rule {
        gives: 0,
        any: 0,
        always: false,
    }
}

/// What the rules add in all.
pub(crate) fn gained(rules: &[Rule]) -> u64
    ensures { (n : ℕ) → IsBitSet result n ↔ IsGained rules.now n }
{
    let mut known = 0;
    'rounds: loop {
        let mut next = known;
        for rule in rules {
            if rule.always || rule.any & next != 0 {
                next |= rule.gives;
            }
        }
        if next == known {
            return known;
        }
        known = next;
    }
}
