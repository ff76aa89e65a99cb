//! The value that is kept under the lock.
ghost use Rattle.std.specs.Prelude.{◌≡◌, ◌%◌, ◌^◌, ℕ, [], length, IfSome};
ghost use Rattle.test_turn.specs.Chains.{in_order};

use jm_turn::{Act, Kept};
use std::alloc::Global;
use std::mem;

/// Callers' numbers, the newest first.
#[derive(Drop)]
pub enum Chain {
    End,
    More(u32, Box<Chain>),
}

/// The callers of all turns that there were.
#[derive(Drop)]
pub struct Tally {
    pub chain: Chain,
    pub turns: u64,
    ghost counted: { turns ≡ length (in_order chain) % 2 ^ 64 },
}

impl Tally {
    pub fn new() -> Tally
        ensures { in_order result.chain ≡ [] }
    {
        Tally {
            chain: Chain::End,
            turns: 0,
        }
    }
}

impl Kept for Tally {
    type Entry = u32;

    type Fixed = ();

    ghost use Rattle.std.specs.Prelude.{◌≡◌, ℕ, List};
    ghost use Rattle.test_turn.specs.Chains.{in_order};

    ghost entries = { λ t. in_order t.chain };

    ghost caller_of = { λ e. e };

    ghost fixed_part = { λ t. tt };
}

/// Adds the caller's number, and answers how many there were before, modulo 2^64. The room for it
/// is made beforehand.
#[derive(Drop)]
pub struct Add {
    pub caller: u32,
    room: Box<Chain>,
}

impl Add {
    pub fn new(alloc: Global, caller: u32) -> Option<Add>
        ensures { IfSome result (λ a. a.caller ≡ caller) }
    {
        let room = Box::new(alloc, Chain::End).ok()?;
        Some(Add { caller, room })
    }
}

impl Act<Tally> for Add {
    type Answer = u64;

    ghost use Rattle.std.specs.Prelude.{◌≡◌, ◌%◌, ◌^◌, ℕ, List, length};

    ghost number = { λ a. a.caller };

    ghost suits = { λ a f. Unit {0} };

    ghost relates = { λ a f before answer after. answer ≡ length before % 2 ^ 64 };

    fn caller(&self) -> u32 {
        self.caller
    }

    fn run(self, value: &mut Tally) -> u64 {
        let Add { caller, mut room } = self;
        let found = value.turns;
        *room = mem::replace(&mut value.chain, Chain::End);
        value.chain = Chain::More(caller, room);
        value.turns = found.wrapping_add(1);
        found
    }
}
