//! The kinds of step on a word, each with what it tells its seat.
//!
//! The two exchanges of the slot, in which the value is taken out and given back, tell nothing.
use crate::kept::Kept;
use crate::rule::View;
use atomic_table::{Join, Play, Split};

// The seat draws a ticket.
pub struct Draw;

impl<V: Kept> Play<Option<V>, View<V::Entry, V::Fixed>> for Draw {
    ghost use Rattle.jm_turn.specs.Steps.{Draws};

    ghost then = { Draws };
}

// The seat looks whether its ticket is served.
pub struct Look;

impl<V: Kept> Play<Option<V>, View<V::Entry, V::Fixed>> for Look {
    ghost use Rattle.jm_turn.specs.Steps.{Looks};

    ghost then = { Looks V.entries V.caller_of V.fixed_part };
}

// The seat passes the turn on to the next ticket.
pub struct PassOn;

impl<V: Kept> Play<Option<V>, View<V::Entry, V::Fixed>> for PassOn {
    ghost use Rattle.jm_turn.specs.Steps.{PassesOn};

    ghost then = { PassesOn V.entries };
}

// A new seat gets its number.
pub struct Number;

impl<V: Kept> Play<Option<V>, View<V::Entry, V::Fixed>> for Number {
    ghost use Rattle.jm_turn.specs.Steps.{TakesNumber};

    ghost then = { TakesNumber };
}

// What was joined in last is compared with what the seat has seen.
pub struct Compare;

impl<V: Kept> Play<Option<V>, View<V::Entry, V::Fixed>> for Compare {
    ghost use Rattle.jm_turn.specs.Steps.{Compares};

    ghost then = { Compares V.caller_of };
}

// A seat without a number makes another.
pub struct MakeSeat;

impl<E, F> Split<View<E, F>> for MakeSeat {
    ghost use Rattle.jm_turn.specs.Views.{new_maker, with_one_fewer};

    ghost left = { with_one_fewer };

    ghost right = { new_maker };
}

// A seat that has just got its number tells the seat that made it how many have one.
pub struct Tell;

impl<E, F> Split<View<E, F>> for Tell {
    ghost use Rattle.jm_turn.specs.Views.{without_news, news_of};

    ghost left = { without_news };

    ghost right = { news_of };
}

impl<E, F> Join<View<E, F>> for Tell {
    ghost use Rattle.jm_turn.specs.Views.{with_news, spent_view};

    ghost both = { with_news };

    ghost spent = { spent_view };
}

// A note has what the seat has seen.
pub struct MakeNote;

impl<E, F> Split<View<E, F>> for MakeNote {
    ghost use Rattle.jm_turn.specs.Views.{note_view_of};

    ghost left = { λ v. v };

    ghost right = { note_view_of };
}

// A seat keeps what was known of another seat or a note, which ends.
pub struct JoinIn;

impl<E, F> Join<View<E, F>> for JoinIn {
    ghost use Rattle.jm_turn.specs.Views.{with_joined, spent_view};

    ghost both = { with_joined };

    ghost spent = { spent_view };
}
