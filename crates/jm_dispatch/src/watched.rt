use jm_core::Prop;
use jm_model::{Entry, Monitor};
use jm_turn::Kept;

/// What no step changes: what the specification is, as plain data, and how many objects there are.
pub struct Fixed<D> {
    pub definition: D,
    pub objects: u32,
}

/// The core under the lock. It stands for its history. It lies in a box, since each turn moves it out of the lock and
/// back.
#[derive(Drop)]
pub struct Watched<M: Monitor> {
    pub(crate) prop: Box<Prop<M>>,
}

impl<M: Monitor> Kept for Watched<M> {
    type Entry = Entry;

    type Fixed = Fixed<M::Definition>;

    ghost use Rattle.std.specs.Prelude.{ℕ, List};

    ghost entries = { λ w. w.prop.value.entries };

    ghost caller_of = { λ x. x.caller };

    ghost fixed_part = { λ w. record { definition = w.prop.value.definition; objects = w.prop.value.objects } };
}
