//! Which of a binding's objects are dead. An object that isn't in the table counts as alive.
ghost use Rattle.std.specs.Prelude.{◌≡◌, ◌<◌, MatchOption, true, false, if◌then◌else◌};
ghost use Rattle.jm_model.specs.Bindings.{object_at};
ghost use Rattle.jm_marks.specs.Marks.{dead_mask_of, is_at_dead, is_at_live, has_live};
ghost use Rattle.jm_marks.specs.Layout.{IsBound};

use crate::bound::room_for;
use jm_model::Binding;
use jm_objects::Objects;

/// The parameters that are bound to dead objects: bit p stands for parameter p.
pub fn dead_mask(objects: &Objects, binding: &Binding) -> u8
    ensures { result ≡ dead_mask_of objects.now binding.now }
{
    if !objects.any_dead() {
        return 0;
    }
    let mask = binding.mask();
    let mut dead = 0;
    let mut p = room_for(mask);
    while p > 0 {
        p -= 1;
        dead = 2 * dead + dead_bit(objects, binding, p);
    }
    dead
}

/// 1 where a parameter is bound to a dead object, and else 0.
fn dead_bit(objects: &Objects, binding: &Binding, p: u8) -> u8
    requires { p < 8 }
    ensures value { result ≡ (if is_at_dead objects.now (object_at binding.now p) then 1 else 0) }
    ensures bit { result < 2 }
{
    match binding.get(p) {
        Some(object) if object < objects.len() && objects.is_dead(object) => 1,
        _ => 0,
    }
}

/// An object that is bound and alive, if there is one.
pub(crate) fn live_object(objects: &Objects, binding: &Binding) -> Option<u32>
    ensures { MatchOption result (has_live objects.now binding.now ≡ false)
        (λ o. (has_live objects.now binding.now ≡ true) × IsBound binding.now o) }
{
    let _mask = binding.mask();
    for p in 0..8 {
        if is_live_at(objects, binding, p) {
            return binding.get(p);
        }
    }
    None
}

/// Whether a parameter is bound to an object that is alive.
fn is_live_at(objects: &Objects, binding: &Binding, p: u8) -> bool
    requires { p < 8 }
    ensures { result ≡ is_at_live objects.now (object_at binding.now p) }
{
    match binding.get(p) {
        Some(object) => object >= objects.len() || !objects.is_dead(object),
        None => false,
    }
}
