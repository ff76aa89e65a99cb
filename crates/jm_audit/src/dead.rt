//! Dead objects, by a flag for each object.
ghost use Rattle.std.specs.Prelude.{◌≡◌, ◌<◌, find, Some, None, if◌then◌else◌};
ghost use Rattle.jm_model.specs.Bindings.{mask_where, objects_of, object_at};
ghost use Rattle.jm_audit.specs.Flags.{is_flagged, is_flagged_at};

use jm_model::Binding;

/// Whether an object is dead.
pub(crate) fn is_dead(flags: &[bool], object: u32) -> bool
    ensures { result ≡ is_flagged flags.now object }
{
    match flags.get(object as usize) {
        Some(dead) => *dead,
        None => false,
    }
}

/// The first dead object that a binding binds, in the order of the parameters.
pub(crate) fn first_dead(flags: &[bool], binding: &Binding) -> Option<u32>
    ensures { result ≡ find (is_flagged flags.now) (objects_of binding.now) }
{
    let _mask = binding.mask();
    for p in 0..8 {
        if let Some(object) = binding.get(p) {
            if is_dead(flags, object) {
                return Some(object);
            }
        }
    }
    None
}

/// The parameters that are bound to dead objects: bit p stands for parameter p.
pub(crate) fn dead_mask(flags: &[bool], binding: &Binding) -> u8
    ensures { result ≡ mask_where (is_flagged flags.now) binding.now }
{
    let _mask = binding.mask();
    let mut dead = 0;
    let mut p = 8;
    while p > 0 {
        p -= 1;
        dead = 2 * dead + dead_bit(flags, binding, p);
    }
    dead
}

/// 1 where a parameter is bound to a dead object, and else 0.
fn dead_bit(flags: &[bool], binding: &Binding, p: u8) -> u8
    requires { p < 8 }
    ensures value { result ≡ (if is_flagged_at flags.now (object_at binding.now p) then 1 else 0) }
    ensures bit { result < 2 }
{
    match binding.get(p) {
        Some(object) if is_dead(flags, object) => 1,
        _ => 0,
    }
}
