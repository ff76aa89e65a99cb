//! The objects that a binding binds, dead or alive.
ghost use Rattle.std.specs.Prelude.{◌≡◌, ◌<◌, ◌≤◌, ◌^◌, IsTrue, false};
ghost use Rattle.jm_marks.specs.Objects.{IsWithin};
ghost use Rattle.jm_marks.specs.Layout.{IsBoundBy};

use jm_model::Binding;

/// The first object that is bound, if there is one.
pub(crate) fn first_object(binding: &Binding) -> Option<u32>
    ensures { IsBoundBy binding.now result }
{
    let mask = binding.mask();
    if mask == 0 {
        return None;
    }
    binding.get(mask.trailing_zeros() as u8)
}

/// A number of parameters that a mask has room in.
pub(crate) fn room_for(mask: u8) -> u8
    ensures room { mask < 2 ^ result }
    ensures bounded { result ≤ 8 }
{
    if mask < 2 {
        return mask;
    }
    if mask < 4 {
        return 2;
    }
    if mask < 16 {
        return 4;
    }
    8
}

/// Whether some object that is bound is at a limit or beyond it.
pub(crate) fn is_beyond(limit: u64, binding: &Binding) -> bool
    ensures yes { IsTrue result → IsWithin limit binding.now → ⊥ }
    ensures no { result ≡ false → IsWithin limit binding.now }
{
    let _mask = binding.mask();
    for p in 0..8 {
        if let Some(object) = binding.get(p)
            && object as u64 >= limit
        {
            return true;
        }
    }
    false
}

/// The least limit, from one on, that all objects of a binding are below.
pub(crate) fn raised(limit: u64, binding: &Binding) -> u64
    ensures more { limit ≤ result }
    ensures within { IsWithin result binding.now }
{
    let mut limit = limit;
    for p in 0..room_for(binding.mask()) {
        if let Some(object) = binding.get(p) {
            limit = limit.max(object as u64 + 1);
        }
    }
    limit
}
