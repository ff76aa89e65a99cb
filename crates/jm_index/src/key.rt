//! What an exact look-up goes by: the objects of a binding, where it binds no more than two.
ghost use Rattle.std.specs.Prelude.{◌≡◌, ℕ, ◌<◌, ◌≤◌, Some, None, IfSome, IfNone, length};
ghost use Rattle.jm_model.specs.Bindings.{object_at};

use jm_model::Binding;

/// A set of two parameters, and the objects that they are bound to.
#[derive(Clone, Copy, PartialEq, Eq, Hash)]
pub(crate) struct ParamPair {
    pub(crate) mask: u8,
    pub(crate) first: u32,
    pub(crate) second: u32,
}

/// A binding as it is looked up: by its parameters and objects, where these are at most two.
#[derive(Clone, Copy)]
pub(crate) enum Key {
    Empty,
    One(u8, u32),
    Two(ParamPair),
    More,
}

ghost use Rattle.jm_index.specs.Keys.{key_of};

/// The key of a binding.
#[inline(always)]
pub(crate) fn key_of(binding: &Binding) -> Key
    ensures value { result ≡ key_of binding.now }
    ensures eight { length binding.now ≡ 8 }
{
    let mask = binding.mask();
    let Some(first) = bound_from(binding, 0) else {
        return Key::Empty;
    };
    let Some(second) = bound_from(binding, first.p + 1) else {
        return Key::One(mask, first.object);
    };
    match bound_from(binding, second.p + 1) {
        Some(_) => Key::More,
        None => Key::Two(ParamPair {
            mask,
            first: first.object,
            second: second.object,
        }),
    }
}

/// A parameter and its object.
#[derive(Clone, Copy)]
pub(crate) struct Bound {
    pub(crate) p: u8,
    pub(crate) object: u32,
}

/// The first parameter from one on that is bound.
#[inline]
pub(crate) fn bound_from(binding: &Binding, from: u8) -> Option<Bound>
    requires { from ≤ 8 }
    ensures within { IfSome result (λ bound. bound.p < 8) }
    ensures behind { IfSome result (λ bound. from ≤ bound.p) }
    ensures object { IfSome result (λ bound. object_at binding.now bound.p ≡ Some bound.object) }
    ensures between { IfSome result (λ bound. (p : ℕ) → from ≤ p → p < bound.p → object_at binding.now p ≡ None) }
    ensures none { IfNone result ((p : ℕ) → from ≤ p → object_at binding.now p ≡ None) }
    ensures eight { length binding.now ≡ 8 }
{
    let rest = u32::from(binding.mask()) >> from;
    if rest == 0 {
        return None;
    }
    let p = from + rest.trailing_zeros() as u8;
    let object = binding.get(p)?;
    Some(Bound { p, object })
}
