//! The path under which the lists of a binding are found.
ghost use Rattle.std.specs.Prelude.{◌≡◌};
ghost use Rattle.jm_awake.specs.Awake.{path_in};

use jm_model::Binding;

/// One more than the first object that a binding gives to parameters of a mask; 0 where there is none.
pub(crate) fn path_within(binding: &Binding, mask: u8) -> usize
    ensures { result ≡ path_in binding.now mask }
{
    let within = binding.mask() & mask;
    if within == 0 {
        return 0;
    }
    match binding.get(within.trailing_zeros() as u8) {
        Some(object) => object as usize + 1,
        None => 0,
    }
}
