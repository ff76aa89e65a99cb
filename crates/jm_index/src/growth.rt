//! Room in lists that may get long.
ghost use Rattle.std.specs.Prelude.{◌≡◌, ◌+◌, ◌≤◌, OnOk, vec_len};
ghost use Rattle.std.specs.Vec.{vec_capacity};

use jm_model::NoMemory;

/// Makes room for more elements, a given number. A short list doubles its room, and a long one takes a quarter more, so
/// that little of its memory lies unused.
pub(crate) fn grow<T>(list: &mut Vec<T>, more: usize) -> Result<(), NoMemory>
    ensures unchanged { list.new.items ≡ list.old.items }
    ensures room { OnOk result (vec_len list.new + more ≤ vec_capacity list.new) }
{
    let len = list.len();
    if list.capacity() - len < more {
        if len < 16384 {
            list.reserve(more)?;
        } else {
            list.reserve_exact(more.max(len / 4))?;
        }
    }
    Ok(())
}
