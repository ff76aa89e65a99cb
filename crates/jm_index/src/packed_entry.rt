//! An entry as it lies in memory.
ghost use Rattle.std.specs.Prelude.{◌≡◌, true, IfOk, IfSome};
ghost use Rattle.jm_index.specs.PackedEntries.{binding_in, slot_in, is_kept, IsPackedEntry};

use crate::key::bound_from;
use jm_model::{Binding, NoMemory};
use std::alloc::Global;

/// A binding's parameters and then its objects and its slot, where it binds one or two and the slot fits four bytes,
/// and else the whole. An entry that isn't live keeps neither binding nor slot.
#[derive(Drop)]
pub(crate) enum PackedEntry {
    Gone,
    One(u8, u32, u32),
    Two(u8, u8, u32, u32, u32),
    Whole(Box<Whole>),
}

/// A binding and its slot.
#[derive(Drop)]
pub(crate) struct Whole {
    pub(crate) binding: Binding,
    pub(crate) slot: usize,
}

/// The packed entry of a binding and its slot.
pub(crate) fn packed_entry_of(
    alloc: Global,
    binding: &Binding,
    slot: usize,
) -> Result<PackedEntry, NoMemory>
    ensures packed { IfOk result (λ packed. binding_in packed ≡ binding.now) }
    ensures slot { IfOk result (λ packed. slot_in packed ≡ slot) }
    ensures kept { IfOk result (λ packed. is_kept packed ≡ true) }
    ensures sound { IfOk result IsPackedEntry }
{
    if let Ok(short) = u32::try_from(slot)
        && let Some(packed) = short_packed_entry(binding, short)
    {
        return Ok(packed);
    }
    let whole = Whole {
        binding: *binding,
        slot,
    };
    Ok(PackedEntry::Whole(Box::new(alloc, whole)?))
}

/// The packed entry of a binding of one or two parameters, and a slot of four bytes.
fn short_packed_entry(binding: &Binding, slot: u32) -> Option<PackedEntry>
    ensures packed { IfSome result (λ packed. binding_in packed ≡ binding.now) }
    ensures slot { IfSome result (λ packed. slot_in packed ≡ slot) }
    ensures kept { IfSome result (λ packed. is_kept packed ≡ true) }
    ensures sound { IfSome result IsPackedEntry }
{
    let one = bound_from(binding, 0)?;
    let Some(other) = bound_from(binding, one.p + 1) else {
        return Some(PackedEntry::One(one.p, one.object, slot));
    };
    match bound_from(binding, other.p + 1) {
        Some(_) => None,
        None => Some(PackedEntry::Two(one.p, other.p, one.object, other.object, slot)),
    }
}

/// The binding that a packed entry keeps.
pub(crate) fn binding_in(packed: &PackedEntry) -> Binding
    requires { IsPackedEntry packed.now }
    ensures { result ≡ binding_in packed.now }
{
    match packed {
        PackedEntry::Gone => Binding::empty(),
        PackedEntry::One(p, object, _) => Binding::empty().bind(*p, *object),
        PackedEntry::Two(p, q, first, second, _) => Binding::empty()
            .bind(*p, *first)
            .bind(*q, *second),
        PackedEntry::Whole(whole) => whole.binding,
    }
}

/// The slot that a packed entry keeps.
pub(crate) fn slot_in(packed: &PackedEntry) -> usize
    ensures { result ≡ slot_in packed.now }
{
    match packed {
        PackedEntry::Gone => 0,
        PackedEntry::One(_, _, slot) => *slot as usize,
        PackedEntry::Two(_, _, _, _, slot) => *slot as usize,
        PackedEntry::Whole(whole) => whole.slot,
    }
}

/// Whether a packed entry keeps a binding.
pub(crate) fn is_kept(packed: &PackedEntry) -> bool
    ensures { result ≡ is_kept packed.now }
{
    match packed {
        PackedEntry::Gone => false,
        _ => true,
    }
}
