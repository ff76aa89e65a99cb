//! The pass over the bindings that drops those without a live object.
ghost use Rattle.std.specs.Prelude.{◌≡◌, ◌<◌, ◌≤◌, [], filter, MatchOption, true, false, Some, length, map, slice_get, slice_index_or};
ghost use Rattle.std.specs.List.{IsDistinct};
ghost use Rattle.std.specs.List.Sorted.{IsPermutation};
ghost use Rattle.indexmap.specs.IndexSet.{spare};
ghost use Rattle.jm_model.specs.Layout.{binding_eq};
ghost use Rattle.jm_marks.specs.Marks.{has_live};
ghost use Rattle.jm_marks.specs.Layout.{IsBound, AreWatched};

use crate::dead::live_object;
use crate::hints::Hints;
use crate::watch::{GROUP, Spots};
use indexmap::IndexSet;
use jm_model::Binding;
use jm_objects::Objects;

/// Drops the bindings that bind no live object, the last ones first. The last binding takes the place of one that goes,
/// so that no other is filed anew.
pub(crate) fn drop_dead(
    bindings: &mut IndexSet<Binding>,
    watch: &mut Spots,
    hints: &mut Hints,
    objects: &Objects,
)
    requires { AreWatched bindings.old.keys watch.old.spots }
    ensures list { IsPermutation (filter (has_live objects.now) bindings.old.keys) bindings.new.keys }
    ensures distinct { IsDistinct binding_eq bindings.old.keys → IsDistinct binding_eq bindings.new.keys }
    ensures room { spare bindings.old ≤ spare bindings.new }
    ensures watched { AreWatched bindings.new.keys watch.new.spots }
    ensures row { watch.old.spare ≤ watch.new.spare }
{
    let is_fresh = watch.refresh(objects);
    let mut place = watch.len();
    while place > 0 {
        if is_fresh && place % GROUP == 0 && watch.are_quiet(place - GROUP) {
            place -= GROUP;
            continue;
        }
        place -= 1;
        if watch.is_alive(objects, place) {
            continue;
        }
        match live_object_at(bindings, objects, place) {
            Some(object) => watch.put(place, object),
            None => {
                let _ = bindings.swap_remove_index(place);
                watch.remove(place);
                note_place(hints, bindings, place);
            }
        }
    }
}

/// Notes the place of the binding that stands there, if one does.
fn note_place(hints: &mut Hints, bindings: &IndexSet<Binding>, place: usize) {
    if let Some(binding) = bindings.as_slice().get(place) {
        hints.note(binding, place);
    }
}

/// An object that the binding at a place binds and that is alive, if there is one.
fn live_object_at(bindings: &IndexSet<Binding>, objects: &Objects, place: usize) -> Option<u32>
    requires { place < length bindings.now.keys }
    ensures { MatchOption result (slice_get (map (has_live objects.now) bindings.now.keys) place ≡ Some false)
        (λ o. (slice_get (map (has_live objects.now) bindings.now.keys) place ≡ Some true)
        × IsBound (slice_index_or bindings.now.keys place []) o) }
{
    live_object(objects, &bindings.as_slice()[place])
}
