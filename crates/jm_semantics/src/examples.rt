ghost use Rattle.std.specs.Prelude.{map, ℕ, List, ◌≡◌, None, [], ◌∷◌};
ghost use Rattle.jm_model.specs.Meanings.{IsPropertyCut};
ghost use Rattle.jm_model.specs.declared.firings.Firing.{Firing};
ghost use Rattle.jm_semantics.specs.Histories.{place_of};
ghost use Rattle.jm_semantics.specs.Legality.{IsLegal};
ghost use Rattle.jm_semantics.specs.Scripts.{ScriptLine, projection_of, IsInterleaving};
ghost use Rattle.jm_semantics.specs.Families.{IsFamily};
ghost use Rattle.jm_semantics.specs.ExampleEntries.{binding, fires};
ghost use Rattle.jm_semantics.specs.UnsafeIterExamples.{unsafe_iter, unsafe_use, two_iterators, early_use, use_after_death, cut_by_death, refusals, forgotten, misfit};
ghost use Rattle.jm_semantics.specs.ChainExamples.{chain, kept_base, disposed_base, no_trace};
ghost use Rattle.jm_semantics.specs.SmallExamples.{tick, full_tick, ticking, both_bound, tick_twice, firing_in_order, not_ab, back_again, quiet, silence, has_next, created_has_next, blind_next, fires_on, safe_lock, failing, any_word, any_word_finely, never_failing, two, two_properties, again, started_anew};
ghost use Rattle.jm_semantics.specs.ScriptExamples.{scripts, interleaved, swapped};

/// An iterator is used after its collection was changed: the handler runs.
pub fn unsafe_use()
    ensures { IsLegal unsafe_iter unsafe_use }
{}

/// Of two iterators over one collection the one that is used is reported.
pub fn two_iterators()
    ensures { IsLegal unsafe_iter two_iterators }
{}

/// An early use stands in the slice, so the handler does not run.
pub fn early_use()
    ensures legal { IsLegal unsafe_iter (early_use []) }
    ensures only { (answer : List Firing) → IsLegal unsafe_iter (early_use answer) → answer ≡ [] }
{}

/// An instance with a dead object still fires, and is cut after that.
pub fn use_after_death()
    ensures legal { IsLegal unsafe_iter (use_after_death 1) }
    ensures only { (kept : ℕ) → IsLegal unsafe_iter (use_after_death kept) → kept ≡ 1 }
{}

/// A death cuts the instances that need the object.
pub fn cut_by_death()
    ensures legal { IsLegal unsafe_iter (cut_by_death 1) }
    ensures only { (kept : ℕ) → IsLegal unsafe_iter (cut_by_death kept) → kept ≡ 1 }
{}

/// A dead object is refused, in a death and in an event.
pub fn refusals()
    ensures { IsLegal unsafe_iter refusals }
{}

/// An event that ran out of memory leaves no trace.
pub fn forgotten()
    ensures { IsLegal unsafe_iter forgotten }
{}

/// An event binds exactly the parameters of its letter.
pub fn misfit()
    ensures { IsLegal unsafe_iter misfit → ⊥ }
{}

/// The coenable family of `update`: the iterator alone, or both.
pub fn update_family()
    ensures { IsFamily unsafe_iter 1 (2 ∷ 3 ∷ []) }
{}

/// The instance that binds the dead object alone is kept, as the base of a larger one.
pub fn kept_base()
    ensures { IsLegal chain kept_base }
{}

/// A disposed instance leaves its letters in the slices of the larger ones.
pub fn disposed_base()
    ensures legal { IsLegal chain (disposed_base []) }
    ensures only { (answer : List Firing) → IsLegal chain (disposed_base answer) → answer ≡ [] }
{}

/// A refused event leaves no trace, and names the first dead object in the order of the parameters.
pub fn no_trace()
    ensures { IsLegal chain no_trace }
{}

/// An event without parameters reaches every instance, or, where a reported instance binds all parameters,
/// each of these.
pub fn ticking()
    ensures all { IsLegal tick (ticking (fires (binding None None None) ∷ both_bound)) }
    ensures full { IsLegal full_tick (ticking both_bound) }
{}

/// Firings lie in the order of their instances, and then of their handlers.
pub fn firing_in_order()
    ensures { IsLegal tick_twice firing_in_order }
{}

/// A category is left and entered again.
pub fn back_again()
    ensures { IsLegal not_ab back_again }
{}

/// Without a handler every instance is cut.
pub fn silence()
    ensures { IsLegal quiet silence }
{}

/// Where there are creation letters, no handler runs for a slice that doesn't begin with one.
pub fn blind_next()
    ensures anyhow { IsLegal has_next (blind_next (fires_on 0) 2) }
    ensures created { IsLegal created_has_next (blind_next [] 1) }
{}

/// The category `fail` isn't left. An instance of a dead lock is cut, since no letter is available to it.
pub fn failing()
    ensures { IsLegal safe_lock failing }
{}

/// A grammar with a handler for `fail` that never runs is cut only when no letter is available. Without the
/// exception for grammars it is cut from the start.
pub fn never_failing()
    ensures grammar { IsLegal any_word (never_failing 2 1) }
    ensures finely { IsLegal any_word_finely (never_failing 0 0) }
{}

/// An instance is cut when each of its properties is, and not before.
pub fn two_properties()
    ensures legal { IsLegal two two_properties }
    ensures first { IsPropertyCut two (1 ∷ []) 0 0 }
    ensures second { IsPropertyCut two (1 ∷ []) 0 1 → ⊥ }
{}

/// A handler that resets its property changes of which words its category holds, and nothing else.
pub fn started_anew()
    ensures { IsLegal again started_anew }
{}

/// An interleaving of two scripts' projections: a line of another specification is left out, a death is for all.
pub fn interleaved()
    ensures scripts { IsInterleaving interleaved (map (λ (script : List ScriptLine). projection_of script 0) scripts) }
    ensures swapped { IsInterleaving swapped (map (λ (script : List ScriptLine). projection_of script 0) scripts) → ⊥ }
    ensures next_place { place_of interleaved ≡ 4 }
{}
