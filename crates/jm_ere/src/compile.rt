ghost use Rattle.std.specs.Prelude.{◌≡◌, ◌<◌, ◌≤◌, ◌⊎◌, true, false, List, [], Some, Err, length, map, slice_get, vec_len, IfOk, IfErr, IfSome, IfNone, OnOk, IsOkUnless};
ghost use Rattle.jm_model.specs.declared.fault.SpecFault.{SpecFault};
ghost use Rattle.jm_table.specs.Explorations.{IfBad, most_states};
ghost use Rattle.jm_ere.specs.Expressions.{Expression};
ghost use Rattle.jm_ere.specs.Categories.{category_names};
ghost use Rattle.jm_ere.specs.NormalForms.{is_nullable};
ghost use Rattle.jm_ere.specs.Groups.{IsCompiled, HasGroups, AreLive, LeadsToLive, LeadsToDead, DeadStaysDead};
ghost use Rattle.jm_ere.specs.Refusals.{FindsForms, FindsFault, IsCause};

use crate::forms::copy;
use crate::graph::Forms;
use crate::order::is_nullable;
use crate::tree::Ere;
use jm_events::{EventTable, Names};
use jm_model::{Letter, NoMemory, SpecError};
use jm_table::{Table, build, places};
use std::alloc::{AllocError, Global};

impl Ere {
    /// The names of the categories, `match` and `fail`. The number of a name is the category's group in the compiled
    /// table.
    pub fn categories(&self, alloc: Global) -> Result<Names, NoMemory>
        ensures { IfOk result (λ names. names ≡ category_names) }
    {
        let mut names = Names::new(alloc);
        names.add("match")?;
        names.add("fail")?;
        Ok(names)
    }

    /// A table of the normal forms of the derivatives, with a group for each category: `match`, the states after words
    /// of the language, and `fail`, those from which no state of `match` is reached.
    ///
    /// The fault is `TooManyStates` where a 1,025th normal form is found, and `TooMany` term where one is found that
    /// has more than 4,096 nodes, or a part of one while it is made; whichever comes first, breadth first and letters
    /// in order.
    pub fn compile(&self, alloc: Global, events: &EventTable) -> Result<Table, SpecError>
        ensures letters { IfOk result (λ table. table.letters ≡ length events.now.events) }
        ensures groups { IfOk result (λ table. length table.groups ≡ 2) }
        ensures compiled { IfOk result (λ table. IsCompiled self.now table) }
        ensures states { IfOk result (λ table. (found : List Expression) × FindsForms self.now table.letters found
            × (length found ≡ table.states)) }
        ensures fault { IfErr result (λ e. IfBad e (λ fault. FindsFault self.now (length events.now.events) fault)) }
        ensures cause { IfErr result (λ e. IfBad e (λ fault. IsCause self.now (length events.now.events) fault)) }
        ensures refused { (fault : SpecFault) → FindsFault self.now (length events.now.events) fault →
            (result ≡ Err (SpecError.Bad fault)) ⊎ (result ≡ Err SpecError.NoMemory) }
        ensures accepted { (found : List Expression) → FindsForms self.now (length events.now.events) found
            → IsOkUnless result SpecError.NoMemory }
    {
        let ere = Ere::new(copy(alloc, &self.tree)?);
        let forms = Forms { alloc, ere };
        let (mut table, nodes) = build(alloc, &forms, events.letters())?;
        add_groups(alloc, nodes.as_slice(), &mut table)?;
        Ok(table)
    }
}

/// Adds the groups of `match` and `fail` to a table whose states stand for these forms.
fn add_groups(alloc: Global, forms: &[Ere], table: &mut Table) -> Result<(), SpecError>
    requires states { table.old.states ≡ length forms.now }
    requires bounded { length forms.now ≤ most_states }
    requires groups { table.old.groups ≡ [] }
    ensures groups { OnOk result (HasGroups forms.now table.old table.new) }
    ensures fault { IfErr result (λ e. e ≡ SpecError.NoMemory) }
{
    let mut live = matching(alloc, forms)?;
    let matched = places(alloc, live.as_slice(), |flag| *flag)?;
    close_backward(table, &mut live);
    let failed = places(alloc, live.as_slice(), |flag| !*flag)?;
    table.add_group(matched.as_slice())?;
    table.add_group(failed.as_slice())?;
    Ok(())
}

/// A flag for each form: whether it has the empty word.
fn matching(alloc: Global, forms: &[Ere]) -> Result<Vec<bool>, SpecError>
    ensures flags { IfOk result (λ v. v.items ≡ map is_nullable forms.now) }
    ensures fault { IfErr result (λ e. e ≡ SpecError.NoMemory) }
{
    let flags: Result<Vec<bool>, AllocError> = forms
        .iter()
        .map(|form| is_nullable(&form.tree))
        .collect(alloc);
    Ok(flags?)
}

/// Whether a letter leads from a state to one whose flag is set.
fn leads_to_live(table: &Table, live: &[bool], state: u16) -> bool
    requires state { state < table.now.states }
    requires many { length live.now ≡ table.now.states }
    ensures yes { result ≡ true → LeadsToLive table.now live.now state }
    ensures no { result ≡ false → LeadsToDead table.now live.now state }
{
    for letter in 0..table.letters() {
        let next = table.next(state, Letter(letter));
        if live[next as usize] {
            return true;
        }
    }
    false
}

/// A state whose flag isn't set, and from which a letter leads to one whose flag is.
fn next_live(table: &Table, live: &[bool]) -> Option<u16>
    requires many { length live.now ≡ table.now.states }
    ensures dead { IfSome result (λ state. slice_get live.now state ≡ Some false) }
    ensures leads { IfSome result (λ state. LeadsToLive table.now live.now state) }
    ensures closed { IfNone result (DeadStaysDead table.now live.now) }
{
    for state in 0..table.len() {
        if !live[state as usize] && leads_to_live(table, live, state) {
            return Some(state);
        }
    }
    None
}

/// Sets the flags of the states from which a state can be reached whose flag was set.
#[tactic(auto, using(crate::proofs::LiveLemmas::dead_less, crate::proofs::LiveLemmas::live_more, crate::proofs::LiveLemmas::length_set_flag))]
fn close_backward(table: &Table, live: &mut Vec<bool>)
    requires many { vec_len live.old ≡ table.now.states }
    ensures live { (forms : List Expression) → AreLive table.now forms live.old.items
        → AreLive table.now forms live.new.items }
    ensures closed { DeadStaysDead table.now live.new.items }
{
    while let Some(state) = next_live(table, live.as_slice()) {
        live[state as usize] = true;
    }
}
