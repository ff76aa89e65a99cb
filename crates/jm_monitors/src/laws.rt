//! What holds of all stores: each function has an empty body, and its contract is a law.
ghost use Rattle.jm_monitors.specs.Laws.{StartIsStore, JoinsOfSeenStand, BaseIsOne, MadeIsNew, ReportIsAnswer, EventKeepsStore, DeathKeepsStore, PassKeepsStore, CutByOwnDeath, FlagsTellParameters, FlagsTellLive, FlagsAtStart, FlagsAfterDeath, FlagsAfterOther, PassCountsStored};

use jm_model::Monitor;

/// At the start the empty binding is stored, unless it is cut.
pub fn start_is_store<M: Monitor>(rules: &M)
    ensures { StartIsStore (M.meaning (M.definition rules.now)) (M.StandsFor rules.now) }
{
    let _rules = rules;
}

/// Joins of instances and seen bindings are instances.
pub fn joins_of_seen_stand()
    ensures { JoinsOfSeenStand }
{}

/// Of the stored monitors of which an event makes one instance there is one.
pub fn base_is_one<M: Monitor>(rules: &M)
    ensures { BaseIsOne (M.meaning (M.definition rules.now)) (M.StandsFor rules.now) }
{
    let _rules = rules;
}

/// A new instance isn't stored.
pub fn made_is_new<M: Monitor>(rules: &M)
    ensures { MadeIsNew (M.meaning (M.definition rules.now)) (M.StandsFor rules.now) }
{
    let _rules = rules;
}

/// The report of the reached monitors is the answer.
pub fn report_is_answer<M: Monitor>(rules: &M)
    ensures { ReportIsAnswer (M.meaning (M.definition rules.now)) (M.StandsFor rules.now) }
{
    let _rules = rules;
}

/// After an event there is a store of the trace with it, in which no monitor above its binding is cut.
pub fn event_keeps_store<M: Monitor>(rules: &M)
    ensures { EventKeepsStore (M.meaning (M.definition rules.now)) (M.StandsFor rules.now) }
{
    let _rules = rules;
}

/// With one object more dead it is a store of the same trace: what the death cuts may stay.
pub fn death_keeps_store<M: Monitor>(rules: &M)
    ensures { DeathKeepsStore (M.meaning (M.definition rules.now)) (M.StandsFor rules.now) }
{
    let _rules = rules;
}

/// After a pass too: exactly the instances that aren't cut are stored then, and the marks have a live object each.
pub fn pass_keeps_store<M: Monitor>(rules: &M)
    ensures { PassKeepsStore (M.meaning (M.definition rules.now)) (M.StandsFor rules.now) }
{
    let _rules = rules;
}

/// An instance that deaths cut binds an object that died.
pub fn cut_by_own_death<M: Monitor>(rules: &M)
    ensures { CutByOwnDeath (M.meaning (M.definition rules.now)) }
{
    let _rules = rules;
}

/// Flags tell what is dead as a history does.
pub fn flags_tell_dead()
    ensures parameters { FlagsTellParameters }
    ensures live { FlagsTellLive }
{}

/// Flags follow a history.
pub fn flags_follow()
    ensures start { FlagsAtStart }
    ensures death { FlagsAfterDeath }
    ensures other { FlagsAfterOther }
{}

/// After a pass the stored monitors are counted as the history wants.
pub fn pass_counts_stored<M: Monitor>(rules: &M)
    ensures { PassCountsStored (M.meaning (M.definition rules.now)) (M.StandsFor rules.now) }
{
    let _rules = rules;
}
