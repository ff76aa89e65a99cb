ghost use Rattle.jm_semantics.specs.Laws.{InstancesAreJoins, InstancesGrowByJoins, SliceOfNewInstance, SliceOfAnyBinding, AnswerIsDetermined, KeptCountIsDetermined, CutIsFinal, ReplyIsDetermined, OutcomeIsPinned};

use jm_model::Monitor;

/// A binding is an instance exactly where it is the join of the seen bindings below it.
pub fn instances_are_joins()
    ensures { InstancesAreJoins }
{}

/// An event adds to the instances exactly their joins with its binding (Chen and Rosu 2009).
pub fn instances_grow_by_joins()
    ensures { InstancesGrowByJoins }
{}

/// The slice of a new instance is that of the join of the bindings seen below it.
pub fn slice_of_new_instance()
    ensures { SliceOfNewInstance }
{}

/// The slice of any binding is that of the join of the bindings seen below it.
pub fn slice_of_any_binding()
    ensures { SliceOfAnyBinding }
{}

/// An event has at most one answer.
pub fn answer_is_determined<M: Monitor>()
    ensures { (d : M.Definition) → AnswerIsDetermined (M.meaning d) }
{}

/// A pass has at most one count.
pub fn kept_count_is_determined<M: Monitor>()
    ensures { (d : M.Definition) → KeptCountIsDetermined (M.meaning d) }
{}

/// An instance that is cut stays cut, and no later outcome names it.
pub fn cut_is_final<M: Monitor>()
    ensures { (d : M.Definition) → CutIsFinal (M.meaning d) }
{}

/// A step has at most one reply, out of memory aside.
pub fn reply_is_determined<M: Monitor>()
    ensures { (d : M.Definition) → ReplyIsDetermined (M.meaning d) }
{}

/// Two legal histories that agree up to a step give it one outcome, out of memory aside.
pub fn outcome_is_pinned<M: Monitor>()
    ensures { (d : M.Definition) → OutcomeIsPinned (M.meaning d) }
{}
