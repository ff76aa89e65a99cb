//! What holds of all stores: each function has an empty body, and its contract is a law.
ghost use Rattle.jm_store.specs.Laws.{StoreAfterDeath, FitAfterDeath};

use jm_model::Monitor;

/// A store stays one when an object dies, and fits the rules and the table of objects as before.
pub fn death_keeps_store<M: Monitor>(rules: &M)
    ensures store { StoreAfterDeath (M.meaning (M.definition rules.now)) (M.StandsFor rules.now) }
    ensures fits { FitAfterDeath (M.meaning (M.definition rules.now)) (M.StandsFor rules.now) }
{
    let _rules = rules;
}
