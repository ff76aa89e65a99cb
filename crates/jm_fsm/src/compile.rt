ghost use Rattle.std.specs.Prelude.{◌≡◌, IfOk, IfErr, length};
ghost use Rattle.jm_fsm.specs.Tables.{HasStates, IsCompiled};
ghost use Rattle.jm_fsm.specs.Categories.{category_count};

use crate::machine::Fsm;
use jm_events::EventTable;
use jm_model::SpecError;
use jm_table::{Table, build, places};
use std::alloc::Global;

impl Fsm {
    /// A table of the states that words reach and of no others, with a group for each category, in the order of the
    /// categories; the group of a category that never holds is empty.
    pub fn compile(&self, alloc: Global, events: &EventTable) -> Result<Table, SpecError>
        ensures letters { IfOk result (λ table. table.letters ≡ length events.now.events) }
        ensures groups { IfOk result (λ table. length table.groups ≡ category_count self.now) }
        ensures states { IfOk result (λ table. HasStates self.now table) }
        ensures compiled { IfOk result (λ table. IsCompiled self.now table) }
        ensures fault { IfErr result (λ e. e ≡ SpecError.NoMemory) }
    {
        let categories = self.category_count();
        let (mut table, nodes) = build(alloc, self, events.letters())?;
        for category in 0..categories {
            let members = places(
                alloc,
                nodes.as_slice(),
                move |node| self.is_member(category, *node),
            )?;
            table.add_group(members.as_slice())?;
        }
        Ok(table)
    }
}
