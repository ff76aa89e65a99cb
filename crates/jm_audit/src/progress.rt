//! A history that is being written.
ghost use Rattle.std.specs.Prelude.{◌≡◌, ◌≤◌, ◌<◌, [], List, length, option_map, IfOk, OnOk};
ghost use Rattle.jm_model.specs.declared.step.Entry.{Entry as HistoryEntry};
ghost use Rattle.jm_semantics.specs.Legality.{IsStepOf};
ghost use Rattle.jm_audit.specs.Slices.{HaveLetters};
ghost use Rattle.jm_audit.specs.Accounts.{IsAccountOf, IsReplied, HasRoom};
ghost use Rattle.jm_audit.specs.Allowed.{steps_on};
ghost use Rattle.jm_audit.specs.Pending.{AreUnderway};
ghost use Rattle.jm_audit.specs.Progress.{IsReady, IsWrittenNext};
ghost use Rattle.jm_audit.specs.Sheets.{lexicon, AreFit};
ghost use Rattle.jm_script.specs.Catalogs.{most_scripts};

use crate::account::Account;
use crate::block::write_block;
use crate::pending::{Pending, choose, pending_steps};
use crate::sheet::Sheet;
use jm_events::Names;
use jm_model::{Entry, Monitor, NoMemory};
use jm_print::render_entry;
use jm_script::CompactScript;
use std::alloc::Global;

/// The entries of a history so far, the steps that are still to be done, and the account of the entries.
#[derive(Drop)]
pub(crate) struct Progress {
    pub(crate) history: Vec<Entry>,
    pub(crate) pending: Vec<Pending>,
    pub(crate) account: Account,
}

impl Progress {
    /// The history without entries: all steps of the scripts for the specification of this number are still to be done.
    pub(crate) fn new<M: Monitor>(
        alloc: Global,
        sheet: &Sheet<M>,
        number: u8,
        scripts: &[CompactScript],
        objects: &Names,
    ) -> Result<Progress, NoMemory>
        requires scripts { length scripts.now ≤ most_scripts }
        requires fit { AreFit (M.meaning (M.definition sheet.now.rules.now)) (lexicon objects.now sheet.now)
            (steps_on scripts.now number) }
        ensures ready { IfOk result (IsReady (M.meaning (M.definition sheet.now.rules.now))
            (lexicon objects.now sheet.now)) }
        ensures empty { IfOk result (λ progress. progress.history.items ≡ []) }
        ensures under { IfOk result (λ progress. AreUnderway (steps_on scripts.now number) [] progress.pending.items) }
    {
        let pending = pending_steps(alloc, scripts, number)?;
        let account = Account::new(alloc, sheet.rules, objects.len())?;
        Ok(Progress {
            history: Vec::new(alloc),
            pending,
            account,
        })
    }

    /// How many steps are left.
    pub(crate) fn left(&self) -> usize
        ensures { result ≡ length self.now.pending.items }
    {
        self.pending.len()
    }

    /// How many entries there are.
    pub(crate) fn len(&self) -> usize
        ensures { result ≡ length self.now.history.items }
    {
        self.history.len()
    }

    /// Writes the entry that comes next. The text chooses whose step it is, where this is left of it. The answer is
    /// what is left of it then.
    pub(crate) fn write_next<'t, M: Monitor>(
        &mut self,
        alloc: Global,
        sheet: &Sheet<M>,
        objects: &Names,
        rest: Option<&'t [u8]>,
        written: &mut Vec<u8>,
    ) -> Result<Option<&'t [u8]>, NoMemory>
        requires ready { IsReady (M.meaning (M.definition sheet.now.rules.now))
            (lexicon objects.now sheet.now) self.old }
        requires some { 0 < length self.old.pending.items }
        ensures ready { OnOk result (IsReady (M.meaning (M.definition sheet.now.rules.now))
            (lexicon objects.now sheet.now) self.new) }
        ensures fewer { OnOk result (length self.new.pending.items < length self.old.pending.items) }
        ensures written { IfOk result (λ left. IsWrittenNext (M.meaning (M.definition sheet.now.rules.now))
            (lexicon objects.now sheet.now) self.old self.new (option_map (λ r. r.now) rest.entry)
            (option_map (λ r. r.now) left) written.old.items written.new.items) }
    {
        let place = choose(self.pending.as_slice(), rest);
        let next = self.pending.remove(place);
        let entry = next_entry(alloc, sheet, &mut self.account, next)?;
        let block = render_entry(
            alloc,
            sheet.name,
            &entry,
            sheet.table,
            sheet.categories,
            sheet.handlers,
            objects,
        )?;
        let left = write_block(rest, written, block.as_slice())?;
        self.history.push(entry)?;
        Ok(left)
    }
}

/// The entry of a step, with the reply to it, which is done.
fn next_entry<M: Monitor>(
    alloc: Global,
    sheet: &Sheet<M>,
    account: &mut Account,
    next: Pending,
) -> Result<Entry, NoMemory>
    requires own { IsStepOf (M.meaning (M.definition sheet.now.rules.now)) next.step }
    requires room { HasRoom (length account.old.dead.items) next.step }
    requires letters { HaveLetters (M.meaning (M.definition sheet.now.rules.now)) account.old.instances.items }
    ensures room { OnOk result (length account.new.dead.items ≡ length account.old.dead.items) }
    ensures source { IfOk result (λ x. (x.caller ≡ next.caller) × (x.line ≡ next.line) × (x.step ≡ next.step)) }
    ensures replied { IfOk result (λ x. (h : List HistoryEntry)
        → IsAccountOf (M.meaning (M.definition sheet.now.rules.now)) h account.old
        → IsReplied (M.meaning (M.definition sheet.now.rules.now)) h x.step x.outcome account.new) }
{
    let outcome = account.reply(alloc, sheet.rules, &next.step)?;
    Ok(Entry {
        caller: next.caller,
        line: next.line,
        step: next.step,
        outcome,
    })
}
