ghost use Rattle.std.specs.Prelude.{◌≡◌, ◌<◌, ◌≤◌, ◌++◌, [], codes, decimal, length, map, take, All, Some, IfOk, IfSome, OnOk, slice_get, count_ones, if◌then◌else◌};
ghost use Rattle.std.specs.List.{flat_map};
ghost use Rattle.jm_print.specs.Lexicons.{name_of, lexicon_of};
ghost use Rattle.jm_handler.specs.Renderings.{occasion, handler_text};
ghost use Rattle.jm_history.specs.Rows.{placed, event_entry};
ghost use Rattle.jm_model.specs.declared.step.Entry.{Entry};
ghost use Rattle.jm_print.specs.Lexicons.{statements_of};
ghost use Rattle.jm_print.specs.Texts.{pair_text, binding_text, firing_text, run_text_at, run_text, outcome_text};
ghost use Rattle.jm_print.specs.Texts.{full_entry_text, history_text};
ghost use Rattle.jm_print.specs.Shorts.{IsHeadText};
ghost use Rattle.jm_print.specs.Texts.{HasNamesFrom, IsPrintableFiring, IsPrintableStep, IsPrintable};

use crate::head::{Head, heads_of};
use crate::page::Page;
use crate::short::ShortText;
use jm_events::{EventTable, Names};
use jm_handler::Handler;
use jm_history::{Entry, History, Lent, LentEvent, Piece};
use jm_model::{Binding, Firing, Firings, Letter, NoMemory, Outcome, Step};
use std::alloc::Global;
use std::marker::Model;

/// How many pieces tell about how long the text of all of them is, and by how many of their first entries.
const SAMPLES: usize = 64;

const FIRST: usize = 16;

/// The names that a history is printed with, and what the handlers print.
#[derive(Drop)]
struct Printer<'a> {
    specification: &'a str,
    table: &'a EventTable,
    categories: &'a Names,
    handlers: &'a [Handler],
    objects: &'a Names,
    heads: &'a [Head],
}

impl<'a> Model for Printer<'a> {
    ghost use Rattle.jm_print.specs.Lexicons.{Lexicon, lexicon_of};
    ghost use Rattle.jm_print.specs.Shorts.{AreHeads};

    ghost Value = { Lexicon };

    ghost view = { λ p. lexicon_of p.specification.now p.table.now p.categories.now p.objects.now p.handlers.now };

    ghost invariant = { λ p. AreHeads
        (lexicon_of p.specification.now p.table.now p.categories.now p.objects.now p.handlers.now) p.heads.now };
}

/// The text of a history: its specification, a line for each entry and for each handler that ran, with the lines that
/// the handler prints after it, and how many entries there are. No entry may be out of memory, and each letter,
/// parameter, handler and object has its name. The handlers stand in the order of their categories; one that isn't
/// there prints nothing.
pub fn render_history(
    alloc: Global,
    name: &str,
    history: &History,
    table: &EventTable,
    categories: &Names,
    handlers: &[Handler],
    objects: &Names,
) -> Result<Vec<u8>, NoMemory>
    requires { All (IsPrintable (lexicon_of name.now table.now categories.now objects.now handlers.now)) history.now }
    ensures { IfOk result (λ text.
        text.items ≡ history_text (lexicon_of name.now table.now categories.now objects.now handlers.now) history.now) }
{
    let heads = heads_of(alloc, table)?;
    let printer = Printer {
        specification: name,
        table,
        categories,
        handlers,
        objects,
        heads: heads.as_slice(),
    };
    let pieces = history.pieces(alloc)?;
    let mut page = Page::new(alloc);
    page.make_room(printer.estimate(alloc, &pieces)?);
    page.text("spec ")?;
    page.text(name)?;
    page.byte(b'\n')?;
    let count = printer.pieces(&mut page, &pieces)?;
    page.text("end ")?;
    page.number(count)?;
    page.byte(b'\n')?;
    Ok(page.into_bytes())
}

/// The text of one entry of a history, with the lines that follow it, as `render_history` writes it, and under the same
/// conditions.
pub fn render_entry(
    alloc: Global,
    name: &str,
    entry: &Entry,
    table: &EventTable,
    categories: &Names,
    handlers: &[Handler],
    objects: &Names,
) -> Result<Vec<u8>, NoMemory>
    requires { IsPrintable (lexicon_of name.now table.now categories.now objects.now handlers.now) entry.now }
    ensures { IfOk result (λ text. text.items
        ≡ full_entry_text (lexicon_of name.now table.now categories.now objects.now handlers.now) entry.now) }
{
    let printer = Printer {
        specification: name,
        table,
        categories,
        handlers,
        objects,
        heads: &[],
    };
    let mut page = Page::new(alloc);
    printer.entries(&mut page, &Piece::one(entry), 1)?;
    Ok(page.into_bytes())
}

impl Printer<'_> {
    /// About how many bytes the text of these pieces has, and seldom fewer: the first entries of some of them tell,
    /// which lie evenly among all.
    fn estimate(&self, alloc: Global, pieces: &[Piece]) -> Result<usize, NoMemory>
        requires { All (λ piece. All (IsPrintable self.now) piece) pieces.now }
    {
        let stride = pieces.len() / SAMPLES + 1;
        let mut page = Page::new(alloc);
        let mut told = 1usize;
        let mut entries = 1usize;
        for (place, piece) in pieces.iter().enumerate() {
            entries = entries.saturating_add(piece.len());
            if place % stride == 0 {
                let first = piece.len().min(FIRST);
                self.entries(&mut page, piece, first)?;
                told = told.saturating_add(first);
            }
        }
        let bytes = page
            .len()
            .saturating_mul((entries / told).saturating_add(1));
        Ok(bytes.saturating_add(bytes / 16))
    }

    /// The entries of pieces. It answers how many there are.
    fn pieces(&self, page: &mut Page, pieces: &[Piece]) -> Result<u64, NoMemory>
        requires { All (λ piece. All (IsPrintable self.now) piece) pieces.now }
        ensures text { OnOk result (page.new ≡ page.old
            ++ flat_map (full_entry_text self.now) (flat_map (λ piece. piece) pieces.now)) }
        ensures count { IfOk result (λ count. count ≡ length (flat_map (λ piece. piece) pieces.now)) }
    {
        let mut count = 0u64;
        for piece in pieces {
            self.whole(page, piece)?;
            // An entry takes a byte and more, so there are no more of them than bytes.
            let _bytes = page.len();
            count += piece.len() as u64;
        }
        Ok(count)
    }

    /// The entries of a piece.
    fn whole(&self, page: &mut Page, piece: &Piece) -> Result<(), NoMemory>
        requires { All (IsPrintable self.now) piece.now }
        ensures { OnOk result (page.new ≡ page.old ++ flat_map (full_entry_text self.now) piece.now) }
    {
        self.entries(page, piece, piece.len())
    }

    /// The first entries of a piece, up to the given count.
    fn entries(&self, page: &mut Page, piece: &Piece, count: usize) -> Result<(), NoMemory>
        requires printable { All (IsPrintable self.now) piece.now }
        requires in_range { count ≤ length piece.now }
        ensures { OnOk result (page.new
            ≡ page.old ++ flat_map (full_entry_text self.now) (take count piece.now)) }
    {
        for i in 0..count {
            self.entry_at(page, piece, i)?;
        }
        Ok(())
    }

    /// The entry at a place of a piece.
    #[inline(always)]
    fn entry_at(&self, page: &mut Page, piece: &Piece, i: usize) -> Result<(), NoMemory>
        requires printable { All (IsPrintable self.now) piece.now }
        requires in_range { i < length piece.now }
        ensures { OnOk result ((x : Entry) → slice_get piece.now i ≡ Some x
            → page.new ≡ page.old ++ full_entry_text self.now x) }
    {
        match piece.event(i) {
            Some(event) => self.lent_event(page, &event),
            None => self.other_at(page, piece, i),
        }
    }

    /// The entry at a place of a piece, whatever it is. It is a call of its own, so that an event of a row passes by
    /// what it keeps on the stack.
    #[inline(never)]
    fn other_at(&self, page: &mut Page, piece: &Piece, i: usize) -> Result<(), NoMemory>
        requires printable { All (IsPrintable self.now) piece.now }
        requires in_range { i < length piece.now }
        ensures { OnOk result ((x : Entry) → slice_get piece.now i ≡ Some x
            → page.new ≡ page.old ++ full_entry_text self.now x) }
    {
        self.entry(page, &piece.get(i))
    }

    /// An event of a row, with the lines that follow.
    #[inline(always)]
    fn lent_event(&self, page: &mut Page, event: &LentEvent) -> Result<(), NoMemory>
        requires printable { IsPrintable self.now (event_entry event.now) }
        requires objects { count_ones event.now.mask ≤ length event.now.objects.now }
        ensures { OnOk result (page.new ≡ page.old ++ full_entry_text self.now (event_entry event.now)) }
    {
        page.place(event.caller, event.line)?;
        self.call(page, event.letter, event.mask, event.objects)?;
        match event.outcome {
            Outcome::Fired(firings) => self.fired(page, event.caller, event.line, firings),
            Outcome::Refused(object) => self.refused(page, *object),
            _ => unreachable!(),
        }
    }

    /// An event that binds the parameters of a mask to the first of these objects.
    #[inline(always)]
    fn call(
        &self,
        page: &mut Page,
        letter: Letter,
        mask: u8,
        objects: &[u32],
    ) -> Result<(), NoMemory>
        requires letter { letter.0 < length self.now.events }
        requires names { HasNamesFrom self.now 0 (placed mask objects.now) }
        requires objects { count_ones mask ≤ length objects.now }
        ensures { OnOk result (page.new ≡ page.old
            ++ (name_of self.now.events letter.0 ++ codes " " ++ binding_text self.now (placed mask objects.now))) }
    {
        match self.head(letter, mask) {
            Some(text) => page.short(text, self.objects.name(objects[0])),
            None => self.long_call(page, letter, mask, objects),
        }
    }

    /// The head of an event with this letter that binds the parameters of a mask, if one is kept.
    #[inline(always)]
    fn head(&self, letter: Letter, mask: u8) -> Option<&ShortText>
        ensures { IfSome result (λ text. IsHeadText self.now letter.0 mask text.now) }
    {
        match self.heads.get(usize::from(letter.0)) {
            Some(head) if mask != 0 && head.mask == mask => Some(&head.text),
            _ => None,
        }
    }

    /// An event that binds the parameters of a mask to the first of these objects, where no head is kept.
    #[inline(never)]
    fn long_call(
        &self,
        page: &mut Page,
        letter: Letter,
        mask: u8,
        objects: &[u32],
    ) -> Result<(), NoMemory>
        requires letter { letter.0 < length self.now.events }
        requires names { HasNamesFrom self.now 0 (placed mask objects.now) }
        requires objects { count_ones mask ≤ length objects.now }
        ensures { OnOk result (page.new ≡ page.old
            ++ (name_of self.now.events letter.0 ++ codes " " ++ binding_text self.now (placed mask objects.now))) }
    {
        page.text(self.table.event_name(letter))?;
        page.byte(b' ')?;
        self.pairs(page, mask, objects)
    }

    /// The pairs of the parameters of a mask with the first of these objects, with commas between, or a dash.
    #[inline(always)]
    fn pairs(&self, page: &mut Page, mask: u8, objects: &[u32]) -> Result<(), NoMemory>
        requires names { HasNamesFrom self.now 0 (placed mask objects.now) }
        requires objects { count_ones mask ≤ length objects.now }
        ensures { OnOk result (page.new ≡ page.old ++ binding_text self.now (placed mask objects.now)) }
    {
        if mask == 0 {
            return page.byte(b'-');
        }
        let mut first = true;
        let mut rest = mask;
        let mut next = 0;
        let mut p = 0;
        while rest != 0 {
            if rest % 2 == 1 {
                self.pair(page, first, p, objects[next])?;
                first = false;
                next += 1;
            }
            rest /= 2;
            p += 1;
        }
        Ok(())
    }

    /// An entry, with the lines that follow.
    fn entry(&self, page: &mut Page, entry: &Lent) -> Result<(), NoMemory>
        requires { IsPrintable self.now entry.now }
        ensures { OnOk result (page.new ≡ page.old ++ full_entry_text self.now entry.now) }
    {
        page.place(entry.caller(), entry.line())?;
        self.step(page, entry, entry.step(), entry.outcome())
    }

    /// What is said of a step of an entry and its outcome.
    fn step(
        &self,
        page: &mut Page,
        entry: &Lent,
        step: &Step,
        outcome: &Outcome,
    ) -> Result<(), NoMemory>
        requires { IsPrintableStep self.now step.now outcome.now }
        ensures { OnOk result (page.new ≡ page.old
            ++ outcome_text (run_text self.now entry.now) self.now step.now outcome.now) }
    {
        match (step, outcome) {
            (Step::Event { letter, binding }, Outcome::Fired(firings)) => {
                self.event(page, *letter, binding)?;
                self.fired(page, entry.caller(), entry.line(), firings)
            }
            (Step::Event { letter, binding }, Outcome::Refused(object)) => {
                self.event(page, *letter, binding)?;
                self.refused(page, *object)
            }
            (Step::Death { object }, Outcome::Done) => {
                page.text("death ")?;
                page.text(self.objects.name(*object))?;
                page.text(" done\n")
            }
            (Step::Death { object }, Outcome::Refused(dead)) => {
                page.text("death ")?;
                page.text(self.objects.name(*object))?;
                self.refused(page, *dead)
            }
            (Step::Pass, Outcome::Kept(kept)) => {
                page.text("pass kept ")?;
                page.number(*kept)?;
                page.byte(b'\n')
            }
            _ => unreachable!(),
        }
    }

    /// That a step was refused, since an object is dead.
    fn refused(&self, page: &mut Page, object: u32) -> Result<(), NoMemory>
        requires { object < length self.now.objects }
        ensures { OnOk result (page.new
            ≡ page.old ++ (codes " refused " ++ name_of self.now.objects object ++ codes "\n")) }
    {
        page.text(" refused ")?;
        page.text(self.objects.name(object))?;
        page.byte(b'\n')
    }

    /// How many handlers ran at an event on this line of this caller, and a line for each.
    #[inline(always)]
    fn fired(
        &self,
        page: &mut Page,
        caller: u32,
        line: u32,
        firings: &Firings,
    ) -> Result<(), NoMemory>
        requires { All (IsPrintableFiring self.now) firings.now }
        ensures { OnOk result (page.new ≡ page.old ++ (codes " fired " ++ decimal (length firings.now) ++ codes "\n"
            ++ flat_map (run_text_at self.now caller line) firings.now)) }
    {
        if firings.len() == 0 {
            return page.text(" fired 0\n");
        }
        if firings.len() == 1 {
            page.text(" fired 1\n")?;
            return self.firings(page, caller, line, firings);
        }
        page.text(" fired ")?;
        page.number(firings.len() as u64)?;
        page.byte(b'\n')?;
        self.firings(page, caller, line, firings)
    }

    /// The lines of each handler that ran at an event on this line of this caller.
    fn firings(
        &self,
        page: &mut Page,
        caller: u32,
        line: u32,
        firings: &Firings,
    ) -> Result<(), NoMemory>
        requires { All (IsPrintableFiring self.now) firings.now }
        ensures { OnOk result (page.new
            ≡ page.old ++ flat_map (run_text_at self.now caller line) firings.now) }
    {
        for i in 0..firings.len() {
            let firing = firings.get(i);
            self.run(page, caller, line, &firing)?;
        }
        Ok(())
    }

    /// The line of a handler that ran, and what it prints.
    fn run(&self, page: &mut Page, caller: u32, line: u32, firing: &Firing) -> Result<(), NoMemory>
        requires { IsPrintableFiring self.now firing.now }
        ensures { OnOk result (page.new ≡ page.old ++ run_text_at self.now caller line firing.now) }
    {
        self.firing(page, firing)?;
        match self.handlers.get(usize::from(firing.handler)) {
            Some(handler) => self.handler(page, caller, line, handler, firing),
            None => Ok(()),
        }
    }

    /// What a handler that ran prints.
    fn handler(
        &self,
        page: &mut Page,
        caller: u32,
        line: u32,
        handler: &Handler,
        firing: &Firing,
    ) -> Result<(), NoMemory>
        requires { IsPrintableFiring self.now firing.now }
        ensures { OnOk result (page.new ≡ page.old
            ++ handler_text (occasion firing.now.instance self.now.objects caller line) handler.now) }
    {
        page.handler(handler, &firing.instance, self.objects, caller, line)
    }

    /// The line of a handler that ran.
    fn firing(&self, page: &mut Page, firing: &Firing) -> Result<(), NoMemory>
        requires { IsPrintableFiring self.now firing.now }
        ensures { OnOk result (page.new ≡ page.old ++ firing_text self.now firing.now) }
    {
        page.text("  @")?;
        page.text(self.categories.name(u32::from(firing.handler)))?;
        page.byte(b' ')?;
        self.binding(page, &firing.instance)?;
        page.byte(b'\n')
    }

    /// An event with its binding.
    fn event(&self, page: &mut Page, letter: Letter, binding: &Binding) -> Result<(), NoMemory>
        requires { (letter.0 < length self.now.events) × HasNamesFrom self.now 0 binding.now }
        ensures { OnOk result (page.new
            ≡ page.old ++ name_of self.now.events letter.0 ++ codes " " ++ binding_text self.now binding.now) }
    {
        page.text(self.table.event_name(letter))?;
        page.byte(b' ')?;
        self.binding(page, binding)
    }

    /// A binding: its pairs with commas between, or a dash.
    fn binding(&self, page: &mut Page, binding: &Binding) -> Result<(), NoMemory>
        requires { HasNamesFrom self.now 0 binding.now }
        ensures { OnOk result (page.new ≡ page.old ++ binding_text self.now binding.now) }
    {
        if binding.mask() == 0 {
            return page.byte(b'-');
        }
        let mut first = true;
        for p in 0..self.table.params() {
            if let Some(object) = binding.get(p) {
                self.pair(page, first, p, object)?;
                first = false;
            }
        }
        Ok(())
    }

    /// A parameter with its object, after a comma where it isn't the first.
    #[inline(always)]
    fn pair(&self, page: &mut Page, first: bool, p: u8, object: u32) -> Result<(), NoMemory>
        requires { (p < length self.now.parameters) × (object < length self.now.objects) }
        ensures { OnOk result (page.new
            ≡ page.old ++ (if first then [] else codes ",") ++ pair_text self.now p object) }
    {
        page.pair(first, self.table.param_name(p), self.objects.name(object))
    }
}
