//! What a handler prints when it runs.
ghost use Rattle.std.specs.Prelude.{◌≡◌, ◌++◌, [], IfOk, OnOk, OnErr};
ghost use Rattle.std.specs.List.{flat_map};
ghost use Rattle.jm_model.specs.Bindings.{object_at};
ghost use Rattle.jm_handler.specs.Broken.{broken};
ghost use Rattle.jm_handler.specs.Renderings.{AreNamed, occasion, object_text, term_text};
ghost use Rattle.jm_handler.specs.Renderings.{statement_text, marked_lines, handler_text};

use crate::handler::{Handler, Statement};
use crate::page::{number, text};
use crate::term::Term;
use jm_events::Names;
use jm_model::{Binding, NoMemory};
use std::alloc::Global;
use std::marker::Model;

/// What a handler runs for.
#[derive(Drop)]
struct Occasion<'a> {
    instance: &'a Binding,
    objects: &'a Names,
    caller: u32,
    line: u32,
}

impl<'a> Model for Occasion<'a> {
    ghost use Rattle.jm_handler.specs.Renderings.{Occasion as OccasionOf, occasion};

    ghost Value = { OccasionOf };

    ghost view = { λ o. occasion o.instance.now o.objects.now o.caller o.line };
}

impl Handler {
    /// The text of the handler where it runs for an instance, at an event on this line of this caller: that of each
    /// statement in order, cut at its line breaks, each piece on a line of its own after two spaces, `>` and a space.
    /// A parameter that the instance doesn't bind is `null`. Each object that is bound has its name.
    pub fn render(
        &self,
        alloc: Global,
        instance: &Binding,
        objects: &Names,
        caller: u32,
        line: u32,
    ) -> Result<Vec<u8>, NoMemory>
        requires { AreNamed objects.now instance.now }
        ensures { IfOk result (λ text.
            text.items ≡ handler_text (occasion instance.now objects.now caller line) self.now) }
    {
        let mut text = Vec::new(alloc);
        self.render_onto(&mut text, instance, objects, caller, line)?;
        Ok(text)
    }

    /// Adds the same text at the end of a page, which is empty after an error.
    pub fn render_onto(
        &self,
        page: &mut Vec<u8>,
        instance: &Binding,
        objects: &Names,
        caller: u32,
        line: u32,
    ) -> Result<(), NoMemory>
        requires { AreNamed objects.now instance.now }
        ensures ok { OnOk result (page.new.items ≡ page.old.items
            ++ handler_text (occasion instance.now objects.now caller line) self.now) }
        ensures err { OnErr result (page.new.items ≡ []) }
    {
        let occasion = Occasion {
            instance,
            objects,
            caller,
            line,
        };
        match occasion.statements(page, self.statements()) {
            Ok(()) => Ok(()),
            Err(error) => {
                page.clear();
                Err(error)
            }
        }
    }
}

impl Occasion<'_> {
    fn statements(&self, page: &mut Vec<u8>, statements: &[Statement]) -> Result<(), NoMemory>
        requires { AreNamed self.now.objects self.now.instance }
        ensures { OnOk result (page.new.items ≡ page.old.items ++ handler_text self.now statements.now) }
    {
        for statement in statements {
            self.statement(page, statement)?;
        }
        Ok(())
    }

    /// Adds the lines of a statement: its terms, cut at their line breaks.
    fn statement(&self, page: &mut Vec<u8>, statement: &Statement) -> Result<(), NoMemory>
        requires { AreNamed self.now.objects self.now.instance }
        ensures { OnOk result (page.new.items
            ≡ page.old.items ++ marked_lines (statement_text self.now statement.now)) }
    {
        page.extend_from_slice(b"  > ")?;
        for term in statement.terms() {
            self.term(page, term)?;
        }
        Ok(page.push(b'\n')?)
    }

    fn term(&self, page: &mut Vec<u8>, term: &Term) -> Result<(), NoMemory>
        requires { AreNamed self.now.objects self.now.instance }
        ensures { OnOk result (page.new.items ≡ page.old.items ++ broken (term_text self.now term.now)) }
    {
        match term {
            Term::Literal(literal) => text(page, literal.as_slice()),
            Term::Parameter(p) => text(page, self.object(*p)),
            Term::Place => {
                number(page, self.caller)?;
                page.push(b':')?;
                number(page, self.line)
            }
        }
    }

    /// The name of the object that a parameter is bound to.
    fn object(&self, p: u8) -> &[u8]
        requires { AreNamed self.now.objects self.now.instance }
        ensures { result.now ≡ object_text self.now.objects (object_at self.now.instance p) }
    {
        if self.instance.mask() == 0 || p >= 8 {
            return b"null";
        }
        match self.instance.get(p) {
            Some(object) => self.objects.name(object).as_bytes(),
            None => b"null",
        }
    }
}
