//! The steps of cases.
ghost use Rattle.std.specs.Prelude.{◌≡◌, ◌<◌, All, IfSome};
ghost use Rattle.jm_dispatch.specs.Masks.{AreMasksOf};
ghost use Rattle.jm_turn.specs.Seats.{IsSeatOf};
ghost use Rattle.test_dispatch.specs.Acts.{AreLettersOf, Suits};

use arrayvec::ArrayVec;
use jm_dispatch::{Answer, Seat, Watch};
use jm_model::{Letter, Monitor, NoMemory};
use std::alloc::Global;
use std::sync::Wait;
use testkit::number_of;

/// What a seat does.
#[derive(Drop)]
pub enum Act {
    Emit(Letter, ArrayVec<u32, 8>),
    Die(u32),
    PassBy,
}

/// The letters of rules: how many there are, and the parameters of each.
#[derive(Drop)]
pub struct Letters {
    count: u8,
    masks: [u8; 32],
}

impl Letters {
    pub fn of<M: Monitor>(rules: &M) -> Letters
        ensures { AreLettersOf (M.meaning (M.definition rules.now)) result }
    {
        let count = rules.letters();
        let masks = masks_of(rules);
        Letters { count, masks }
    }

    /// The act of words such as `event:LETTER:OBJECT,..`, `death:OBJECT` or `pass`, over so many objects.
    pub fn act(&self, words: &str, objects: u32) -> Option<Act>
        ensures { IfSome result (λ act. Suits self.now objects act) }
    {
        let (verb, rest) = words.split_once(':').unwrap_or((words, ""));
        match verb {
            "event" => self.event(rest, objects),
            "death" => self.death(number_of(rest), objects),
            _ => Some(Act::PassBy),
        }
    }

    fn death(&self, object: u32, objects: u32) -> Option<Act>
        ensures { IfSome result (λ act. Suits self.now objects act) }
    {
        let _count = self.count;
        if object < objects {
            Some(Act::Die(object))
        } else {
            None
        }
    }

    fn event(&self, words: &str, objects: u32) -> Option<Act>
        ensures { IfSome result (λ act. Suits self.now objects act) }
    {
        let (letter, rest) = words.split_once(':').unwrap_or((words, ""));
        let letter = letter.parse::<u8>().ok()?;
        let args = args_of(rest, objects)?;
        self.emit(letter, args, objects)
    }

    /// The event of a letter and the objects of its parameters, each below a number.
    pub fn emit(&self, letter: u8, args: ArrayVec<u32, 8>, objects: u32) -> Option<Act>
        requires { All (λ o. o < objects) args.items }
        ensures { IfSome result (λ act. Suits self.now objects act) }
    {
        let at = usize::from(letter);
        if letter >= self.count || at >= 32 {
            return None;
        }
        if self.masks[at].count_ones() as usize != args.len() {
            return None;
        }
        Some(Act::Emit(Letter(letter), args))
    }
}

/// The parameters of each letter.
fn masks_of<M: Monitor>(rules: &M) -> [u8; 32]
    ensures { AreMasksOf (M.meaning (M.definition rules.now)) result }
{
    let mut masks = [0; 32];
    for e in 0..rules.letters() {
        masks[e as usize] = rules.params(Letter(e));
    }
    masks
}

/// At most eight numbers with a `,` between, each below a number.
fn args_of(words: &str, objects: u32) -> Option<ArrayVec<u32, 8>>
    ensures { IfSome result (λ args. All (λ o. o < objects) args.items) }
{
    let mut args = ArrayVec::new();
    for word in words.split(',') {
        if word.is_empty() {
            continue;
        }
        let object = number_of(word);
        if object >= objects || args.is_full() {
            return None;
        }
        args.push(object);
    }
    Some(args)
}

/// A seat does an act.
pub fn done<M: Monitor>(
    rt: &impl Wait,
    alloc: Global,
    watch: &Watch<M>,
    letters: &Letters,
    seat: &mut Seat<M>,
    line: u32,
    act: Act,
) -> Result<Answer, NoMemory>
    requires letters { AreLettersOf (M.meaning watch.now.fixed.definition) letters.now }
    requires seat { IsSeatOf watch.now seat.old }
    requires act { Suits letters.now watch.now.fixed.objects act }
    ensures { IsSeatOf watch.now seat.new }
{
    let _count = letters.count;
    match act {
        Act::Emit(letter, args) => watch.emit(rt, alloc, seat, line, letter, &args),
        Act::Die(object) => watch.death(rt, alloc, seat, line, object),
        Act::PassBy => watch.pass(rt, alloc, seat, line),
    }
}
