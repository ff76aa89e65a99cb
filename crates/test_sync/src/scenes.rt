//! Boards, and what is taken off them.
ghost use Rattle.std.specs.Prelude.{◌≡◌, ◌<◌, All, IfSome};

use jm_sync::{Board, GaveUp, Posted};
use std::alloc::Global;
use std::sync::Wait;
use std::thread;
use std::thread::Threads;

/// An item, which holds the name that it is posted under.
#[derive(Clone, Copy)]
pub(crate) struct Item {
    pub(crate) name: u32,
    pub(crate) value: u32,
}

impl Posted for Item {
    ghost number = { λ item. item.name };
}

pub(crate) type Taken = Result<Item, GaveUp>;

fn items(alloc: Global, name: u32, values: &[u32]) -> Option<Vec<Item>>
    ensures { IfSome result (λ items. All (λ item. item.name ≡ name) items.items) }
{
    let mut items = Vec::new(alloc);
    for value in values {
        items
            .push(Item {
                name,
                value: *value,
            })
            .ok()?;
    }
    Some(items)
}

/// Two items are posted, and then one under the same name; two are asked for.
pub(crate) fn in_place<R: Wait>(rt: &R, alloc: Global) -> Option<(Taken, Taken)> {
    let board = Board::<Item, GaveUp>::new(alloc, 2).ok()?;
    board.post(rt, 1, items(alloc, 1, &[10, 11])?);
    board.post(rt, 1, items(alloc, 1, &[12])?);
    board.give_up(rt, 1, GaveUp { name: 1 });
    Some((board.take(rt, 1), board.take(rt, 1)))
}

/// One thread waits for an item and then for a name that is given up; the other posts it.
pub(crate) fn handed_over<R: Threads + Wait + Sync>(
    rt: &R,
    alloc: Global,
) -> Option<(Taken, Taken)> {
    let board = Board::<Item, GaveUp>::new(alloc, 2).ok()?;
    let posted = items(alloc, 0, &[7])?;
    let (taken, _done) = thread::join(
        rt,
        || -> (Taken, Taken)
            requires { 1 < board }
        { (board.take(rt, 0), board.take(rt, 1)) },
        || -> ()
            requires { (1 < board) × All (λ item. item.name ≡ 0) posted.items }
        {
            board.post(rt, 0, posted);
            board.give_up(rt, 1, GaveUp { name: 1 });
        },
    );
    Some(taken)
}

/// Two threads wait for a name that a third gives up.
pub(crate) fn given_up<R: Threads + Wait + Sync>(rt: &R, alloc: Global) -> Option<(Taken, Taken)> {
    let board = Board::<Item, GaveUp>::new(alloc, 1).ok()?;
    let ((first, second), _done) = thread::join(
        rt,
        || -> (Taken, Taken)
            requires { 0 < board }
        { both(rt, &board) },
        || -> ()
            requires { 0 < board }
        { board.give_up(rt, 0, GaveUp { name: 0 }) },
    );
    Some((first, second))
}

/// Two threads wait for the two items that a third posts.
pub(crate) fn shared<R: Threads + Wait + Sync>(rt: &R, alloc: Global) -> Option<(Taken, Taken)> {
    let board = Board::<Item, GaveUp>::new(alloc, 1).ok()?;
    let posted = items(alloc, 0, &[5, 5])?;
    let ((first, second), _done) = thread::join(
        rt,
        || -> (Taken, Taken)
            requires { 0 < board }
        { both(rt, &board) },
        || -> ()
            requires { (0 < board) × All (λ item. item.name ≡ 0) posted.items }
        { board.post(rt, 0, posted) },
    );
    Some((first, second))
}

/// What two threads take under the first name.
fn both<R: Threads + Wait + Sync>(rt: &R, board: &Board<Item, GaveUp>) -> (Taken, Taken)
    requires { 0 < board.now }
{
    thread::join(
        rt,
        || -> Taken
            requires { 0 < board.now }
        { board.take(rt, 0) },
        || -> Taken
            requires { 0 < board.now }
        { board.take(rt, 0) },
    )
}
