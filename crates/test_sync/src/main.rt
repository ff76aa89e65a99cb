//! What is cut of scripts that ask for order, and whether they can be run so. The board: items that are taken by
//! whoever waits for them, on one thread and on several.
#![tactic(auto)]

mod rows;
mod scenes;

use jm_model::NoMemory;
use jm_sync::GaveUp;
use rows::{checked, cut_text, many};
use scenes::{Taken, given_up, handed_over, in_place, shared};
use std::alloc::Global;
use std::io;

fn main(rt: HostRuntime) -> io::Result<()> {
    let alloc = rt.alloc();
    print_rows(&rt, alloc)?;
    print_many(&rt, alloc)?;
    print_taken(
        &rt,
        "a second post stands in the place of the first",
        in_place(&rt, alloc),
    )?;
    print_taken(
        &rt,
        "an item reaches a thread that waits",
        handed_over(&rt, alloc),
    )?;
    print_taken(
        &rt,
        "a name that is given up wakes two threads",
        given_up(&rt, alloc),
    )?;
    print_taken(&rt, "two threads take an item each", shared(&rt, alloc))
}

/// What is cut of some scripts, and what is wrong with others.
fn print_rows<R: Print>(rt: &R, alloc: Global) -> io::Result<()> {
    print_cut(rt, alloc)?;
    print_checked(rt, alloc)?;
    print_faults(rt, alloc)
}

/// What is cut of some scripts.
fn print_cut<R: Print>(rt: &R, alloc: Global) -> io::Result<()> {
    print_row(
        rt,
        cut_text(
            alloc,
            b"  post i\t# i is a name\r\nHasNext.next i\r\nwait i\r\n",
        ),
    )?;
    print_row(
        rt,
        cut_text(alloc, b"post a b\npost # a\nwait\n\npost a,b\npost a"),
    )?;
    print_row(rt, cut_text(alloc, b"wait b\npost a\nwait b\npasses x"))
}

/// Scripts that can be done in the order that they ask for, and one that waits for what it posts below.
fn print_checked<R: Print>(rt: &R, alloc: Global) -> io::Result<()> {
    print_row(rt, checked(alloc, &[b"s\ns\npost ready", b"wait ready\ns"]))?;
    print_row(rt, checked(alloc, &[b"post x\nc\nwait x\nwait x\nu"]))?;
    print_row(rt, checked(alloc, &[b"c\nwait x\npost x"]))
}

/// What is wrong with several scripts: a name that nobody posts, or that is posted twice, or scripts that wait for each
/// other.
fn print_faults<R: Print>(rt: &R, alloc: Global) -> io::Result<()> {
    print_row(rt, checked(alloc, &[b"n", b"n\nwait nobody"]))?;
    print_row(rt, checked(alloc, &[b"post x", b"n\npost x"]))?;
    print_row(rt, checked(alloc, &[b"wait a\npost b", b"wait b\npost a"]))?;
    print_row(rt, checked(alloc, &[b"post a\npost a"]))?;
    print_circle(rt, alloc)
}

/// Three scripts that wait for each other in a circle, and two with a fault each.
fn print_circle<R: Print>(rt: &R, alloc: Global) -> io::Result<()> {
    print_row(
        rt,
        checked(
            alloc,
            &[
                b"post s\nwait a\npost b",
                b"wait s\nwait b\npost c",
                b"wait c\npost a",
            ],
        ),
    )?;
    print_row(rt, checked(alloc, &[b"wait never", b"post x\npost x"]))
}

fn print_row<R: Print>(rt: &R, text: Result<String, NoMemory>) -> io::Result<()> {
    match text {
        Ok(text) => println!(rt; "{text}"),
        Err(NoMemory) => println!(rt; "out of memory"),
    }
}

/// Scripts with as many lines as there may be, and one line more.
fn print_many<R: Print>(rt: &R, alloc: Global) -> io::Result<()> {
    print_row(rt, many_checked(alloc, b"", b""))?;
    print_row(rt, many_checked(alloc, b"wait n0", b""))?;
    print_row(rt, many_checked(alloc, b"post n0", b""))?;
    print_row(rt, many_checked(alloc, b"", b"\npost x"))
}

/// Whether 65,536 lines that post, with these lines after them, and another script can be run.
fn many_checked(alloc: Global, last: &[u8], other: &[u8]) -> Result<String, NoMemory> {
    let first = many(alloc, 65_536, last)?;
    checked(alloc, &[&first, other])
}

/// Prints what was taken, in order of the items.
fn print_taken(rt: &impl Print, what: &str, taken: Option<(Taken, Taken)>) -> io::Result<()> {
    let Some((first, second)) = taken else {
        return println!(rt; "{what}: out of memory");
    };
    print!(rt; "{what}:")?;
    print_one(rt, first)?;
    print_one(rt, second)?;
    println!(rt;)
}

fn print_one(rt: &impl Print, taken: Taken) -> io::Result<()> {
    match taken {
        Ok(item) => print!(rt; " item {} of name {}", item.value, item.name),
        Err(GaveUp { name }) => print!(rt; " name {name} given up"),
    }
}
