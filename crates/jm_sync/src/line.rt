//! Lines that ask for order.

/// What a line asks for: that its name is posted, or to wait until it is.
#[derive(Clone, Copy, Debug, PartialEq, Eq)]
pub enum SyncKind {
    Post,
    Wait,
}

/// A line that asks for order: its number, counted from 1, what it asks for, and the number of its name.
#[derive(Clone, Copy, Debug, PartialEq, Eq)]
pub struct SyncLine {
    pub line: u32,
    pub kind: SyncKind,
    pub name: u32,
}

/// A script that was cut: its other lines, under the numbers that they had, and the lines that ask for order.
#[derive(Drop)]
pub struct Cut {
    pub rest: Vec<u8>,
    pub lines: Vec<SyncLine>,
}
