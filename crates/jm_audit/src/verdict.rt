//! What an audit answers.

/// What an audit answers: the text is one that a run of the scripts may print, or not. Then `line` is the first of its
/// lines, counted from 1, that no such text has there, after the same whole lines before it.
pub enum Verdict {
    Yes,
    No { line: u64 },
}
