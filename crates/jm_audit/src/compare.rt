//! What a text and another have in common.
ghost use Rattle.std.specs.Prelude.{◌≡◌, ◌≤◌, ◌↔◌, Some, IsTrue, length, option_map, slice_get};
ghost use Rattle.jm_audit.specs.Fronts.{agreeing};
ghost use Rattle.jm_audit.specs.Places.{IsLeftBehind};

/// How many whole lines two texts begin with alike.
pub(crate) fn agreeing_lines(one: &[u8], other: &[u8]) -> u64
    ensures value { result ≡ agreeing one.now other.now }
    ensures bounded { result ≤ length one.now }
{
    let mut lines = 0;
    for (i, a) in one.iter().enumerate() {
        if !is_at(other, i, *a) {
            return lines;
        }
        if *a == b'\n' {
            lines += 1;
        }
    }
    lines
}

/// Whether a text has the byte at this place.
pub(crate) fn is_at(text: &[u8], place: usize, byte: u8) -> bool
    ensures { IsTrue result ↔ (slice_get text.now place ≡ Some byte) }
{
    match text.get(place) {
        Some(b) => *b == byte,
        None => false,
    }
}

/// What is left of a text after a block, if it goes on with the block.
pub(crate) fn left_behind<'t>(rest: Option<&'t [u8]>, block: &[u8]) -> Option<&'t [u8]>
    ensures { IsLeftBehind block.now (option_map (λ r. r.now) rest.entry) (option_map (λ r. r.now) result) }
{
    match rest {
        Some(rest) => rest.strip_prefix(block),
        None => None,
    }
}
