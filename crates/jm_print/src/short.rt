//! Texts of a few bytes, which are copied as a whole.
ghost use Rattle.std.specs.Prelude.{◌≡◌, ◌+◌, ◌≤◌, ◌++◌, length, vec_len, vec_capacity};
ghost use Rattle.jm_print.specs.Shorts.{IsShort, short_text};

/// How many bytes a short text has at most.
pub(crate) const MOST: usize = 32;

/// A text of at most 32 bytes, of so many of the bytes as its length says.
#[derive(Clone, Copy)]
pub(crate) struct ShortText {
    pub(crate) bytes: [u8; 32],
    pub(crate) len: usize,
}

impl ShortText {
    /// A text as a short one.
    pub(crate) fn new(text: &[u8]) -> ShortText
        requires { length text.now ≤ 32 }
        ensures text { short_text result ≡ text.now }
        ensures short { IsShort result }
    {
        let mut bytes = [b' '; MOST];
        let len = text.len();
        bytes[..len].copy_from_slice(text);
        ShortText { bytes, len }
    }

    /// Puts it after bytes that have room for the longest one. All its bytes are copied, and those that are too many are
    /// cut off, so that it takes no call.
    #[inline(always)]
    pub(crate) fn put_onto(&self, bytes: &mut Vec<u8>)
        requires short { IsShort self.now }
        requires room { vec_len bytes.old + 32 ≤ vec_capacity bytes.old }
        ensures items { bytes.new.items ≡ bytes.old.items ++ short_text self.now }
        ensures len { vec_len bytes.new ≡ vec_len bytes.old + self.now.len }
        ensures capacity { vec_capacity bytes.old ≤ vec_capacity bytes.new }
    {
        let end = bytes.len() + self.len;
        let all = self.bytes;
        let _ = bytes.extend_from_slice(&all);
        bytes.truncate(end);
    }
}
