//! The hash of a text.
ghost use Rattle.std.specs.Prelude.{◌≡◌, ◌<◌, length};
ghost use Rattle.jm_events.specs.Hash.{mix, few_bytes, hash_of};

/// An odd number that spreads the bits of another over the high ones of their product.
const SPREAD: u64 = 0x9e37_79b9_7f4a_7c15;

/// The hash of a text: of eight bytes at a time, then of those that are left.
#[inline(always)]
pub fn hash_of(text: &[u8]) -> u32
    ensures { result ≡ hash_of text.now }
{
    let mut hash = 0;
    let mut rest = text;
    while let [a, b, c, d, e, f, g, h, behind @ ..] = rest {
        hash = mix(hash, u64::from_le_bytes([*a, *b, *c, *d, *e, *f, *g, *h]));
        rest = behind;
    }
    (mix(hash, few_bytes(rest)) >> 32) as u32
}

/// Fewer than eight bytes as one number, as if zeros stood after them.
#[inline(always)]
fn few_bytes(text: &[u8]) -> u64
    requires { length text.now < 8 }
    ensures { result ≡ few_bytes text.now }
{
    match text {
        [a] => u64::from_le_bytes([*a, 0, 0, 0, 0, 0, 0, 0]),
        [a, b] => u64::from_le_bytes([*a, *b, 0, 0, 0, 0, 0, 0]),
        [a, b, c] => u64::from_le_bytes([*a, *b, *c, 0, 0, 0, 0, 0]),
        [a, b, c, d] => u64::from_le_bytes([*a, *b, *c, *d, 0, 0, 0, 0]),
        [a, b, c, d, e] => u64::from_le_bytes([*a, *b, *c, *d, *e, 0, 0, 0]),
        [a, b, c, d, e, f] => u64::from_le_bytes([*a, *b, *c, *d, *e, *f, 0, 0]),
        [a, b, c, d, e, f, g] => u64::from_le_bytes([*a, *b, *c, *d, *e, *f, *g, 0]),
        _ => 0,
    }
}

/// A hash so far, with more bits.
#[inline(always)]
fn mix(hash: u64, bits: u64) -> u64
    ensures { result ≡ mix hash bits }
{
    hash.wrapping_add(bits).wrapping_mul(SPREAD)
}
