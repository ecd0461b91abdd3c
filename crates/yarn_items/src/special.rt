//! Whether a text has a byte that a line of a body can't have where it is its own text.
ghost use Rattle.std.specs.Prelude.{◌≡◌, ◌+◌, ◌≤◌, length, take, drop};
ghost use Rattle.std.specs.List.{list_any};
ghost use Rattle.yarn_items.specs.Simple.{is_special};

use crate::table::is_special_byte;
use std::simd::prelude::*;

// How many bytes are looked at at once.
const BLOCK: usize = 16;

// At a number below 16, the special byte whose low four bits it is, or else a byte with other low bits. `<` has those
// of `\`.
const BY_LOW_BITS: [u8; 16] = [
    1, 0, 0, b'#', 0, 0, 0, 0, 0, 0, 0, b'{', b'\\', b'\r', 0, b'/',
];

/// Whether the text has such a byte.
pub(crate) fn has_special(text: &[u8]) -> bool
    ensures { result ≡ list_any is_special text.now }
{
    if text.len() < BLOCK {
        has_special_by_bytes(text)
    } else {
        has_special_by_blocks(text)
    }
}

// Goes over the whole text, which is faster than to stop at the first one.
fn has_special_by_bytes(text: &[u8]) -> bool
    ensures { result ≡ list_any is_special text.now }
{
    let mut found = false;
    for byte in text {
        found |= is_special_byte(*byte);
    }
    found
}

// The last block ends with the text, so it may begin within the one before it.
fn has_special_by_blocks(text: &[u8]) -> bool
    requires { BLOCK ≤ length text.now }
    ensures { result ≡ list_any is_special text.now }
{
    let mut at = 0;
    while text.len() - at > BLOCK {
        if block_has_special(text, at) {
            return true;
        }
        at += BLOCK;
    }
    block_has_special(text, text.len() - BLOCK)
}

// Each byte is compared with the one in the table that it can be, and with `<`.
fn block_has_special(text: &[u8], at: usize) -> bool
    requires { at + BLOCK ≤ length text.now }
    ensures { result ≡ list_any is_special (take BLOCK (drop at text.now)) }
{
    let bytes = u8x16::from_slice(&text[at..]);
    let alike = u8x16::from_array(BY_LOW_BITS).swizzle_dyn(bytes & u8x16::splat(0xf));
    let special = bytes.simd_eq(alike) | bytes.simd_eq(u8x16::splat(b'<'));
    special.to_bitmask() != 0
}
