//! The hash of a text. The hasher's seed is fixed: of a write of more than eight bytes it multiplies two parts with one another, so that
//! one of them makes the product 0, whatever the other is. A part of at most eight bytes is multiplied by a number that isn't 0.
ghost use Rattle.std.specs.Prelude.{◌≡◌, fold};
ghost use Rattle.rd_base.specs.Hashing.{eights_of, text_input};

use std::hash::Hasher;

// Hashes the bytes in parts of eight.
fn hash_parts<H: Hasher>(bytes: &[u8], state: &mut H)
    ensures { state.new ≡ fold H.write state.old (eights_of bytes.now) }
{
    let mut rest = bytes;
    while rest.len() > 8 {
        state.write(&rest[..8]);
        rest = &rest[8..];
    }
    state.write(rest)
}

// Hashes a text, so that no chosen part of it makes the rest of no account: in parts of eight bytes, and a text above eight bytes twice.
pub(crate) fn hash_text<H: Hasher>(bytes: &[u8], state: &mut H)
    ensures { state.new ≡ fold H.write state.old (text_input bytes.now) }
{
    if bytes.len() <= 8 {
        state.write(bytes);
        return;
    }
    hash_parts(bytes, state);
    hash_parts(bytes, state)
}
