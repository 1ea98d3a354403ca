//! Strings.
ghost use Rattle.std.specs.Prelude.{◌≡◌, ◌<◌, ◌++◌, ◌∷◌, [], flat_map, length, IfSome, MatchOption, OnOk};
ghost use Rattle.rd_json.specs.Json.{string_byte, string_json};

use memchr::memchr2;
use rd_base::{Bytes, NoMemory};

// The first byte that is escaped, with the bytes in front of it and those behind it.
#[tactic(auto, using(crate::proofs::StringLemmas::none_escaped))]
fn first_escaped(bytes: &[u8]) -> Option<(&[u8], u8, &[u8])>
    ensures parts { MatchOption result
        (flat_map string_byte bytes.now ≡ bytes.now)
        (λ parts. flat_map string_byte bytes.now
        ≡ parts.0.now ++ (92 ∷ parts.1 ∷ []) ++ flat_map string_byte parts.2.now) }
    ensures less { IfSome result (λ parts. length parts.2.now < length bytes.now) }
{
    match memchr2(b'"', b'\\', bytes) {
        Some(at) => Some((&bytes[..at], bytes[at], &bytes[at + 1..])),
        None => None,
    }
}

// Puts bytes behind the text, with `\` before each `"` and `\`.
fn append_escaped(text: &mut Bytes, bytes: &[u8]) -> Result<(), NoMemory>
    ensures { OnOk result (text.new ≡ text.old ++ flat_map string_byte bytes.now) }
{
    let mut rest = bytes;
    while let Some((front, byte, behind)) = first_escaped(rest) {
        text.append(front)?;
        text.append(&[b'\\', byte])?;
        rest = behind;
    }
    text.append(rest)
}

// Puts a string behind the text.
pub(crate) fn append_string(text: &mut Bytes, bytes: &[u8]) -> Result<(), NoMemory>
    ensures { OnOk result (text.new ≡ text.old ++ string_json bytes.now) }
{
    text.push(b'"')?;
    append_escaped(text, bytes)?;
    text.push(b'"')
}
