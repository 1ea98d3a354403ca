//! Objects and strings.
ghost use Rattle.std.specs.Prelude.{◌≡◌, List, ℕ, ◌++◌, codes, false, length, OnOk};
ghost use Rattle.serde_json.specs.View.{view};
ghost use Rattle.serde_json.specs.Written.{compact_text, has_float};
ghost use Rattle.rd_report.specs.Writing.{ArePlain};

use rd_base::{Bytes, NoMemory};
use serde_json::Value;
use std::alloc::Global;
use std::str;

// Plain bytes as text.
#[tactic(auto, using(crate::proofs::PlainLemmas::plain_is_utf8))]
pub(crate) fn plain_str(bytes: &[u8]) -> &str
    requires { ArePlain bytes.now }
    ensures { result.now ≡ bytes.now }
{
    str::from_utf8(bytes).unwrap()
}

// A line without so many bytes in front, and without its line feed.
pub(crate) fn inside(line: &[u8], skipped: usize) -> &[u8]
    requires { (front : List ℕ) × (words : List ℕ) × (skipped ≡ length front)
        × (line.now ≡ front ++ words ++ codes "\n") }
    ensures { (front words : List ℕ) → skipped ≡ length front →
        line.now ≡ front ++ words ++ codes "\n" → result.now ≡ words }
{
    &line[skipped..line.len() - 1]
}

// Puts an object without floats behind the text, with a line feed.
pub(crate) fn append_object(text: &mut Bytes, alloc: Global, object: &Value) -> Result<(), NoMemory>
    requires { has_float (view object.now) ≡ false }
    ensures { OnOk result (text.new ≡ text.old ++ (compact_text (view object.now) ++ codes "\n")) }
{
    let written = object.to_vec(alloc)?;
    text.append(&written)?;
    text.push(b'\n')
}
