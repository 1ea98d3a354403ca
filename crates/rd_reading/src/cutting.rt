//! Cutting a text into lines.
ghost use Rattle.std.specs.Prelude.{◌≢◌, ◌<◌, ◌≤◌, ◌↔◌, ◌∷◌, [], ℕ, List, IsTrue, length};
ghost use Rattle.std.specs.List.{AllPass};
ghost use Rattle.rd_base.specs.Bytes.{is_space};
ghost use Rattle.rd_reading.specs.Texts.{AreLines, BeginsComment, IsSkipped};

use memchr::memchr;

// The first line of a text that isn't empty, and what stands behind it.
pub(crate) fn cut_line(text: &[u8]) -> (&[u8], &[u8])
    requires { text.now ≢ [] }
    ensures lines { (lines : List (List ℕ)) → AreLines result.1.now lines →
        AreLines text.now (result.0.now ∷ lines) }
    ensures less { length result.1.now < length text.now }
    ensures line { length result.0.now ≤ length text.now }
{
    match memchr(b'\n', text) {
        Some(at) => (&text[..at], &text[at + 1..]),
        None => (text, &text[text.len()..]),
    }
}

// Has a line only spaces?
fn is_blank(line: &[u8]) -> bool
    ensures { IsTrue result ↔ AllPass is_space line.now }
{
    line.iter().all(|byte| *byte == b' ')
}

// Does a line begin with `#`?
#[tactic(auto, using(crate::proofs::CuttingLemmas::comment))]
fn begins_comment(line: &[u8]) -> bool
    ensures { IsTrue result ↔ BeginsComment line.now }
{
    line.starts_with(b"#")
}

// Does a line say nothing?
pub(crate) fn is_skipped(line: &[u8]) -> bool
    ensures { IsTrue result ↔ IsSkipped line.now }
{
    begins_comment(line) || is_blank(line)
}
