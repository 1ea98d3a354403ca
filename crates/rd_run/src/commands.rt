//! What the words of the command line ask for.
ghost use Rattle.std.specs.Prelude.{◌≡◌, ◌≢◌, ◌<◌, ◌≤◌, IsTrue, List, ℕ, [], ◌∷◌, drop, length, option_map, position, slice_get, IfSome};
ghost use Rattle.rd_gen.specs.declared.counts.TheConstants.{MOST_CALLS};
ghost use Rattle.rd_kinds.specs.Shipped.{shipped_kinds};
ghost use Rattle.rd_rules.specs.MayFollow.{same_name};
ghost use Rattle.rd_run.specs.Commands.{IsWithinBounds, ask_to_weave, command_of, lines_read, named_number, numbers_read, nth_word, other_command};

use rd_base::{Name, Word};
use rd_decimals::read_number;
use rd_gen::MOST_CALLS;
use rd_json::Form;
use rd_kinds::reserved;

/// What the words of the command line ask for. A file that a command names is one of its words: the trace or the specification is the
/// second, and what stands behind a trace is the third.
#[derive(Clone, Copy, PartialEq, Eq)]
pub enum Command {
    /// `check TRACE`, `check TRACE SPEC`, and the same with `check-json`, by the form of the report
    Check(Form),
    /// `replay TRACE`
    Replay,
    /// `epochs TRACE`
    Epochs,
    /// `reorder TRACE NUMBER`
    Reorder(u64),
    /// `adjacent TRACE LINE LINE`, by the two lines, the lesser first
    Adjacent(u64, u64),
    /// `spec SPEC`
    Spec,
    /// `points SPEC`
    Points,
    /// `weave FILE ..`, whose files are the words behind the first
    Weave,
    /// `kind NAME`, where a kind that is built in has the name, by its number
    Kind(u32),
    /// `gen NUMBER COUNT`
    Gen(u64, u32),
    /// `gen-text NUMBER COUNT`
    GenText(u64, u32),
}

// The place of the first of the names that has these bytes.
fn place_of(names: &[Name], name: &[u8]) -> Option<usize>
    ensures place { result ≡ position (same_name name.now) names.now }
    ensures within { IfSome result (λ place. place < length names.now) }
{
    names.iter().position(|taken| name == taken.items())
}

/// The number of the kind that is built in with this name.
fn shipped_number(name: &Word) -> Option<u32>
    ensures named { result ≡ named_number name.now }
    ensures known { IfSome result (λ number. number < length shipped_kinds) }
{
    // the names that are taken are those of the kinds that are built in, by their numbers
    match place_of(&reserved(), name.items()) {
        Some(number) => Some(number as u32),
        None => None,
    }
}

/// The number of a generated trace, and how many calls it has, if the words spell these.
fn trace_numbers(number: &Word, count: &Word) -> Option<(u64, u32)>
    ensures numbers { result ≡ numbers_read number.now count.now }
    ensures few { IfSome result (λ numbers. numbers.1 ≤ MOST_CALLS) }
{
    let Some(number) = read_number(number.items(), u64::MAX) else {
        return None;
    };
    match read_number(count.items(), u64::from(MOST_CALLS)) {
        Some(count) => Some((number, count as u32)),
        None => None,
    }
}

/// The command that a word and a file, or a name, ask for, if they do for one.
fn command_of_two(word: &Word, name: &Word) -> Option<Command>
    ensures asked { result ≡ other_command (word.now ∷ name.now ∷ []) }
    ensures within { IfSome result IsWithinBounds }
{
    let word = word.items();
    if word == b"check".as_slice() {
        return Some(Command::Check(Form::Text));
    }
    if word == b"check-json".as_slice() {
        return Some(Command::Check(Form::Json));
    }
    if word == b"replay".as_slice() {
        return Some(Command::Replay);
    }
    if word == b"epochs".as_slice() {
        return Some(Command::Epochs);
    }
    if word == b"spec".as_slice() {
        return Some(Command::Spec);
    }
    if word == b"points".as_slice() {
        return Some(Command::Points);
    }
    if word == b"kind".as_slice() {
        return match shipped_number(name) {
            Some(number) => Some(Command::Kind(number)),
            None => None,
        };
    }
    None
}

/// The command that a word, a file or a number, and another of these ask for, if they do for one.
fn command_of_three(word: &Word, first: &Word, second: &Word) -> Option<Command>
    ensures asked { result ≡ other_command (word.now ∷ first.now ∷ second.now ∷ []) }
    ensures within { IfSome result IsWithinBounds }
{
    let word = word.items();
    if word == b"check".as_slice() {
        return Some(Command::Check(Form::Text));
    }
    if word == b"check-json".as_slice() {
        return Some(Command::Check(Form::Json));
    }
    if word == b"reorder".as_slice() {
        return match read_number(second.items(), u64::MAX) {
            Some(number) => Some(Command::Reorder(number)),
            None => None,
        };
    }
    if word == b"gen".as_slice() {
        return match trace_numbers(first, second) {
            Some((number, count)) => Some(Command::Gen(number, count)),
            None => None,
        };
    }
    if word == b"gen-text".as_slice() {
        return match trace_numbers(first, second) {
            Some((number, count)) => Some(Command::GenText(number, count)),
            None => None,
        };
    }
    None
}

/// The numbers of two lines, the lesser first, if the words spell two different ones.
fn call_lines(first: &Word, second: &Word) -> Option<(u64, u64)>
    ensures lines { result ≡ lines_read first.now second.now }
    ensures order { IfSome result (λ lines. lines.0 < lines.1) }
{
    let first = read_number(first.items(), u64::MAX)?;
    let second = read_number(second.items(), u64::MAX)?;
    if first < second {
        return Some((first, second));
    }
    if second < first {
        return Some((second, first));
    }
    None
}

/// The command that a word, a file and two more words ask for, if they do for one.
fn command_of_four(word: &Word, first: &Word, second: &Word) -> Option<Command>
    ensures asked { (trace : List ℕ) →
        result ≡ other_command (word.now ∷ trace ∷ first.now ∷ second.now ∷ []) }
    ensures within { IfSome result IsWithinBounds }
{
    if word.items() != b"adjacent".as_slice() {
        return None;
    }
    match call_lines(first, second) {
        Some((first, second)) => Some(Command::Adjacent(first, second)),
        None => None,
    }
}

/// The command other than `weave` that the words ask for, if they do for one. They are two to four then.
fn other_command(words: &[Word]) -> Option<Command>
    ensures asked { result ≡ other_command words.now }
    ensures within { IfSome result IsWithinBounds }
    ensures named { IfSome result (λ command. 1 < length words.now) }
{
    match words {
        [word, name] => command_of_two(word, name),
        [word, first, second] => command_of_three(word, first, second),
        [word, _, first, second] => command_of_four(word, first, second),
        _ => None,
    }
}

/// Are the words `weave` and the names of files?
fn ask_to_weave(words: &[Word]) -> bool
    ensures asked { result ≡ ask_to_weave words.now }
    ensures named { IsTrue result → 1 < length words.now }
{
    match words {
        [word, _, ..] => word.items() == b"weave".as_slice(),
        _ => false,
    }
}

/// The command that the words of the command line ask for, if they match one. They are two at least then.
pub(crate) fn command_of(words: &[Word]) -> Option<Command>
    ensures asked { result ≡ command_of words.now }
    ensures within { IfSome result IsWithinBounds }
    ensures named { IfSome result (λ command. 1 < length words.now) }
{
    if ask_to_weave(words) {
        return Some(Command::Weave);
    }
    other_command(words)
}

/// The words behind the first.
pub(crate) fn file_words(words: &[Word]) -> &[Word]
    requires { 1 < length words.now }
    ensures files { result.now ≡ drop 1 words.now }
    ensures some { result.now ≢ [] }
{
    &words[1..]
}

/// The word with this number.
pub(crate) fn nth_word(words: &[Word], at: usize) -> &Word
    requires { at < length words.now }
    ensures { result.now ≡ nth_word words.now at }
{
    &words[at]
}

/// The word behind the file, if there is one.
pub(crate) fn third_word(words: &[Word]) -> Option<&Word>
    ensures { option_map (λ word. word.now) result ≡ slice_get words.now 2 }
{
    match words {
        [_, _, word, ..] => Some(word),
        _ => None,
    }
}
