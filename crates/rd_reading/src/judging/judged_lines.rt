//! Reading a line.
ghost use Rattle.std.specs.Prelude.{◌≡◌, ◌≢◌, ◌≤◌, ◌<◌, ◌-◌, ◌^◌, ◌↔◌, ℕ, List, All, IfErr, IfNone, IfOk, IfSome, IsTrue, None, OnOk, Some, length};
ghost use Rattle.rd_lines.specs.declared.forms.Version.{Version};
ghost use Rattle.rd_reading.specs.Adding.{AcceptsSpecLine, Adds};
ghost use Rattle.rd_reading.specs.Causes.{EndHas, Has, HasManyTokens, header_words};
ghost use Rattle.rd_pairs.specs.Causes.{HasNone, IsSpecLineRefused};
ghost use Rattle.rd_reading.specs.Known.{kind_in, kinds_so_far, stage_of};
ghost use Rattle.rd_reading.specs.Judging.{EndRefuses, LineRefuses};
ghost use Rattle.rd_lines.specs.Lines.{CountsTokens, word_at, words_of};
ghost use Rattle.rd_tokens.specs.Tokens.{IsTokenOf, LiesIn};

use crate::judging::adding::{add_form, close};
use crate::judging::missing::missing_in;
use crate::{Fault, Known, SpecCause, SpecLineRefused};
use rd_base::{LimitName, MOST_SPEC_BYTES, MOST_TOKENS, Name};
use rd_ecl::{Method, Spec};
use rd_lines::{FormRefused, Stage, Version, read_form, token_is};
use rd_pairs::place_at;
use rd_tokens::{Token, tokens};
use std::alloc::Global;

// The version that the line tells, where it is a header.
fn header_version(line: &[u8], tokens: &[Token]) -> Option<Version>
    requires { All (LiesIn line.now) tokens.now }
    ensures some { IfSome result (λ version. words_of line.now tokens.now ≡ header_words version) }
    ensures none { IfNone result
        ((version : Version) → words_of line.now tokens.now ≢ header_words version) }
{
    if tokens.len() != 2 || !token_is(line, &tokens[0], "rdspec") {
        return None;
    }
    if token_is(line, &tokens[1], "1") {
        return Some(Version::One);
    }
    if token_is(line, &tokens[1], "2") {
        return Some(Version::Two);
    }
    None
}

// Are the tokens of the formula of such a line counted?
fn is_counted(version: Version, line: &[u8], token: &Token) -> bool
    requires { LiesIn line.now token.now }
    ensures { IsTrue result ↔ CountsTokens version (word_at line.now token.now) }
{
    match version {
        Version::One => token_is(line, token, "commute"),
        Version::Two => token_is(line, token, "commute") || token_is(line, token, "define"),
    }
}

// Do more than 512 tokens stand behind the `when` of a line with a formula?
fn has_many_tokens(version: Version, line: &[u8], tokens: &[Token]) -> bool
    requires { All (LiesIn line.now) tokens.now }
    ensures { IsTrue result ↔ HasManyTokens version (words_of line.now tokens.now) }
{
    tokens.len() > MOST_TOKENS + 4
        && is_counted(version, line, &tokens[0])
        && token_is(line, &tokens[3], "when")
}

// Where the next line stands.
fn stage(known: &Known) -> Stage
    ensures { result ≡ stage_of known.now }
{
    match &known.block {
        Some(block) => block.stage,
        None => Stage::Outside,
    }
}

// The methods of the kind that is open; none where none is.
fn methods(known: &Known) -> &[Method]
    ensures { result.now ≡ (kind_in known.now.block).methods }
{
    match &known.block {
        Some(block) => block.opened.draft().methods(),
        None => &[],
    }
}

// Reads the first line that isn't skipped.
fn read_header(known: &mut Known, line: &[u8], tokens: &[Token]) -> Result<(), SpecLineRefused>
    requires within { All (LiesIn line.now) tokens.now }
    requires begins { known.old.version ≡ None }
    ensures clean { OnOk result
        ((taken : List (List ℕ)) → HasNone (Has taken known.old line.now tokens.now)) }
    ensures adds { OnOk result (Adds known.old line.now tokens.now known.new) }
    ensures refused { IfErr result
        (λ refused. (taken : List (List ℕ)) →
        IsSpecLineRefused (Has taken known.old line.now tokens.now) refused) }
{
    match header_version(line, tokens) {
        Some(version) => {
            known.version = Some(version);
            Ok(())
        }
        None => Err(SpecLineRefused::Fault(Fault {
            place: 0,
            cause: SpecCause::Header,
        })),
    }
}

// Reads a line behind the header of this version.
fn read_behind_header(
    alloc: Global,
    version: Version,
    taken: &[Name],
    known: &mut Known,
    line: &[u8],
    tokens: &[Token],
) -> Result<(), SpecLineRefused>
    requires within { All (LiesIn line.now) tokens.now }
    requires sorts { All (IsTokenOf line.now) tokens.now }
    requires short { length line.now < 2 ^ 32 - 1 }
    requires count { length tokens.now < 2 ^ 32 - 1 }
    requires begun { known.old.version ≡ Some version }

    // the line is clean and adds what it says, or it is refused
    ensures clean { OnOk result (HasNone (Has taken.now known.old line.now tokens.now)) }
    ensures adds { OnOk result (Adds known.old line.now tokens.now known.new) }
    ensures refused { IfErr result (IsSpecLineRefused (Has taken.now known.old line.now tokens.now)) }
{
    if has_many_tokens(version, line, tokens) {
        return Err(SpecLineRefused::Fault(Fault {
            place: place_at(line, tokens, 3),
            cause: SpecCause::Limit(LimitName::Tokens, MOST_TOKENS as u32),
        }));
    }
    match read_form(alloc, version, stage(known), methods(known), line, tokens) {
        Ok(form) => add_form(alloc, version, taken, known, line, tokens, form),
        Err(FormRefused::Syntax(count)) => Err(SpecLineRefused::Fault(Fault {
            place: place_at(line, tokens, count as usize),
            cause: SpecCause::Syntax,
        })),
        Err(FormRefused::NoMemory) => Err(SpecLineRefused::NoMemory),
    }
}

/// Reads a line that isn't skipped behind what is known, where these names of kinds are taken. It adds what the line says; a
/// refused line may leave anything.
pub fn read_line(
    alloc: Global,
    taken: &[Name],
    known: &mut Known,
    line: &[u8],
) -> Result<(), SpecLineRefused>
    requires { length line.now ≤ MOST_SPEC_BYTES }
    ensures ok { OnOk result (AcceptsSpecLine taken.now known.old line.now known.new) }
    ensures refused { IfErr result (LineRefuses taken.now known.old line.now) }
{
    let found = tokens(alloc, line)?;
    match known.version {
        Some(version) => read_behind_header(alloc, version, taken, known, line, found.items()),
        None => read_header(known, line, found.items()),
    }
}

/// The kinds of a text that ends behind what is known; else the first thing that is wrong with its end.
pub fn finish(known: Known) -> Result<Spec, SpecLineRefused>
    ensures clean { IfOk result (λ _. HasNone (EndHas known)) }
    ensures kinds { IfOk result (λ spec. spec ≡ kinds_so_far known) }
    ensures refused { IfErr result (EndRefuses known) }
{
    if known.version.is_none() {
        return Err(SpecLineRefused::Fault(Fault {
            place: 0,
            cause: SpecCause::Header,
        }));
    }
    if let Some(cause) = missing_in(&known) {
        return Err(SpecLineRefused::Fault(Fault { place: 0, cause }));
    }
    let mut spec = known.closed;
    close(&mut spec, known.block)?;
    Ok(spec)
}
