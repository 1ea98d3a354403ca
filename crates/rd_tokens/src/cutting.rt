//! Cutting a line into tokens.
ghost use Rattle.std.specs.Prelude.{◌≡◌, ◌≢◌, ◌==◌, ℕ, ◌+◌, ◌-◌, ◌<◌, ◌≤◌, ◌^◌, List, false, not, length, take, drop, slice_index, All, AllPairs, Any, IfOk, is_some, if◌then◌else◌};
ghost use Rattle.std.specs.List.{position, prefix_len};
ghost use Rattle.rd_base.specs.Bytes.{space};
ghost use Rattle.rd_base.specs.ReadingValues.{value_of};
ghost use Rattle.rd_tokens.specs.declared.sorts.Sort.TheVariants.{Text, Wrong, Word};
ghost use Rattle.rd_tokens.specs.declared.sorts.Token.{Token};
ghost use Rattle.rd_tokens.specs.Tokens.{is_word_byte, IsToken, IsTokenOf, AreTokens, LiesIn, HasByte, ComesAfter, bytes_of, bytes_behind};
ghost use Rattle.rd_tokens.specs.ReadingTokens.{ends_quote, takes_next, inside_length, first_length, sort_of, token_of};

use crate::sorts::{Sort, Token, Tokens};
use rd_base::{NoMemory, is_value};
use std::alloc::Global;

fn is_space(byte: u8) -> bool
    ensures { result ≡ (byte == space) }
{
    byte == b' '
}

fn is_word_byte(byte: u8) -> bool
    ensures { result ≡ is_word_byte byte }
{
    (b'!'..=b'~').contains(&byte) && !(byte == b'(' || byte == b')' || byte == b'"')
}

// Does the byte end what is quoted, if the byte before took it with it or not?
fn ends_quote(taken: bool, byte: u8) -> bool
    ensures { result ≡ ends_quote taken byte }
{
    !taken && byte == b'"'
}

// Does the byte take the next one with it?
fn takes_next(taken: bool, byte: u8) -> bool
    ensures { result ≡ takes_next taken byte }
{
    !taken && byte == b'\\'
}

// How many bytes stand before the quote that ends them, or all where there is none.
fn inside_length(bytes: &[u8]) -> usize
    ensures value { result ≡ inside_length false bytes.now }
    ensures bound { result ≤ length bytes.now }
{
    let mut taken = false;
    for (index, byte) in bytes.iter().enumerate() {
        if ends_quote(taken, *byte) {
            return index;
        }
        taken = takes_next(taken, *byte);
    }
    bytes.len()
}

// The first byte that no word has.
fn first_other(bytes: &[u8]) -> Option<usize>
    ensures { result ≡ position (λ byte. not (is_word_byte byte)) bytes.now }
{
    bytes.iter().position(|byte| !is_word_byte(*byte))
}

// How many bytes stand before it.
#[tactic(auto, using(crate::proofs::LoopLemmas::first_other, crate::proofs::LoopLemmas::no_other))]
fn word_length(bytes: &[u8]) -> usize
    ensures value { result ≡ prefix_len is_word_byte bytes.now }
    ensures bound { result ≤ length bytes.now }
{
    let Some(place) = first_other(bytes) else {
        return bytes.len();
    };
    place
}

// How long the first token is of bytes that begin with no space.
#[tactic(auto, unfolding(crate::specs::ReadingTokens::first_length))]
fn first_length(bytes: &[u8]) -> usize
    requires some { 0 < length bytes.now }
    requires few { length bytes.now < 2 ^ 32 }
    ensures value { result ≡ first_length bytes.now }
    ensures some { 1 ≤ result }
    ensures bound { result ≤ length bytes.now }
{
    if bytes[0] == b'"' {
        return (inside_length(&bytes[1..]) + 2).min(bytes.len());
    }
    if is_word_byte(bytes[0]) {
        return word_length(bytes);
    }
    1
}

// The sort of a token that begins with a quote.
fn text_or_wrong(bytes: &[u8]) -> Sort
    ensures { result ≡ (if is_some (value_of bytes.now) then Text else Wrong) }
{
    if is_value(bytes) {
        Sort::Text
    } else {
        Sort::Wrong
    }
}

// The sort of a token that begins with this byte, which is neither a parenthesis nor a quote.
fn word_or_wrong(first: u8) -> Sort
    ensures { result ≡ (if is_word_byte first then Word else Wrong) }
{
    if is_word_byte(first) {
        Sort::Word
    } else {
        Sort::Wrong
    }
}

// The sort of a token with these bytes.
#[tactic(auto, unfolding(crate::specs::ReadingTokens::sort_of))]
fn sort_of(bytes: &[u8]) -> Sort
    requires { 0 < length bytes.now }
    ensures { result ≡ sort_of bytes.now }
{
    match bytes[0] {
        b'(' => Sort::Open,
        b')' => Sort::Close,
        b'"' => text_or_wrong(bytes),
        first => word_or_wrong(first),
    }
}

// The token that begins behind so many bytes of the line.
fn token_behind(line: &[u8], start: usize) -> Token
    requires within { start < length line.now }
    requires few { length line.now < 2 ^ 32 - 1 }
    ensures value { result ≡ token_of (start + 1) (drop start line.now) }
    ensures some { 1 ≤ result.length }
    ensures bound { start + result.length ≤ length line.now }
{
    let rest = &line[start..];
    let length = first_length(rest);
    Token {
        place: start as u32 + 1,
        length: length as u32,
        sort: sort_of(&rest[..length]),
    }
}

/// The tokens of a line. Each lies in the line. Only the list takes memory.
pub fn tokens(alloc: Global, line: &[u8]) -> Result<Tokens, NoMemory>
    requires { length line.now < 2 ^ 32 - 1 }
    ensures value { IfOk result (AreTokens line.now) }
    ensures within { IfOk result (All (LiesIn line.now)) }
    ensures sorts { IfOk result (All (IsTokenOf line.now)) }
{
    let mut found = Tokens::new(alloc);
    let mut start = 0;
    while start < line.len() {
        if is_space(line[start]) {
            start += 1;
            continue;
        }
        let token = token_behind(line, start);
        found.push(token)?;
        start += token.length as usize;
    }
    Ok(found)
}

/// The law of tokens: each line has tokens, and one list of them. Each token lies in its line and is what its sort says, it
/// begins behind the tokens before it, and each byte that is no space is in a token.
pub fn law_of_tokens()
    ensures some { (line : List ℕ) → (tokens : List Token) × AreTokens line tokens }
    ensures one { (line : List ℕ) (first second : List Token) → AreTokens line first →
        AreTokens line second → first ≡ second }
    ensures within { (line : List ℕ) (tokens : List Token) → AreTokens line tokens →
        All (LiesIn line) tokens }
    ensures sorts { (line : List ℕ) (tokens : List Token) → AreTokens line tokens →
        All (IsTokenOf line) tokens }
    ensures rise { (line : List ℕ) (tokens : List Token) → AreTokens line tokens →
        AllPairs ComesAfter tokens }
    ensures whole { (line : List ℕ) (tokens : List Token) → AreTokens line tokens → (k : ℕ) →
        k < length line → slice_index line k ≢ space → Any (HasByte (k + 1)) tokens }
{}
