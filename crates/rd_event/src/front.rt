//! The first of the values that bytes spell, where one look at each of its bytes tells it, as of most: `nil`, `true`, `false`,
//! integers of at most 18 digits, and texts without escapes. Of other bytes nothing is said here.
ghost use Rattle.std.specs.Prelude.{◌≡◌, ◌≢◌, ◌<◌, ◌≤◌, ◌^◌, Some, IfSome, IsTrue, length, take, drop, slice_index, true};
ghost use Rattle.std.specs.Fmt.{decimal};
ghost use Rattle.std.specs.List.{list_all};
ghost use Rattle.std.specs.Str.Parse.{AllDigits, digits_value};
ghost use Rattle.rd_base.specs.ReadingValues.{stands, value_of};
ghost use Rattle.rd_event.specs.declared.slots.Place.TheVariants.{Outside};
ghost use Rattle.rd_event.specs.ReadingSlots.{value_length, first_value, front_value};

// How many bytes a text has at most.
const LONGEST: usize = 255;

// How many digits of an integer are looked at: it fits 64 bits with these, and a further one ends no value.
const MOST_DIGITS: usize = 18;

// A value that is told so. A text is given by the bytes between its quotes, which are its bytes.
#[derive(Clone, Copy)]
pub(crate) enum Front<'a> {
    Nil,
    Bool(bool),
    Int(i64),
    Text(&'a [u8]),
}

// Which bytes stand in a text as they are.
const STANDING: [bool; 256] = [
    false, false, false, false, false, false, false, false, false, false, false, false, false,
    false, false, false, false, false, false, false, false, false, false, false, false, false,
    false, false, false, false, false, false, true, true, false, true, true, true, true, true,
    true, true, true, true, true, true, true, true, true, true, true, true, true, true, true, true,
    true, true, true, true, true, true, true, true, true, true, true, true, true, true, true, true,
    true, true, true, true, true, true, true, true, true, true, true, true, true, true, true, true,
    true, true, true, true, false, true, true, true, true, true, true, true, true, true, true,
    true, true, true, true, true, true, true, true, true, true, true, true, true, true, true, true,
    true, true, true, true, true, true, true, true, false, false, false, false, false, false,
    false, false, false, false, false, false, false, false, false, false, false, false, false,
    false, false, false, false, false, false, false, false, false, false, false, false, false,
    false, false, false, false, false, false, false, false, false, false, false, false, false,
    false, false, false, false, false, false, false, false, false, false, false, false, false,
    false, false, false, false, false, false, false, false, false, false, false, false, false,
    false, false, false, false, false, false, false, false, false, false, false, false, false,
    false, false, false, false, false, false, false, false, false, false, false, false, false,
    false, false, false, false, false, false, false, false, false, false, false, false, false,
    false, false, false, false, false, false, false, false, false, false, false, false, false,
    false, false, false, false, false, false,
];

// Does the byte stand in a text as it is?
#[inline]
fn stands(byte: u8) -> bool
    ensures { result ≡ stands byte }
{
    STANDING[byte as usize]
}

// Does a value that goes up to the place end there? It does before a space, and where no byte is left.
#[inline]
#[tactic(auto, using(crate::proofs::CutLemmas::at_space, crate::proofs::CutLemmas::ends_behind))]
fn ends_at(bytes: &[u8], place: usize) -> bool
    ensures { IsTrue result → value_length Outside (drop place bytes.now) ≡ 0 }
{
    place >= bytes.len() || bytes[place] == b' '
}

// Do the bytes begin with the word, and does a value end behind it?
#[inline]
#[tactic(auto, using(crate::proofs::FrontLemmas::begins_with))]
fn is_word(bytes: &[u8], word: &[u8]) -> bool
    ensures front { IsTrue result → take (length word.now) bytes.now ≡ word.now }
    ensures within { IsTrue result → length word.now ≤ length bytes.now }
    ensures ended { IsTrue result → value_length Outside (drop (length word.now) bytes.now) ≡ 0 }
{
    bytes.starts_with(word) && ends_at(bytes, word.len())
}

// The number of the digits in front, 18 at most, and how many they are.
#[inline]
fn first_digits(bytes: &[u8]) -> (u64, usize)
    ensures few { result.1 ≤ 18 }
    ensures within { result.1 ≤ length bytes.now }
    ensures all { AllDigits 10 (take result.1 bytes.now) }
    ensures number { result.0 ≡ digits_value 10 (take result.1 bytes.now) }
{
    let mut number = 0u64;
    for (index, byte) in bytes.iter().enumerate() {
        if index == MOST_DIGITS || !byte.is_ascii_digit() {
            return (number, index);
        }
        number = number * 10 + u64::from(*byte - b'0');
    }
    (number, bytes.len())
}

// The number whose decimal the bytes begin with, and its length, where a value ends behind it.
#[inline]
fn short_number(bytes: &[u8]) -> Option<(u64, usize)>
    ensures decimal { IfSome result (λ found. take found.1 bytes.now ≡ decimal found.0) }
    ensures small { IfSome result (λ found. found.0 < 10 ^ 18) }
    ensures within { IfSome result (λ found. found.1 ≤ length bytes.now) }
    ensures ended { IfSome result (λ found. value_length Outside (drop found.1 bytes.now) ≡ 0) }
{
    let (number, digits) = first_digits(bytes);
    if digits == 0 {
        return None;
    }
    if bytes[0] == b'0' && digits > 1 {
        return None;
    }
    if !ends_at(bytes, digits) {
        return None;
    }
    Some((number, digits))
}

// How many bytes the sign in front has: 1 if it is a `-`, or 0.
#[inline]
fn sign_length(bytes: &[u8]) -> usize
    ensures within { result ≤ length bytes.now }
    ensures sign { result ≢ 0 → (result ≡ 1) × (slice_index bytes.now 0 ≡ 45) }
{
    match bytes.first() {
        Some(b'-') => 1,
        _ => 0,
    }
}

// The integer whose decimal the bytes begin with, and its length, where a value ends behind it. There is no `-0`.
#[inline]
fn integer(bytes: &[u8]) -> Option<(Front<'_>, usize)>
    ensures length { IfSome result (λ found. found.1 ≡ value_length Outside bytes.now) }
    ensures value { IfSome result (λ found. value_of (first_value bytes.now) ≡ Some (front_value found.0)) }
{
    let sign = sign_length(bytes);
    let (number, digits) = short_number(&bytes[sign..])?;
    if sign == 0 {
        return Some((Front::Int(number as i64), digits));
    }
    if number == 0 {
        return None;
    }
    Some((Front::Int(-(number as i64)), digits + 1))
}

// So many bytes in front stand in a text as they are, and maybe up to three more. They are looked up four at a time.
#[inline]
fn standing_fours(bytes: &[u8]) -> usize
    ensures within { result ≤ length bytes.now }
    ensures all { list_all stands (take result bytes.now) ≡ true }
{
    let mut length = 0;
    while bytes.len() - length >= 4 {
        let all = stands(bytes[length])
            & stands(bytes[length + 1])
            & stands(bytes[length + 2])
            & stands(bytes[length + 3]);
        if !all {
            return length;
        }
        length += 4;
    }
    length
}

// How many bytes in front stand in a text as they are.
#[inline]
fn standing_length(bytes: &[u8]) -> usize
    ensures within { result ≤ length bytes.now }
    ensures all { list_all stands (take result bytes.now) ≡ true }
{
    let mut length = standing_fours(bytes);
    while length < bytes.len() {
        if !stands(bytes[length]) {
            return length;
        }
        length += 1;
    }
    length
}

// The text whose spelling the bytes begin with, and the length of the spelling, where each byte stands as it is.
#[inline]
fn text(bytes: &[u8]) -> Option<(Front<'_>, usize)>
    requires { slice_index bytes.now 0 ≡ 34 }
    ensures length { IfSome result (λ found. found.1 ≡ value_length Outside bytes.now) }
    ensures value { IfSome result (λ found. value_of (first_value bytes.now) ≡ Some (front_value found.0)) }
{
    let inside = &bytes[1..];
    let length = standing_length(inside);
    if length > LONGEST || length == inside.len() {
        return None;
    }
    if inside[length] != b'"' {
        return None;
    }
    if !ends_at(inside, length + 1) {
        return None;
    }
    Some((Front::Text(&inside[..length]), length + 2))
}

// The value that the bytes begin with, and the length of its spelling, where it is told so.
#[inline]
pub(crate) fn front_of(bytes: &[u8]) -> Option<(Front<'_>, usize)>
    ensures length { IfSome result (λ found. found.1 ≡ value_length Outside bytes.now) }
    ensures value { IfSome result (λ found. value_of (first_value bytes.now) ≡ Some (front_value found.0)) }
{
    match bytes.first()? {
        b'"' => text(bytes),
        b'n' if is_word(bytes, b"nil") => Some((Front::Nil, 3)),
        b't' if is_word(bytes, b"true") => Some((Front::Bool(true), 4)),
        b'f' if is_word(bytes, b"false") => Some((Front::Bool(false), 5)),
        _ => integer(bytes),
    }
}
