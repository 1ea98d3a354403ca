//! Where a name is looked for first, and the words of a line's bytes.
ghost use Rattle.std.specs.Prelude.{◌≡◌, [], IfNone, IfSome};
ghost use Rattle.std.specs.List.{AllPass, before_first, after_first, position};
ghost use Rattle.rd_base.specs.Bytes.{is_space};
ghost use Rattle.rd_base.specs.Names.{IsName, is_name_byte};

use rd_base::name_length;

/// The length of a table of near numbers.
pub const NEAR_LENGTH: usize = 1024;

/// Where a name with these bytes is looked for first: its place in the tables of near numbers, modulo their length, by its last bytes.
#[inline(always)]
pub fn near_bytes(bytes: &[u8]) -> usize {
    match bytes {
        [.., third, second, last] => {
            (usize::from(*third) * 10 + usize::from(*second)) * 10 + usize::from(*last)
        }
        [second, last] => usize::from(*second) * 10 + usize::from(*last),
        [last] => usize::from(*last),
        [] => 0,
    }
}

// Where the first space stands.
#[inline(always)]
fn first_space(bytes: &[u8]) -> Option<usize>
    ensures { result ≡ position is_space bytes.now }
{
    bytes.iter().position(|byte| *byte == b' ')
}

/// What stands before the first space, and what stands after it; nothing where there is no space.
#[inline(always)]
pub fn cut_at_space(bytes: &[u8]) -> Option<(&[u8], &[u8])>
    ensures before { IfSome result (λ parts. parts.0.now ≡ before_first is_space bytes.now) }
    ensures after { IfSome result (λ parts. parts.1.now ≡ after_first is_space bytes.now) }
    ensures none { IfNone result (after_first is_space bytes.now ≡ []) }
{
    let space = first_space(bytes)?;
    Some((&bytes[..space], &bytes[space + 1..]))
}

/// The same where only bytes of names stand before the first space. There is no answer where that is not so, or where there is no space: no two
/// names stand there then.
#[inline(always)]
pub fn cut_name(bytes: &[u8]) -> Option<(&[u8], &[u8])>
    ensures before { IfSome result (λ parts. parts.0.now ≡ before_first is_space bytes.now) }
    ensures after { IfSome result (λ parts. parts.1.now ≡ after_first is_space bytes.now) }
    ensures name { IfSome result (λ parts. AllPass is_name_byte parts.0.now) }
    ensures none { IfNone result
        (¬ (IsName (before_first is_space bytes.now) × IsName (after_first is_space bytes.now))) }
{
    let length = name_length(bytes);
    if length == bytes.len() {
        return None;
    }
    if bytes[length] != b' ' {
        return None;
    }
    Some((&bytes[..length], &bytes[length + 1..]))
}
