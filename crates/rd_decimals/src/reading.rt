//! Reading a number.
ghost use Rattle.std.specs.Prelude.{◌≡◌, ◌≤◌, IfSome};
ghost use Rattle.std.specs.Fmt.{decimal};
ghost use Rattle.std.specs.Str.{bytes_eq};
ghost use Rattle.rd_decimals.specs.Decimals.{number_read};

use itoa::Buffer;
use std::str;

// Are the bytes the decimal of the number?
fn is_decimal(bytes: &[u8], number: u64) -> bool
    ensures { result ≡ bytes_eq (decimal number) bytes.now }
{
    let mut buffer = Buffer::new();
    buffer.format(number).as_bytes() == bytes
}

/// The number that the bytes spell, if it is at most `most`: its decimal, without sign and without leading zeros. It takes no memory.
pub fn read_number(bytes: &[u8], most: u64) -> Option<u64>
    ensures number { result ≡ number_read most bytes.now }
    ensures few { IfSome result (λ number. number ≤ most) }
{
    let Ok(text) = str::from_utf8(bytes) else {
        return None;
    };
    let Ok(number) = text.parse::<u64>() else {
        return None;
    };
    if number <= most && is_decimal(bytes, number) {
        Some(number)
    } else {
        None
    }
}
