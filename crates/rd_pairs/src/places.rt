//! The places of tokens.
ghost use Rattle.std.specs.Prelude.{◌≡◌, ◌<◌, ◌-◌, ◌^◌, length};
ghost use Rattle.rd_pairs.specs.Causes.{place_at};

use rd_tokens::Token;

/// Where the token with this number begins, in bytes from 1; behind the line where there is no such token.
pub fn place_at(line: &[u8], tokens: &[Token], number: usize) -> u32
    requires { length line.now < 2 ^ 32 - 1 }
    ensures { result ≡ place_at line.now tokens.now number }
{
    match tokens.get(number) {
        Some(token) => token.place,
        None => line.len() as u32 + 1,
    }
}
