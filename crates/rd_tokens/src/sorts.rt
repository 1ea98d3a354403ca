//! Tokens and lists of them.
ghost use Rattle.std.specs.Prelude.{◌≡◌, [], ◌∷◌, ◌++◌, OnOk, OnErr};

use rd_base::NoMemory;
use std::alloc::Global;
use std::marker::Model;

/// What a token is.
#[derive(Clone, Copy, Debug, PartialEq, Eq)]
pub enum Sort {
    /// `(`
    Open,
    /// `)`
    Close,
    /// a run of visible bytes
    Word,
    /// the spelling of a text
    Text,
    /// another byte, a quote without an end, or what is quoted and spells no text
    Wrong,
}

/// A token of a line.
#[derive(Clone, Copy, PartialEq, Eq)]
pub struct Token {
    /// the number of its first byte in the line, from 1
    pub place: u32,
    /// how many bytes it has
    pub length: u32,
    /// what it is
    pub sort: Sort,
}

impl Token {
    ghost use Rattle.rd_tokens.specs.Tokens.{LiesIn, bytes_of};

    /// Its bytes in its line. It takes no memory.
    pub fn bytes<'a>(&self, line: &'a [u8]) -> &'a [u8]
        requires { LiesIn line.now self.now }
        ensures { result.now ≡ bytes_of line.now self.now }
    {
        let start = self.place as usize - 1;
        &line[start..][..self.length as usize]
    }
}

/// The tokens of a line, from the left. Contracts see it as the list of the tokens.
#[derive(Drop)]
pub struct Tokens {
    held: Vec<Token>,
}

impl Model for Tokens {
    ghost use Rattle.std.specs.Prelude.{List};
    ghost use Rattle.rd_tokens.specs.declared.sorts.Token.{Token};

    ghost Value = { List Token };

    ghost view = { λ t. t.held.items };
}

impl Tokens {
    // No tokens. It takes no memory.
    pub(crate) fn new(alloc: Global) -> Tokens
        ensures { result ≡ [] }
    {
        Tokens {
            held: Vec::new(alloc),
        }
    }

    // Puts a token last. After want of memory the list is as before.
    pub(crate) fn push(&mut self, token: Token) -> Result<(), NoMemory>
        ensures ok { OnOk result (self.new ≡ self.old ++ token ∷ []) }
        ensures err { OnErr result (self.new ≡ self.old) }
    {
        self.held.push(token)?;
        Ok(())
    }

    /// The tokens. It takes no memory.
    pub fn items(&self) -> &[Token]
        ensures { result.now ≡ self.now }
    {
        self.held.as_slice()
    }
}
