//! Where the words of a formula stand, and what its variables are.
ghost use Rattle.std.specs.Prelude.{◌≡◌, ◌<◌, ◌≤◌, ◌↔◌, ◌+◌, ◌-◌, ◌^◌, ℕ, List, length, IsTrue, IfSome, IfNone, Contains, slice_get, Some, false};
ghost use Rattle.rd_base.specs.declared.limits.TheConstants.{MOST_LEVELS, MOST_NODES};
ghost use Rattle.rd_ecl.specs.declared.formulas.Side.{Side};
ghost use Rattle.rd_ecl.specs.Formulas.{crosses_sides, levels, nodes, tree_of};
ghost use Rattle.rd_ecl.specs.Sides.{on_side};
ghost use Rattle.rd_formulas.specs.Scope.{IsBare, IsNameAt, IsScope, IsUnknown, IsUnknownName, IsVariableAt, NameStandsFor, definitions_of, place_in_scope, token_bytes_at, variables_of};

use rd_base::{MOST_ARGUMENTS, Name};
use rd_definitions::Definitions;
use rd_ecl::{Formula, Side};
use rd_tokens::{Dialect, Token, read_variable};

/// The tokens of a formula in their line, and the variables and definitions of the methods on both sides.
#[derive(Clone, Copy)]
pub struct Scope<'a> {
    /// what its words may speak of
    pub dialect: Dialect,
    pub line: &'a [u8],
    /// the tokens of the formula, each in the line
    pub tokens: &'a [Token],
    /// the variables of the method on side 1, at most 7
    pub first: &'a [Name],
    /// the variables of the method on side 2, at most 7
    pub second: &'a [Name],
    /// the definitions of the method on side 1
    pub first_definitions: &'a Definitions,
    /// the definitions of the method on side 2
    pub second_definitions: &'a Definitions,
}

// The place of a name among others.
fn place_of(names: &[Name], name: &[u8]) -> Option<u8>
    requires { length names.now ≤ MOST_ARGUMENTS + 1 }
    ensures some { IfSome result (λ place. slice_get names.now place ≡ Some name.now) }
    ensures none { IfNone result (¬ (Contains names.now name.now)) }
{
    for (place, other) in names.iter().enumerate() {
        if other.items() == name {
            return Some(place as u8);
        }
    }
    None
}

impl<'a> Scope<'a> {
    /// The bytes of a token. It takes no memory.
    pub fn word(&self, number: u32) -> &'a [u8]
        requires { IsScope self.now × (number < length self.now.tokens.now) }
        ensures { result.now ≡ token_bytes_at self.now number }
    {
        self.tokens[number as usize].bytes(self.line)
    }

    /// Where a token begins; behind the line where there is no such token. It takes no memory.
    pub fn place(&self, number: u32) -> u32
        requires { length self.now.line.now < 2 ^ 32 - 1 }
        ensures { result ≡ place_in_scope self.now number }
    {
        match self.tokens.get(number as usize) {
            Some(token) => token.place,
            None => self.line.len() as u32 + 1,
        }
    }

    /// The variables of a side. It takes no memory.
    pub fn variables(&self, side: Side) -> &'a [Name]
        ensures { result.now ≡ variables_of self.now side }
    {
        match side {
            Side::First => self.first,
            Side::Second => self.second,
        }
    }

    /// The slot that a variable names. It takes no memory.
    pub fn slot(&self, side: Side, name: &[u8]) -> Option<u8>
        requires { IsScope self.now }
        ensures some { IfSome result
            (λ slot. slice_get (variables_of self.now side) slot ≡ Some name.now) }
        ensures none { IfNone result (¬ (Contains (variables_of self.now side) name.now)) }
    {
        place_of(self.variables(side), name)
    }

    /// The definitions of a side. It takes no memory.
    pub fn definitions(&self, side: Side) -> &'a Definitions
        ensures { result.now ≡ definitions_of self.now side }
    {
        match side {
            Side::First => self.first_definitions,
            Side::Second => self.second_definitions,
        }
    }

    /// Is a token a variable? It takes no memory.
    pub fn is_variable(&self, number: u32) -> bool
        requires { IsScope self.now × (number < length self.now.tokens.now) }
        ensures { IsTrue result ↔ IsVariableAt self.now number }
    {
        read_variable(self.dialect, self.word(number)).is_some()
    }

    /// Has a relation of two tokens no variable? It takes no memory.
    pub fn is_bare(&self, left: u32, right: u32) -> bool
        requires { IsScope self.now × (left < length self.now.tokens.now)
            × (right < length self.now.tokens.now) }
        ensures { (sign : ℕ) →
            (IsTrue result ↔ IsBare self.now (record { sign = sign; left = left; right = right })) }
    {
        !self.is_variable(left) && !self.is_variable(right)
    }

    /// Is a token a variable that isn't one of its side's method? It takes no memory.
    pub fn is_unknown(&self, number: u32) -> bool
        requires { IsScope self.now × (number < length self.now.tokens.now) }
        ensures { IsTrue result ↔ IsUnknown self.now number }
    {
        match read_variable(self.dialect, self.word(number)) {
            Some((side, name)) => self.slot(side, name).is_none(),
            None => false,
        }
    }

    /// The side of a used name, and the formula that it stands for; None where its side's method has none of this name. It takes
    /// no memory.
    pub fn named(&self, number: u32) -> Option<(Side, &'a Formula)>
        requires { IsScope self.now × IsNameAt self.now number }
        ensures some { IfSome result
            (λ found. NameStandsFor self.now number (on_side found.0 (tree_of found.1.now))) }
        ensures defined { IfSome result
            (λ found. (crosses_sides (tree_of found.1.now) ≡ false) × (nodes (tree_of found.1.now) ≤ MOST_NODES)
            × (levels (tree_of found.1.now) ≤ MOST_LEVELS)) }
        ensures none { IfNone result (IsUnknownName self.now number) }
    {
        let Some((side, name)) = read_variable(self.dialect, self.word(number)) else {
            unreachable!();
        };
        let Ok(name) = Name::from_bytes(name) else {
            unreachable!();
        };
        match self.definitions(side).formula(&name) {
            Some(formula) => Some((side, formula)),
            None => None,
        }
    }
}
