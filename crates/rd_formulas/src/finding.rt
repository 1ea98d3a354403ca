//! The first term without a meaning, and the first relation without a variable.
ghost use Rattle.std.specs.Prelude.{◌≡◌, ◌↔◌, ◌≤◌, ℕ, [], ◌∷◌, ◌++◌, length, IsTrue, Option, option_map, if◌then◌else◌, Some, None};
ghost use Rattle.rd_formulas.specs.Meaning.{IsFirstSign, IsFirstUse, Related, earlier, of_term, relations_in, uses_in};
ghost use Rattle.rd_formulas.specs.Scope.{HasTerms, IsBare, IsScope, IsTermAt, IsUnknownUse};
ghost use Rattle.rd_grammar.specs.Grammar.{leaf as leaf_tree, parsed_tree};
ghost use Rattle.rd_grammar.specs.Numbers.{named_by};

use crate::scope::Scope;
use rd_base::MOST_TOKENS;
use rd_grammar::{Leaf, Parsed};

// The number, where the test holds.
fn number_if(test: bool, number: u32) -> Option<u32>
    ensures { result ≡ (if test then Some number else None) }
{
    if test { Some(number) } else { None }
}

// The first of two.
fn earlier(first: Option<u32>, second: Option<u32>) -> Option<u32>
    ensures { result ≡ earlier first second }
{
    match first {
        Some(number) => Some(number),
        None => second,
    }
}

// The number of a term, where it is a variable that isn't one of its side's method.
fn unknown_at(scope: &Scope, number: u32) -> Option<u32>
    requires { IsScope scope.now × IsTermAt scope.now number }
    ensures { IsFirstUse (IsUnknownUse scope.now) (of_term number ∷ []) result }
{
    number_if(scope.is_unknown(number), number)
}

// The first of two terms that is a variable which isn't one of its side's method.
fn unknown_of(scope: &Scope, left: u32, right: u32) -> Option<u32>
    requires { IsScope scope.now × IsTermAt scope.now left × IsTermAt scope.now right }
    ensures { IsFirstUse (IsUnknownUse scope.now) (of_term left ∷ of_term right ∷ []) result }
{
    earlier(unknown_at(scope, left), unknown_at(scope, right))
}

// The number of a word that is a formula by itself, where it is a name that isn't a definition of its side's method.
fn unknown_leaf(scope: &Scope, leaf: Leaf, token: u32) -> Option<u32>
    requires { IsScope scope.now × HasTerms scope.now (leaf_tree leaf token) }
    ensures { IsFirstUse (IsUnknownUse scope.now) (uses_in (leaf_tree leaf token)) result }
{
    match leaf {
        Leaf::Truth(_) => None,
        Leaf::Name => number_if(scope.named(token).is_none(), token),
    }
}

/// The first variable of a formula that isn't one of its side's method, or used name that isn't a definition of it, by its token's
/// number. The formula has at most 512 tokens. It takes no memory.
pub fn first_unknown(scope: &Scope, parsed: &Parsed) -> Option<u32>
    requires known { IsScope scope.now × HasTerms scope.now (parsed_tree parsed.now) }
    requires few { length (named_by (parsed_tree parsed.now)) ≤ MOST_TOKENS }
    ensures { IsFirstUse (IsUnknownUse scope.now) (uses_in (parsed_tree parsed.now)) result }
{
    match parsed {
        Parsed::Leaf { leaf, token } => unknown_leaf(scope, *leaf, *token),
        Parsed::Relation { left, right, .. } => unknown_of(scope, *left, *right),
        Parsed::Not { inner, .. } => first_unknown(scope, inner),
        Parsed::And { left, right, .. } => {
            earlier(first_unknown(scope, left), first_unknown(scope, right))
        }
        Parsed::Or { left, right, .. } => {
            earlier(first_unknown(scope, left), first_unknown(scope, right))
        }
    }
}

// The sign of a relation, where neither of its terms is a variable.
fn bare_at(scope: &Scope, sign: u32, left: u32, right: u32) -> Option<u32>
    requires { IsScope scope.now × IsTermAt scope.now left × IsTermAt scope.now right }
    ensures { IsFirstSign (IsBare scope.now)
        (record { sign = sign; left = left; right = right } ∷ []) result }
{
    number_if(scope.is_bare(left, right), sign)
}

/// The first relation of a formula without a variable, by its sign's number. The formula has at most 512 tokens. It takes no memory.
pub fn first_bare(scope: &Scope, parsed: &Parsed) -> Option<u32>
    requires known { IsScope scope.now × HasTerms scope.now (parsed_tree parsed.now) }
    requires few { length (named_by (parsed_tree parsed.now)) ≤ MOST_TOKENS }
    ensures { IsFirstSign (IsBare scope.now) (relations_in (parsed_tree parsed.now)) result }
{
    match parsed {
        Parsed::Leaf { .. } => None,
        Parsed::Relation {
            left,
            token,
            right,
            ..
        } => bare_at(scope, *token, *left, *right),
        Parsed::Not { inner, .. } => first_bare(scope, inner),
        Parsed::And { left, right, .. } => {
            earlier(first_bare(scope, left), first_bare(scope, right))
        }
        Parsed::Or { left, right, .. } => {
            earlier(first_bare(scope, left), first_bare(scope, right))
        }
    }
}
