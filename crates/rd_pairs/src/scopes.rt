//! What the words behind `when` may speak of.
ghost use Rattle.std.specs.Prelude.{◌≡◌, ◌≤◌, ◌<◌, ◌⊎◌, ◌↔◌, ℕ, IsTrue, List, [], Contains, length, drop};
ghost use Rattle.rd_definitions.specs.Definitions.{names_defined};
ghost use Rattle.rd_lines.specs.Lines.{dialect_of};
ghost use Rattle.rd_open_kind.specs.Opened.{definitions_at};
ghost use Rattle.rd_pairs.specs.PairCauses.{definition_scope, scope_of, variables_of_method};
ghost use Rattle.rd_pairs.specs.PairJudging.{IsSameScope, kind_with};

use rd_base::Name;
use rd_definitions::Definitions;
use rd_ecl::Method;
use rd_formulas::Scope;
use rd_lines::Version;
use rd_open_kind::OpenKind;
use rd_tokens::{Dialect, Token};

// The tokens behind `when`.
fn behind_when(tokens: &[Token]) -> &[Token]
    requires { 4 ≤ length tokens.now }
    ensures { result.now ≡ drop 4 tokens.now }
{
    &tokens[4..]
}

// The variables of the method with this number.
fn variables_of(methods: &[Method], number: u8) -> &[Name]
    requires { number < length methods.now }
    ensures { result.now ≡ variables_of_method (kind_with methods.now) number }
{
    methods[usize::from(number)].variables.items()
}

// What the formula of a pair may speak of.
fn dialect_of(version: Version) -> Dialect
    ensures { result ≡ dialect_of version }
{
    match version {
        Version::One => Dialect::Sided,
        Version::Two => Dialect::Named,
    }
}

// What the words behind `when` of a pair's line may speak of, of two methods by their numbers.
pub(crate) fn pair_scope<'a>(
    version: Version,
    opened: &'a OpenKind,
    line: &'a [u8],
    tokens: &'a [Token],
    first: u8,
    second: u8,
) -> Scope<'a>
    requires known { (first < length opened.now.kind.methods) × (second < length opened.now.kind.methods) }
    requires behind { 4 ≤ length tokens.now }
    ensures { IsSameScope result (scope_of version opened.now line.now tokens.now first second) }
{
    let methods = opened.draft().methods();
    Scope {
        dialect: dialect_of(version),
        line,
        tokens: behind_when(tokens),
        first: variables_of(methods, first),
        second: variables_of(methods, second),
        first_definitions: opened.definitions(first),
        second_definitions: opened.definitions(second),
    }
}

// What the words behind `when` of a definition may speak of, of the method with this number. No definition is used there.
pub(crate) fn definition_scope<'a>(
    opened: &'a OpenKind,
    none: &'a Definitions,
    line: &'a [u8],
    tokens: &'a [Token],
    method: u8,
) -> Scope<'a>
    requires known { method < length opened.now.kind.methods }
    requires none { none.now ≡ [] }
    requires behind { 4 ≤ length tokens.now }
    ensures { IsSameScope result (definition_scope opened.now.kind line.now tokens.now method) }
{
    let methods = opened.draft().methods();
    Scope {
        dialect: Dialect::Unsided,
        line,
        tokens: behind_when(tokens),
        first: variables_of(methods, method),
        second: variables_of(methods, method),
        first_definitions: none,
        second_definitions: none,
    }
}

// Is the name one of these?
fn is_among(names: &[Name], name: &Name) -> bool
    ensures { IsTrue result ↔ Contains names.now name.now }
{
    names.iter().any(|other| other.items() == name.items())
}

// Is the name a variable or a definition of the method already?
pub(crate) fn is_defined(opened: &OpenKind, method: u8, name: &Name) -> bool
    requires { method < length opened.now.kind.methods }
    ensures { IsTrue result ↔ (Contains (variables_of_method opened.now.kind method) name.now
        ⊎ Contains (names_defined (definitions_at opened.now.defined method)) name.now) }
{
    is_among(variables_of(opened.draft().methods(), method), name)
        || opened.definitions(method).formula(name).is_some()
}
