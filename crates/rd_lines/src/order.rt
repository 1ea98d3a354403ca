//! The order of methods.
ghost use Rattle.std.specs.Prelude.{◌≡◌, ◌↔◌, IsTrue};
ghost use Rattle.rd_ecl.specs.Specified.{names_of};
ghost use Rattle.rd_ecl.specs.Variables.{is_one_of};
ghost use Rattle.rd_lines.specs.Lines.{IsOutOfOrder};
ghost use Rattle.rd_lines.specs.Reading.{names_behind};

use rd_base::Name;
use rd_ecl::Method;

// The methods behind the first of this name.
fn behind<'a>(methods: &'a [Method], name: &[u8]) -> &'a [Method]
    ensures { names_of result.now ≡ names_behind name.now (names_of methods.now) }
{
    for (index, method) in methods.iter().enumerate() {
        if method.name.items() == name {
            return &methods[index + 1..];
        }
    }
    &methods[methods.len()..]
}

// Is one of the methods of this name?
fn is_among(methods: &[Method], name: &[u8]) -> bool
    ensures { result ≡ is_one_of name.now (names_of methods.now) }
{
    for method in methods {
        if name == method.name.items() {
            return true;
        }
    }
    false
}

// Is the second method declared before the first?
pub(crate) fn is_out_of_order(methods: &[Method], first: &Name, second: &Name) -> bool
    ensures { IsTrue result ↔ IsOutOfOrder (names_of methods.now) first.now second.now }
{
    if first == second {
        return false;
    }
    is_among(behind(methods, second.items()), first.items())
}
