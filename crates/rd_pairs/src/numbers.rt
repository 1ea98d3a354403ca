//! The numbers of methods.
ghost use Rattle.std.specs.Prelude.{◌≡◌, ◌≤◌, length, IfSome, IfNone, Contains, Some, slice_get};
ghost use Rattle.rd_ecl.specs.Specified.{names_of};

use rd_base::{MOST_METHODS, Name};
use rd_ecl::Method;

// The number of the method with this name.
pub(crate) fn number_of(methods: &[Method], name: &Name) -> Option<u8>
    requires { length methods.now ≤ MOST_METHODS }
    ensures some { IfSome result
        (λ number. slice_get (names_of methods.now) number ≡ Some name.now) }
    ensures none { IfNone result (¬ (Contains (names_of methods.now) name.now)) }
{
    for (number, method) in methods.iter().enumerate() {
        if method.name.items() == name.items() {
            return Some(number as u8);
        }
    }
    None
}
