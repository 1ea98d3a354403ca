//! The first of names that is one of those before it.
ghost use Rattle.std.specs.Prelude.{◌≡◌, ◌≢◌, ◌++◌, ◌∷◌, [], IfOk, IfSome, IfNone, AllPairs};
ghost use Rattle.rd_reading.specs.Causes.{IsFirstRepeated};

use rd_base::{Name, NoMemory};
use std::alloc::Global;
use std::collections::BTreeSet;

// The number of the first name that is one of those before it, of these and one more behind them. Each is sought in their order, so
// the time is that of their number and its logarithm, whatever the names are.
pub(crate) fn first_repeated(
    alloc: Global,
    names: &[Name],
    last: &Name,
) -> Result<Option<usize>, NoMemory>
    ensures some { IfOk result
        (λ found. IfSome found (IsFirstRepeated (names.now ++ last.now ∷ []))) }
    ensures none { IfOk result
        (λ found. IfNone found (AllPairs (λ x y. x ≢ y) (names.now ++ last.now ∷ []))) }
{
    let mut seen = BTreeSet::new(alloc);
    for (number, name) in names.iter().enumerate() {
        let is_new = seen.insert(name)?;
        if !is_new {
            return Ok(Some(number));
        }
    }
    if seen.contains(&last) {
        return Ok(Some(names.len()));
    }
    Ok(None)
}
