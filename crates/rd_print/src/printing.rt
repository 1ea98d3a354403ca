//! The text of a specification.
ghost use Rattle.std.specs.Prelude.{◌≡◌, ◌++◌, [], ◌∷◌, IfOk, OnOk};
ghost use Rattle.rd_print.specs.Printed.{block_text, spec_text};

use crate::method_lines::{append_head, append_methods};
use crate::pairs::append_pairs;
use rd_base::{Bytes, NoMemory};
use rd_ecl::{KindSpec, Spec};
use std::alloc::Global;

// The first line.
const HEADER: &[u8] = b"rdspec 1\n";

// Puts the lines of a kind last.
fn append_kind(alloc: Global, text: &mut Bytes, kind: &KindSpec) -> Result<(), NoMemory>
    ensures { OnOk result (text.new ≡ text.old ++ block_text kind.now) }
{
    append_head(text, kind)?;
    append_methods(text, kind.methods())?;
    append_pairs(alloc, text, kind)
}

/// The canonical text of a specification: the header, then for each kind its line, those of its methods and those of their
/// pairs.
pub fn print(alloc: Global, spec: &Spec) -> Result<Bytes, NoMemory>
    ensures { IfOk result (λ text. text ≡ spec_text spec.now) }
{
    let mut text = Bytes::new(alloc);
    text.append(HEADER)?;
    let kinds = spec.kinds();
    for kind in kinds {
        append_kind(alloc, &mut text, kind)?;
    }
    Ok(text)
}

/// The canonical text of one kind alone: the header, then the line of the kind, those of its methods and those of their pairs.
pub fn print_kind(alloc: Global, kind: &KindSpec) -> Result<Bytes, NoMemory>
    ensures { IfOk result (λ text. text ≡ spec_text (kind.now ∷ [])) }
{
    let mut printed = Bytes::new(alloc);
    printed.append(HEADER)?;
    append_kind(alloc, &mut printed, kind)?;
    Ok(printed)
}
