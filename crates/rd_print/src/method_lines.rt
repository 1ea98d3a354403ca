//! The lines of a kind and of its methods.
ghost use Rattle.std.specs.Prelude.{◌≡◌, ◌++◌, OnOk};
ghost use Rattle.rd_print.specs.Printed.{kind_words, printed_line, method_words, slot_words};
ghost use Rattle.rd_print.specs.Writing.{methods_text, spaced_text};

use rd_base::{Bytes, Name, NoMemory};
use rd_ecl::{KindSpec, Method};

// Puts the line of a kind last.
pub(crate) fn append_head(text: &mut Bytes, kind: &KindSpec) -> Result<(), NoMemory>
    ensures { OnOk result (text.new ≡ text.old ++ printed_line (kind_words kind.now)) }
{
    text.append(b"kind ")?;
    text.append(kind.name().items())?;
    text.push(b'\n')
}

// Puts the variables of a method last, each behind a space, with `->` before the one of the result.
fn append_slots(text: &mut Bytes, variables: &[Name]) -> Result<(), NoMemory>
    ensures { OnOk result (text.new ≡ text.old ++ spaced_text (slot_words variables.now)) }
{
    let Some((last, arguments)) = variables.split_last() else {
        return Ok(());
    };
    for argument in arguments {
        text.push(b' ')?;
        text.append(argument.items())?;
    }
    text.append(b" -> ")?;
    text.append(last.items())
}

// Puts the line of a method last.
fn append_method(text: &mut Bytes, method: &Method) -> Result<(), NoMemory>
    ensures { OnOk result (text.new ≡ text.old ++ printed_line (method_words method.now)) }
{
    text.append(b"method ")?;
    text.append(method.name.items())?;
    append_slots(text, method.variables.items())?;
    text.push(b'\n')
}

// Puts the lines of methods last.
pub(crate) fn append_methods(text: &mut Bytes, methods: &[Method]) -> Result<(), NoMemory>
    ensures { OnOk result (text.new ≡ text.old ++ methods_text methods.now) }
{
    for method in methods {
        append_method(text, method)?;
    }
    Ok(())
}
