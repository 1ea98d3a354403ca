//! The command `kind`.
ghost use Rattle.std.specs.Prelude.{◌≡◌, ℕ, ◌<◌, List, Option, Some, length, slice_get, IfOk};
ghost use Rattle.rd_base.specs.declared.limits.Limits.{Limits};
ghost use Rattle.rd_ecl.specs.Specified.{SpecifiedKind};
ghost use Rattle.rd_io.specs.Inputs.{Source};
ghost use Rattle.rd_io.specs.Sinks.{Appends};
ghost use Rattle.rd_kinds.specs.Shipped.{shipped_kinds};
ghost use Rattle.rd_walk.specs.Analysis.{TellsFault};
ghost use Rattle.rd_walk.specs.Meanings.{Ran, seen_alone};
ghost use Rattle.rd_walk.specs.Output.{IsOutput, ended_status};
ghost use Rattle.rd_spec_command.specs.Meanings.{kind_meaning, kind_outcome};

use rd_io::Sink;
use rd_kinds::shipped;
use rd_print::print_kind;
use rd_walk::{Ended, Halt, write_lines};
use std::alloc::Global;

/// Writes the canonical text of a kind that is built in, by its number.
fn write_kind<S: Sink>(alloc: Global, number: u32, out: &mut S) -> Result<Ended, Halt>
    requires { number < length shipped_kinds }
    ensures output { (built_in : SpecifiedKind) → slice_get shipped_kinds number ≡ Some built_in →
        (part : List ℕ)
        × Appends (S.written out.old) (S.written out.new) part
        × IsOutput (ended_status result) part (kind_outcome built_in) }
    ensures clean { IfOk result (λ end. end ≡ Ended.Clean) }
    ensures fault { TellsFault (S.faults out.old) (S.faults out.new) (S.at_fault out.new)
        (S.written out.new) result }
{
    let spec = shipped(alloc)?;
    let text = print_kind(alloc, &spec.kinds()[number as usize])?;
    write_lines(out, text.items())?;
    Ok(Ended::Clean)
}

/// `kind NAME`, by the number of a kind that is built in: writes its canonical text.
pub fn kind<S: Sink>(alloc: Global, number: u32, out: &mut S) -> Result<Ended, Halt>
    requires { number < length shipped_kinds }
    ensures { (built_in : SpecifiedKind) → slice_get shipped_kinds number ≡ Some built_in →
        (limits : Limits) (told : Option Source) (faults steps : ℕ) → Ran (kind_meaning built_in) limits
        (seen_alone told faults S.written S.faults S.at_fault out.old steps)
        (seen_alone told faults S.written S.faults S.at_fault out.new steps)
        (ended_status result) }
{
    write_kind(alloc, number, out)
}
