//! Numbers and limits, whose bytes are plain.
ghost use Rattle.std.specs.Prelude.{◌≡◌, ◌++◌, decimal, OnOk};
ghost use Rattle.rd_base.specs.Limits.{limit_cause_text};
ghost use Rattle.rd_report.specs.Writing.{ArePlain};

use rd_base::{Bytes, LimitName, NoMemory, append_limit, append_number};

// Puts the decimal of a number behind the text.
#[tactic(auto, using(crate::proofs::PlainLemmas::decimal_plain))]
pub(crate) fn append_decimal(text: &mut Bytes, number: u64) -> Result<(), NoMemory>
    ensures text { OnOk result (text.new ≡ text.old ++ decimal number) }
    ensures plain { ArePlain (decimal number) }
{
    append_number(text, number)
}

// Puts a limit that was passed behind the text.
#[tactic(auto, using(crate::proofs::PlainLemmas::limit_cause_plain))]
pub(crate) fn append_passed(text: &mut Bytes, name: LimitName, number: u64) -> Result<(), NoMemory>
    ensures text { OnOk result (text.new ≡ text.old ++ limit_cause_text name number) }
    ensures plain { ArePlain (limit_cause_text name number) }
{
    append_limit(text, name, number)
}
