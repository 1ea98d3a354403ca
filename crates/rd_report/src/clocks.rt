//! The text of a clock.
ghost use Rattle.std.specs.Prelude.{◌≡◌, ◌<◌, ◌++◌, ◌||◌, nat_lt, IfOk, OnOk};
ghost use Rattle.rd_clock.specs.Clock.{component};
ghost use Rattle.rd_report.specs.Races.{clock_text};
ghost use Rattle.rd_report.specs.Texts.{name_of};
ghost use Rattle.rd_report.specs.Writing.{ArePlain, comma, clock_part_text};
ghost use Rattle.rd_wf.specs.Roster.{names_in, thread_count};

use rd_base::{Bytes, NoMemory, Steps, append_number};
use rd_clock::Clock;
use rd_wf::Roster;
use std::alloc::Global;
use std::marker::Brand;
use std::sync::ledger::{Blank, Ledger};

// Puts a comma behind the text, where a part stands in front.
#[inline]
fn append_comma(text: &mut Bytes, some: bool) -> Result<(), NoMemory>
    ensures { OnOk result (text.new ≡ text.old ++ comma some) }
{
    if some { text.push(b',') } else { Ok(()) }
}

// Puts the count of a thread behind the text, with a comma in front of it where a part stands there, and nothing where it counts none.
// It says whether a part stands there now.
fn append_part(
    text: &mut Bytes,
    names: &Roster,
    thread: u32,
    count: u32,
    some: bool,
) -> Result<bool, NoMemory>
    requires { thread < thread_count names.now }
    ensures text { OnOk result
        (text.new ≡ text.old ++ clock_part_text some (name_of (names_in names.now) thread) count) }
    ensures some { IfOk result (λ now. now ≡ (some || nat_lt 0 count)) }
    ensures plain { ArePlain text.old → OnOk result (ArePlain text.new) }
{
    if count == 0 {
        return Ok(some);
    }
    append_comma(text, some)?;
    text.append(names.thread_name(thread).items())?;
    text.push(b':')?;
    append_number(text, u64::from(count))?;
    Ok(true)
}

// Puts a clock behind the text, with a counter of its own for its reads. It is asked for the threads for which it has room; it counts
// nothing of the others.
fn append_clock_with<L: Ledger>(
    text: &mut Bytes,
    clock: &Clock,
    names: &Roster,
    blank: Blank,
) -> Result<(), NoMemory>
    requires name { blank.name ≡ L.name }
    requires parts { blank.parts ≡ L.parts }
    requires some { 0 < blank.parts }
    ensures text { OnOk result
        (text.new ≡ text.old ++ clock_text (names_in names.now) (component clock.now)) }
    ensures plain { ArePlain text.old → OnOk result (ArePlain text.new) }
{
    let mut steps = Steps::<L>::new(blank);
    let asked = (names.threads() as usize).min(clock.room()) as u32;
    let mut some = false;
    for thread in 0..asked {
        some = append_part(text, names, thread, clock.get(thread, &mut steps), some)?;
    }
    Ok(())
}

/// Puts a clock behind the text: `THREAD:N` for each thread of which it counts events, in the order of their numbers. Behind plain bytes all
/// are plain. After want of memory the text may have a front of it.
pub fn append_clock(text: &mut Bytes, clock: &Clock, names: &Roster) -> Result<(), NoMemory>
    ensures text { OnOk result
        (text.new ≡ text.old ++ clock_text (names_in names.now) (component clock.now)) }
    ensures plain { ArePlain text.old → OnOk result (ArePlain text.new) }
{
    append_clock_with::<Brand>(text, clock, names, Blank::new(1))
}

/// The text of a clock: `THREAD:N` for each thread of which it counts events, in the order of their numbers. Its bytes are plain.
#[tactic(auto, using(crate::proofs::PlainLemmas::none_plain))]
pub fn clock_text(alloc: Global, clock: &Clock, names: &Roster) -> Result<Bytes, NoMemory>
    ensures text { IfOk result
        (λ text. text ≡ clock_text (names_in names.now) (component clock.now)) }
    ensures plain { IfOk result ArePlain }
{
    let mut text = Bytes::new(alloc);
    append_clock(&mut text, clock, names)?;
    Ok(text)
}
