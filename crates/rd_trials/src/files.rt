//! Runs over real files and standard output, as the program makes them: what each writes stands in front of the line that says how it ended.

use rd_base::Word;
use rd_program::{FileInputs, OutputSink, run_words};
use std::alloc::Global;
use std::marker::Brand;
use std::process::ExitCode;
use std::rt::Files;
use std::sync::ledger::Blank;

/// The status that is wanted, and the words of a command, in a line each: each status but those of a failed write and of want of memory, and that of
/// words that the system doesn't give.
const RUNS: &str = "\
    0 check examples/read_after_join.trace\n\
    1 check-json examples/dictionary_update.trace\n\
    2 check\n\
    3 check examples/account_race.trace examples/refused_header.spec\n\
    4 replay examples/refused_bad_line.trace\n\
    5 check examples/replay_differs.trace\n\
    6 check examples/no_such_file.trace\n\
    9 check long_line.trace\n\
    10 adjacent examples/dictionary_update.trace 9 4\n\
    11 weave examples/hits.main.log\n";

/// The words of a line, one blank apart. None where memory runs out.
fn words_of(alloc: Global, line: &str) -> Option<Vec<Word>> {
    let mut words = Vec::new(alloc);
    for word in line.split(' ') {
        words
            .push(Word::from_bytes(alloc, word.as_bytes()).ok()?)
            .ok()?;
    }
    Some(words)
}

/// Runs a line, and says whether it ends with its status. None where memory runs out, or writing fails.
fn run_line<R: Files + Alloc<A = Global> + Print>(rt: &R, line: &str) -> Option<()> {
    let (digits, command) = line.split_once(' ')?;
    let status: u8 = digits.parse().ok()?;
    let words = words_of(rt.alloc(), command)?;
    let mut inputs = FileInputs::new(rt);
    let mut out = OutputSink::new(rt);
    let blank = Blank::new(1);
    let code = run_words::<_, _, Brand>(rt.alloc(), &words, &mut inputs, &mut out, blank);
    let verdict = if code == ExitCode::from(status) {
        "as wanted"
    } else {
        "otherwise"
    };
    rt.println(format_args!("{command}: status {status}, {verdict}"))
        .ok()
}

/// Runs each line over real files. None where memory runs out, or writing fails.
pub fn run_files<R: Files + Alloc<A = Global> + Print>(rt: &R) -> Option<()> {
    for line in RUNS.lines() {
        run_line(rt, line)?;
    }
    Some(())
}
