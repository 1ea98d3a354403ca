//! Runs each row of the file `rows`, a command over two files in memory, and each example, and says which rows don't end as they should and
//! how each example ends; then commands over real files. Where all could be run, it goes on as the program with its own words.
#![tactic(auto)]

mod examples;
mod files;
mod reading;
mod rows;

use examples::run_examples;
use files::run_files;
use rd_program::run_program;
use reading::run_rows;
use std::process::ExitCode;

fn main(rt: HostRuntime) -> ExitCode {
    let ran = run_rows(&rt)
        .and_then(|()| run_examples(&rt))
        .and_then(|()| run_files(&rt));
    match ran {
        Some(()) => run_program(&rt, rt.alloc()),
        None => ExitCode::FAILURE,
    }
}
