//! The program over the system: the words of the command line, real files and standard output, and the status with which it ends.
#![tactic(auto)]

mod arguments;
mod files;
mod output;
mod program;
#[cfg(test)]
mod tests;

pub use files::FileInputs;
pub use output::OutputSink;
pub use program::{run_program, run_words};
