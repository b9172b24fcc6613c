//! Amurth synthesises best abstract transformers, and checks the certificates that show them.
//!
//! ```text
//! amurth synth < problem          # writes the certificate of a best transformer
//! amurth check < certificate      # writes that it is accepted, or why it isn't
//! amurth translate < certificate  # writes it with hints in place of its chains, or why it isn't accepted
//! amurth list < problem           # writes all best transformers of a small problem
//! amurth make 7                   # writes a summary of the problem with this number
//! amurth analyse < flow           # reads certificates and then a flow, and writes the flow's table
//! ```
//!
//! The exit codes are those of [`status::Status::code`].
#![tactic(auto)]

mod analysing;
mod answering;
mod checking;
mod command;
mod inputs;
mod limits;
mod lines;
mod listing;
mod making;
mod response;
mod running;
mod status;
mod synthesising;
mod translating;

use am_io::{StdSink, StdSource};
use command::{CommandWords, command_words};
use running::run;
use std::alloc::{AllocError, Global};
use std::env::{self, Args};
use std::io::ErrorKind;
use std::process::ExitCode;

fn main(rt: HostRuntime) -> ExitCode {
    let words = match env::args(&rt) {
        Ok(arguments) => words_among(rt.alloc(), arguments),
        Err(error) if error.kind() == ErrorKind::OutOfMemory => Err(AllocError),
        Err(_) => return ExitCode::from(2),
    };
    let Ok(words) = words else {
        return ExitCode::from(5);
    };
    let mut input = StdSource::new(rt.stdin());
    let mut output = StdSink::new(rt.stdout());
    ExitCode::from(run(rt.alloc(), &words, &mut input, &mut output).code())
}

/// The words among the arguments of the program, of which the first is its name.
fn words_among(alloc: Global, arguments: Args) -> Result<CommandWords, AllocError> {
    let all: Vec<String> = arguments.collect(alloc)?;
    command_words(alloc, &all)
}
