// The program's output, and what it says of what failed.
use crate::files::Source;
use std::alloc::AllocError;
use std::fmt::{Display, InlineText};
use std::io::{Eprint, Print};
use std::{fmt, io};

// How a failure names standard output, and the program.
pub const OUTPUT: &str = "standard output";

pub const PROGRAM: &str = "moxkeldi";

// So much room is made for a report: more than most take, so that the room need not grow.
const ROOM: usize = 65536;

// What stands behind the system's words for an error: its number, which only a programmer would look up.
const CODE: &str = " (os error ";

// Why a file has no verdict, or one that nobody hears of.
#[derive(Clone, Copy)]
pub enum Failure {
    File(io::Error),
    Output(io::Error),
}

impl Failure {
    // Two causes, of which one names the file: a closure for each would be no plainer than the two arms.
    pub fn tell(self, rt: &HostRuntime, source: &Source) {
        match self {
            Failure::File(error) => fail(rt, source, error),
            Failure::Output(error) => fail(rt, OUTPUT, error),
        }
    }
}

impl From<io::Error> for Failure {
    fn from(error: io::Error) -> Failure {
        Failure::File(error)
    }
}

// Standard output. A report is put together first, so that it takes one write.
#[derive(Drop)]
pub struct Output<'a> {
    rt: &'a HostRuntime,
    report: String,
}

impl<'a> Output<'a> {
    pub fn new(rt: &'a HostRuntime) -> Result<Output<'a>, AllocError> {
        let report = String::with_capacity(rt.alloc(), ROOM)?;
        Ok(Output { rt, report })
    }

    pub fn say<D: Display + Drop>(&mut self, what: D) -> Result<(), Failure> {
        self.report.clear();
        write!(self.report, "{what}").map_err(io::Error::from)?;
        self.rt
            .write_all(self.report.as_bytes())
            .map_err(Failure::Output)
    }
}

// Writes a line to standard error. Where that fails there is nobody to tell.
pub fn complain<D: Display + Drop>(rt: &HostRuntime, what: D) {
    let _ = rt.eprintln(what);
}

// Says on standard error what failed, and why.
pub fn fail<D: Display + Drop>(rt: &HostRuntime, what: D, error: io::Error) {
    let words = InlineText::<256>::of(error);
    let reason = without_code(words.as_str());
    complain(rt, format_args!("{what}: {reason}"));
}

fn without_code(words: &str) -> &str {
    match words.split_once(CODE) {
        Some((reason, _)) => reason,
        None => words,
    }
}
