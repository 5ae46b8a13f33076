// Checks the prolog of the files that its arguments name, and says what it finds. The check is document::check_document; what stands here
// reads arguments and files and writes reports.
#![tactic(auto)]

mod checker;
mod console;
mod escape;
mod files;
mod links;
mod options;
mod report;
mod show;
mod status;
mod usage;
mod verdict;
mod words;

use checker::Checker;
use console::{OUTPUT, PROGRAM};
use options::{Options, Request};
use status::Status;
use std::io::{Print, Result};

// Does what the arguments ask for, or fails where there is no memory for the arguments and the buffers.
fn run(rt: &HostRuntime) -> Result<Status> {
    let options = Options::read(rt)?;
    match options.request() {
        Ok(Request::Print(text)) => Ok(print(rt, text)),
        Ok(Request::Check(manner)) => {
            let mut checker = Checker::new(rt, manner)?;
            Ok(checker.check_all(&options.sources))
        }
        Err(misuse) => {
            console::complain(rt, misuse);
            Ok(Status::Failed)
        }
    }
}

fn print(rt: &HostRuntime, text: &str) -> Status {
    match rt.write_all(text.as_bytes()) {
        Ok(()) => Status::Good,
        Err(error) => {
            console::fail(rt, OUTPUT, error);
            Status::Failed
        }
    }
}

fn main(rt: HostRuntime) {
    let status = match run(&rt) {
        Ok(status) => status,
        Err(error) => {
            console::fail(&rt, PROGRAM, error);
            Status::Failed
        }
    };
    status.tell();
}
