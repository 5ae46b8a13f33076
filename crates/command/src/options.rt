// The arguments. Options may stand before, between and after the files, and count for all of them.
use crate::files::{INPUT, LONGEST_PATH, Source};
use crate::{usage, words};
use classes::Names;
use std::alloc::AllocError;
use std::env::{Env, FillError};

// By which names files are judged, and how much is said of them.
#[derive(Clone, Copy)]
pub struct Manner {
    pub names: Names,
    pub quiet: bool,
    pub verbose: bool,
}

// A text that an option asks for. Where several are asked for, the one named last here is printed.
#[derive(Clone, Copy, PartialEq, Eq, PartialOrd, Ord)]
enum Text {
    Numbers,
    Version,
    Help,
}

impl Text {
    fn words(self) -> &'static str {
        match self {
            Text::Numbers => words::TABLE,
            Text::Version => usage::VERSION,
            Text::Help => usage::HELP,
        }
    }
}

// What the arguments ask for.
pub enum Request {
    Print(&'static str),
    Check(Manner),
}

// Why they cannot be understood.
#[derive(Clone, Copy)]
pub enum Misuse<'a> {
    Unknown(&'a [u8]),
    NoFile,
    // Standard input can be read only once.
    InputTwice,
}

#[derive(Drop)]
pub struct Options {
    pub sources: Vec<Source>,
    manner: Manner,
    text: Option<Text>,
    // The last unknown option.
    unknown: Option<Vec<u8>>,
    // Whether `--` has come: every argument after it is a file.
    ended: bool,
}

impl Options {
    // Reads all arguments but the program's own name. One that is too long is a file.
    pub fn read(rt: &HostRuntime) -> Result<Options, AllocError> {
        let mut options = Options {
            sources: Vec::new(rt.alloc()),
            manner: Manner {
                names: Names::AppendixB,
                quiet: false,
                verbose: false,
            },
            text: None,
            unknown: None,
            ended: false,
        };
        // (`args` of the library, which would make the room itself, fails whole where an argument is not UTF-8, and a
        // file's name may be of any bytes.)
        let mut buffer = [0u8; LONGEST_PATH];
        for number in 1..usize::MAX {
            match rt.arg(number, &mut buffer) {
                Ok(n) => options.take(rt, number, &buffer[..n])?,
                Err(FillError::TooLong) => options.sources.push(Source { number, name: None })?,
                Err(FillError::NotPresent) => break,
            }
        }
        Ok(options)
    }

    // A `-` alone is standard input, also after `--`: a file of that name is `./-`.
    fn take(&mut self, rt: &HostRuntime, number: usize, word: &[u8]) -> Result<(), AllocError> {
        if self.ended || word == INPUT || !word.starts_with(b"-") {
            let name = Some(Vec::from_slice(rt.alloc(), word)?);
            self.sources.push(Source { number, name })?;
            return Ok(());
        }
        match word {
            b"-v" => self.manner.verbose = true,
            b"-q" => self.manner.quiet = true,
            b"--fifth-edition" => self.manner.names = Names::FifthEdition,
            b"-h" | b"--help" => self.text = self.text.max(Some(Text::Help)),
            b"--version" => self.text = self.text.max(Some(Text::Version)),
            b"--numbers" => self.text = self.text.max(Some(Text::Numbers)),
            b"--" => self.ended = true,
            _ => self.unknown = Some(Vec::from_slice(rt.alloc(), word)?),
        }
        Ok(())
    }

    pub fn request(&self) -> Result<Request, Misuse<'_>> {
        if let Some(word) = &self.unknown {
            return Err(Misuse::Unknown(word.as_slice()));
        }
        if let Some(text) = self.text {
            return Ok(Request::Print(text.words()));
        }
        if self.sources.is_empty() {
            return Err(Misuse::NoFile);
        }
        let inputs = self.sources.iter().filter(|source| source.is_input());
        if inputs.count() > 1 {
            return Err(Misuse::InputTwice);
        }
        Ok(Request::Check(self.manner))
    }
}
