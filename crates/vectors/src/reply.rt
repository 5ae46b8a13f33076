// What a call answers, and how an answer is written in a vector. A new form of answer is one more
// variant here, and one more arm where it is written.
use document::{Spot, Verdict};
use error::{Answer, Refusal, code};
use gate::Docked;
use scan::Scanned;
use std::fmt;

#[derive(Clone, Copy)]
pub enum Reply {
    // a number
    Checked(error::Verdict),
    // a number and a place, as `13@24`
    Placed(Answer),
    // a number, and `y` or `n`
    Tells(Result<bool, Refusal>),
    // `o` for not opened, `c` for not closed, or the place of the subset's `]`, as `p17`
    Scans(Result<Scanned, Refusal>),
    // a number, or that the subset is open
    Docks(Result<Docked, Refusal>),
    // what is told of a document
    Judges(Verdict),
    Letter(char),
    // a letter and a number of bytes, as `l5`
    Measure(char, usize),
}

impl fmt::Display for Reply {
    fn fmt<W: fmt::Write>(&self, f: &mut fmt::Formatter<W>) -> fmt::Result {
        match *self {
            Reply::Checked(verdict) => write!(f, "{}", code(verdict)),
            Reply::Placed(Ok(end)) => write!(f, "0@{end}"),
            Reply::Placed(Err(fault)) => write!(f, "{}@{}", fault.refusal.number(), fault.place),
            Reply::Tells(Ok(true)) => write!(f, "0y"),
            Reply::Tells(Ok(false)) => write!(f, "0n"),
            Reply::Tells(Err(refusal)) => write!(f, "{}n", refusal.number()),
            Reply::Scans(Ok(Scanned::NotOpened)) => write!(f, "o"),
            Reply::Scans(Ok(Scanned::NotClosed)) => write!(f, "c"),
            Reply::Scans(Ok(Scanned::Closed(at))) => write!(f, "p{at}"),
            Reply::Scans(Err(refusal)) => write!(f, "{}", refusal.number()),
            Reply::Docks(Ok(Docked::Whole)) => write!(f, "0"),
            Reply::Docks(Ok(Docked::Open)) => write!(f, "open"),
            Reply::Docks(Err(refusal)) => write!(f, "{}", refusal.number()),
            Reply::Judges(verdict) => write_verdict(verdict, f),
            Reply::Letter(letter) => write!(f, "{letter}"),
            Reply::Measure(letter, size) => write!(f, "{letter}{size}"),
        }
    }
}

// As `0@29:2:29/29/10-27/1`, where `-` stands for the DOCTYPE's range if there is none.
fn write_verdict<W: fmt::Write>(verdict: Verdict, f: &mut fmt::Formatter<W>) -> fmt::Result {
    match verdict {
        Ok(said) => {
            let Spot {
                place,
                line,
                column,
            } = said.root;
            write!(f, "0@{place}:{line}:{column}/{place}/")?;
            match said.doctype {
                Some(text) => write!(f, "{}-{}", text.start, text.end)?,
                None => write!(f, "-")?,
            }
            write!(f, "/{}", said.unread)
        }
        Err(said) => {
            let Spot {
                place,
                line,
                column,
            } = said.at;
            let number = said.refusal.number();
            write!(f, "{number}@{place}:{line}:{column}/{}/-/0", said.opened)
        }
    }
}
