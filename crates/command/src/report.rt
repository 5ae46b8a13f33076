// What is said of a file.
use crate::escape::Escaped;
use crate::show::Shown;
use crate::verdict::{Accepted, Refused, unmarked};
use crate::words;
use std::fmt;
use std::fmt::Formatter;

// A file's name, and its text behind the byte order mark, which no line or column counts.
#[derive(Clone, Copy)]
pub struct Document<'a> {
    name: &'a [u8],
    pub text: &'a [u8],
}

impl<'a> Document<'a> {
    pub fn new(name: &'a [u8], held: &'a [u8]) -> Document<'a> {
        Document {
            name,
            text: unmarked(held),
        }
    }

    fn place(self, at: usize) -> Place<'a> {
        Place {
            name: self.name,
            shown: Shown {
                text: self.text,
                at,
                line: lines::line_of(self.text, at),
            },
        }
    }

    fn write_accepted<W: fmt::Write>(
        self,
        f: &mut Formatter<W>,
        accepted: Accepted,
    ) -> fmt::Result {
        write!(f, "{}: accepted", Escaped(self.name))?;
        match accepted.doctype {
            None => writeln!(f, ", no DOCTYPE"),
            Some(doctype) => match doctype.unread {
                0 => writeln!(f),
                1 => writeln!(f, ", 1 declaration not read (parameter entities)"),
                n => writeln!(f, ", {n} declarations not read (parameter entities)"),
            },
        }
    }

    fn write_refused<W: fmt::Write>(self, f: &mut Formatter<W>, refused: Refused) -> fmt::Result {
        let place = self.place(refused.place);
        let number = refused.refusal.number();
        let words = words::of(number).unwrap_or_default();
        write!(f, "{place}: refused with {number}: {words}")?;
        // A line of a text in such an encoding would be a row of signs that say nothing, so it is not shown.
        if let Some(encoding) = refused.encoding(self.text) {
            return writeln!(f, " (it looks like {encoding})");
        }
        write!(f, "\n{}", place.shown)?;
        match refused.opened {
            None => Ok(()),
            Some(at) => {
                let place = self.place(at);
                write!(f, "{place}: opened here\n{}", place.shown)
            }
        }
    }
}

// A place of a file: FILE:LINE:COLUMN.
#[derive(Clone, Copy)]
struct Place<'a> {
    name: &'a [u8],
    shown: Shown<'a>,
}

impl fmt::Display for Place<'_> {
    fn fmt<W: fmt::Write>(&self, f: &mut Formatter<W>) -> fmt::Result {
        let name = Escaped(self.name);
        let Shown { text, at, line } = self.shown;
        write!(f, "{name}:{line}:{}", lines::column_of(text, at))
    }
}

// The verdict on a file.
#[derive(Clone, Copy)]
pub struct Report<'a> {
    pub document: Document<'a>,
    pub verdict: Result<Accepted, Refused>,
}

impl fmt::Display for Report<'_> {
    fn fmt<W: fmt::Write>(&self, f: &mut Formatter<W>) -> fmt::Result {
        match self.verdict {
            Ok(accepted) => self.document.write_accepted(f, accepted),
            Err(refused) => self.document.write_refused(f, refused),
        }
    }
}

// A declaration that was not read.
#[derive(Clone, Copy)]
pub struct NotRead<'a> {
    pub document: Document<'a>,
    pub at: usize,
}

impl fmt::Display for NotRead<'_> {
    fn fmt<W: fmt::Write>(&self, f: &mut Formatter<W>) -> fmt::Result {
        let place = self.document.place(self.at);
        write!(f, "{place}: not read\n{}", place.shown)
    }
}
