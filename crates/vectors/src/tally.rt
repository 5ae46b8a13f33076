// Comparing and counting.
use crate::gates;
use crate::line::{Kind, Line, WORD};
use gate::Gate;
use std::alloc::AllocError;
use std::fmt::InlineText;
use std::io::Write;
use std::{fmt, io};

// How many lines there were, how many of them were vectors, and of these how many differ and how many
// have a call that is not known; and the gate's record, which goes from line to line.
#[derive(Drop)]
pub struct Tally {
    lines: u64,
    vectors: u64,
    differ: u64,
    unknown: u64,
    gate: Gate,
}

impl Tally {
    pub fn new() -> Tally {
        Tally {
            lines: 0,
            vectors: 0,
            differ: 0,
            unknown: 0,
            gate: Gate::default(),
        }
    }

    // Counts one more line, which has ended, and says where it is malformed or its call answers
    // otherwise. Where that cannot be written there is nobody to tell, and the rest counts all the same.
    pub fn add(&mut self, rt: &impl Print, line: &mut Line) -> Result<(), AllocError> {
        self.lines = self.lines.wrapping_add(1);
        match line.finish()? {
            Kind::Nothing => {}
            Kind::Malformed => {
                self.vectors = self.vectors.wrapping_add(1);
                self.differ = self.differ.wrapping_add(1);
                let _ = println!(rt; "line {}: malformed", self.lines);
            }
            Kind::Vector => self.compare(rt, line),
        }
        Ok(())
    }

    fn compare(&mut self, rt: &impl Print, line: &Line) {
        self.vectors = self.vectors.wrapping_add(1);
        let Some(got) = gates::ask(&mut self.gate, &line.call, &line.answer, &line.text.bytes)
        else {
            self.unknown = self.unknown.wrapping_add(1);
            return;
        };
        let got = InlineText::<WORD>::of(got);
        let got = got.as_str();
        if got.as_bytes() != line.answer.as_slice() {
            self.differ = self.differ.wrapping_add(1);
            let _ = self.report(rt, line, got);
        }
    }

    // The columns may hold any bytes, so they are written as they are.
    fn report(&self, rt: &impl Print, line: &Line, got: &str) -> io::Result<()> {
        let mut out = io::writer(rt);
        write!(out, "line {}: ", self.lines)?;
        out.write_all(&line.call)?;
        out.write_all(b" wanted ")?;
        out.write_all(&line.answer)?;
        writeln!(out, " got {got}")
    }

    // Says how many there were, after the last line.
    pub fn tell(&self, rt: &impl Print) {
        let _ = println!(rt; "{self}");
    }
}

impl fmt::Display for Tally {
    fn fmt<W: fmt::Write>(&self, f: &mut fmt::Formatter<W>) -> fmt::Result {
        write!(f, "{} vectors, ", self.vectors)?;
        write!(f, "{} differ, {} not known", self.differ, self.unknown)
    }
}
