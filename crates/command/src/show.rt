// A line of a text, with its number, and a caret under a place of it.
ghost use Rattle.std.specs.Prelude.{◌≤◌, length};

use crate::escape::{Blank, Tabbed};
use std::fmt;

// At most so many bytes of a line are shown before a place, and after it.
const SHOWN: usize = 120;

// What is left out of a long line.
const CUT: &str = "...";

// The line of the place `at`, which has the number `line`.
#[derive(Clone, Copy)]
pub struct Shown<'a> {
    pub text: &'a [u8],
    pub at: usize,
    pub line: usize,
}

impl fmt::Display for Shown<'_> {
    fn fmt<W: fmt::Write>(&self, f: &mut fmt::Formatter<W>) -> fmt::Result {
        let line = self.line;
        let (before, after) = self.text.split_at(self.at.min(self.text.len()));
        let (front, before) = end_of_line(before);
        let (after, back) = rest_of_line(after);
        let before = Tabbed(before);
        writeln!(f, "  {line} | {front}{before}{}{back}", Tabbed(after))?;
        writeln!(f, "  {} | {}{}^", Blank(line), Blank(front), Blank(before))
    }
}

// The line that a text ends in, or as much of it as is shown, and before it what stands for what is left out.
fn end_of_line(text: &[u8]) -> (&'static str, &[u8]) {
    let (far, near) = text.split_at(text.len().saturating_sub(SHOWN));
    let split = tail_length(near);
    let shown = &near[split..];
    if let Some(i) = shown.iter().rposition(|b| ends_line(*b)) {
        return ("", &shown[i + 1..]);
    }
    let is_cut = split > 0 || far.last().is_some_and(|b| !ends_line(*b));
    (if is_cut { CUT } else { "" }, shown)
}

// The line that a text begins with, or as much of it as is shown, and what stands for what is left out.
fn rest_of_line(text: &[u8]) -> (&[u8], &'static str) {
    let end = text.iter().position(|b| ends_line(*b));
    let line = &text[..end.unwrap_or(text.len())];
    if line.len() <= SHOWN {
        return (line, "");
    }
    (&line[..SHOWN + tail_length(&line[SHOWN..])], CUT)
}

// How many bytes in front go on with a character that began before them: at most three of a character do.
fn tail_length(text: &[u8]) -> usize
    ensures { result ≤ length text.now }
{
    let begins = text.iter().position(|b| !matches!(*b, 0x80..=0xBF));
    begins.unwrap_or(text.len())
}

// A carriage return ends a line too, alone or before a line feed.
fn ends_line(b: u8) -> bool {
    b == b'\n' || b == b'\r'
}
