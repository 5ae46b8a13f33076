// Characters as a terminal shows them. What would act on the terminal, change the order of what stands beside it or not be seen at all is
// written out, so that a text or a file name cannot pretend to be another.
use std::fmt;
use std::fmt::{Display, Formatter, Write};

// A file's name, or a part of a text without tabs.
#[derive(Clone, Copy)]
pub struct Escaped<'a>(pub &'a [u8]);

impl Display for Escaped<'_> {
    fn fmt<W: fmt::Write>(&self, f: &mut Formatter<W>) -> fmt::Result {
        for chunk in self.0.utf8_chunks() {
            for c in chunk.valid().chars() {
                write_character(f, c)?;
            }
            // Bytes that are no character.
            for b in chunk.invalid() {
                write!(f, "\\x{b:02x}")?;
            }
        }
        Ok(())
    }
}

fn write_character<W: fmt::Write>(f: &mut Formatter<W>, c: char) -> fmt::Result {
    let code = c as u32;
    if c.is_ascii_control() {
        write!(f, "\\x{code:02x}")
    } else if is_hidden(c) {
        write!(f, "\\u{{{code:x}}}")
    } else {
        f.write_char(c)
    }
}

// A part of a text. A tab stays a tab, so that what is put under a line stands under it.
#[derive(Clone, Copy)]
pub struct Tabbed<'a>(pub &'a [u8]);

impl Display for Tabbed<'_> {
    fn fmt<W: fmt::Write>(&self, f: &mut Formatter<W>) -> fmt::Result {
        for (i, part) in self.0.split(|b| *b == b'\t').enumerate() {
            if i > 0 {
                f.write_char('\t')?;
            }
            write!(f, "{}", Escaped(part))?;
        }
        Ok(())
    }
}

// Blanks as wide as what is given, and its tabs.
#[derive(Clone, Copy)]
pub struct Blank<D>(pub D);

impl<D: Display> Display for Blank<D> {
    fn fmt<W: fmt::Write>(&self, f: &mut Formatter<W>) -> fmt::Result {
        write!(Blanks(f), "{}", &self.0)
    }
}

#[derive(Drop)]
struct Blanks<'a, W>(&'a mut Formatter<W>);

impl<W: fmt::Write> fmt::Write for Blanks<'_, W> {
    fn write_str(&mut self, s: &str) -> fmt::Result {
        for c in s.chars() {
            self.0.write_str(blanks_under(c))?;
        }
        Ok(())
    }
}

// Controls beyond ASCII; marks of direction, joining and breaking; what is no character.
fn is_hidden(c: char) -> bool {
    matches!(
        c as u32,
        0x80..=0x9F
            | 0xAD
            | 0x61C
            | 0x180E
            | 0x200B..=0x200F
            | 0x2028..=0x202E
            | 0x2060..=0x206F
            | 0xFEFF
            | 0xFFF0..=0xFFFB
            | 0xFFFE..=0xFFFF
            | 0xE0000..=0xE0FFF
    )
}

// As many blanks as a character takes on a terminal: none where it stands upon the one before it, two where it is wide, as East Asian
// letters and pictures are. A tab under a tab.
fn blanks_under(c: char) -> &'static str {
    match c as u32 {
        0x9 => "\t",
        0x300..=0x36F | 0x20D0..=0x20FF | 0xFE00..=0xFE0F | 0xFE20..=0xFE2F => "",
        0x1100..=0x115F
        | 0x2E80..=0x303E
        | 0x3041..=0xA4CF
        | 0xAC00..=0xD7A3
        | 0xF900..=0xFAFF
        | 0xFE30..=0xFE6F
        | 0xFF00..=0xFF60
        | 0xFFE0..=0xFFE6
        | 0x1F300..=0x1F64F
        | 0x1F900..=0x1F9FF
        | 0x20000..=0x3FFFD => "  ",
        _ => " ",
    }
}
