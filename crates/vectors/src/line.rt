// A line of a list as far as it is read: the name of a call, the answer that it has to give, and the
// text that it is asked about, in hexadecimal. What stands behind another tab does not count.
use crate::text::Text;
use std::alloc::{AllocError, Global};

// So much of a call's name and of an answer is held: more than any has (eight numbers of seven digits,
// since no text here is longer), so that a cut one is no known call, or differs from the answer.
pub const WORD: usize = 64;

// Where in the line the next byte stands.
#[derive(Clone, Copy)]
enum Column {
    // at the start, where carriage returns are passed over
    Start,
    Comment,
    Call,
    Answer,
    Text,
    // behind a carriage return that ends the third column, where only the newline may follow
    Return,
    // behind the third column
    More,
    // where something else followed
    Broken,
}

// What a whole line is.
#[derive(Clone, Copy)]
pub enum Kind {
    // an empty line, or a comment
    Nothing,
    Malformed,
    Vector,
}

// Its buffers are made once, and not for each line.
#[derive(Drop)]
pub struct Line {
    column: Column,
    pub call: Vec<u8>,
    pub answer: Vec<u8>,
    pub text: Text,
}

impl Line {
    pub fn new(alloc: Global) -> Result<Line, AllocError> {
        Ok(Line {
            column: Column::Start,
            call: Vec::with_capacity(alloc, WORD)?,
            answer: Vec::with_capacity(alloc, WORD)?,
            text: Text::new(alloc)?,
        })
    }

    // Goes to the start of the next one.
    pub fn clear(&mut self) {
        self.column = Column::Start;
        self.call.clear();
        self.answer.clear();
        self.text.clear();
    }

    // Goes on through a part of it, which has no newline.
    pub fn push(&mut self, part: &[u8]) -> Result<(), AllocError> {
        for byte in part {
            match (self.column, *byte) {
                (Column::Comment | Column::More | Column::Broken, _) => return Ok(()),
                (Column::Text, b'\t') => self.column = Column::More,
                (Column::Text, b'\r') => self.column = Column::Return,
                (Column::Text, byte) => self.text.push(byte)?,
                (Column::Start, b'\r') => {}
                (Column::Start, b'#') => self.column = Column::Comment,
                (Column::Start | Column::Call, b'\t') => self.column = Column::Answer,
                (Column::Start | Column::Call, byte) => {
                    self.column = Column::Call;
                    hold(&mut self.call, byte)?;
                }
                (Column::Answer, b'\t') => self.column = Column::Text,
                (Column::Answer, byte) => hold(&mut self.answer, byte)?,
                (Column::Return, _) => self.column = Column::Broken,
            }
        }
        Ok(())
    }

    // What it is, once it has ended: a vector has three columns.
    pub fn finish(&mut self) -> Result<Kind, AllocError> {
        match self.column {
            Column::Start | Column::Comment => Ok(Kind::Nothing),
            Column::Call | Column::Answer | Column::Broken => Ok(Kind::Malformed),
            Column::Text | Column::Return | Column::More => {
                let is_text = self.text.finish()?;
                Ok(if is_text {
                    Kind::Vector
                } else {
                    Kind::Malformed
                })
            }
        }
    }
}

// Puts a byte behind a word, as far as one is held.
fn hold(word: &mut Vec<u8>, byte: u8) -> Result<(), AllocError> {
    if word.len() < WORD {
        word.push(byte)?;
    }
    Ok(())
}
