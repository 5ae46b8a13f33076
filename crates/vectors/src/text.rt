// The third column: pieces joined by `+`, each a run of pairs of hexadecimal digits that may be
// followed by `*` and a decimal number, which says how often the run stands there.
use std::alloc::{AllocError, Global};
use std::mem;

// Room for the longest text that a call can take (1,048,576 bytes), and for what stands around a
// DOCTYPE of that length in a document. A longer text is cut to that.
const LONGEST: usize = 1_048_600;

// What the next byte of the column goes on with.
#[derive(Clone, Copy)]
enum Place {
    // a pair of digits
    Pair,
    // the second digit of a pair, behind this one
    Half(u8),
    // the first digit of a number
    Star,
    // a number, as far as it is read
    Count(usize),
    // nothing: the column is malformed
    Bad,
}

// The text as far as it is read, and where the last piece of it begins.
#[derive(Drop)]
pub struct Text {
    alloc: Global,
    pub bytes: Vec<u8>,
    from: usize,
    place: Place,
}

impl Text {
    // The room is made at once, so that none is asked for later.
    pub fn new(alloc: Global) -> Result<Text, AllocError> {
        Ok(Text {
            alloc,
            bytes: Vec::with_capacity(alloc, LONGEST)?,
            from: 0,
            place: Place::Pair,
        })
    }

    pub fn clear(&mut self) {
        self.bytes.clear();
        self.from = 0;
        self.place = Place::Pair;
    }

    // One byte more of its column.
    pub fn push(&mut self, byte: u8) -> Result<(), AllocError> {
        self.place = match (self.place, byte) {
            (Place::Pair, b'+') => self.piece(),
            (Place::Pair, b'*') => Place::Star,
            (Place::Pair, _) if byte.is_ascii_hexdigit() => Place::Half(byte),
            (Place::Pair, _) => Place::Bad,
            (Place::Half(high), _) => match pair(high, byte) {
                Some(value) => self.put(value)?,
                None => Place::Bad,
            },
            (Place::Star, _) => count(0, byte),
            (Place::Count(times), b'+') => {
                self.repeat(times)?;
                self.piece()
            }
            (Place::Count(times), _) => count(times, byte),
            (Place::Bad, _) => Place::Bad,
        };
        Ok(())
    }

    // Whether the column may end here, once a line: it may not break off within a pair or before a
    // number. What is left to repeat is repeated.
    pub fn finish(&mut self) -> Result<bool, AllocError> {
        match self.place {
            Place::Pair => Ok(true),
            Place::Count(times) => {
                self.repeat(times)?;
                Ok(true)
            }
            Place::Half(_) | Place::Star | Place::Bad => Ok(false),
        }
    }

    // A piece begins behind what is read.
    fn piece(&mut self) -> Place {
        self.from = self.bytes.len();
        Place::Pair
    }

    // The last piece, `times` times in place of once. (Moved out for that: behind `self` each of its
    // bytes is copied alone, and a list of repeated texts takes four times as long.)
    fn repeat(&mut self, times: usize) -> Result<(), AllocError> {
        let bytes = mem::replace(&mut self.bytes, Vec::new(self.alloc));
        self.bytes = repeated(bytes, self.from, times)?;
        Ok(())
    }

    // A byte more, where there is room.
    fn put(&mut self, byte: u8) -> Result<Place, AllocError> {
        if self.bytes.len() < LONGEST {
            self.bytes.push(byte)?;
        }
        Ok(Place::Pair)
    }
}

fn pair(high: u8, low: u8) -> Option<u8> {
    let high = char::from(high).to_digit(16)?;
    let low = char::from(low).to_digit(16)?;
    Some((high * 16 + low) as u8)
}

// A number with one digit more. It is held where it would be too large: no text here is as long.
fn count(number: usize, byte: u8) -> Place {
    match char::from(byte).to_digit(10) {
        Some(digit) => Place::Count(number.saturating_mul(10).saturating_add(digit as usize)),
        None => Place::Bad,
    }
}

// The text with what stands from `from` on there `times` times in place of once.
fn repeated(mut text: Vec<u8>, from: usize, times: usize) -> Result<Vec<u8>, AllocError> {
    let once = text.len().saturating_sub(from);
    let end = once.saturating_mul(times).saturating_add(from).min(LONGEST);
    text.truncate(end);
    while from < text.len() && text.len() < end {
        // What is there is the piece a whole number of times, so a turn copies all of it.
        let more = (text.len() - from).min(end - text.len());
        text.extend_from_within(from..from + more)?;
    }
    Ok(text)
}
