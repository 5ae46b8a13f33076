// Runs vectors: reads lines `call TAB answer TAB text` from standard input, asks the library for the
// answer to each call that is known, writes a line for each answer that differs, and at the end how
// many there were.
#![tactic(auto)]

mod calls;
mod gates;
mod line;
mod reply;
mod tally;
mod text;

use line::Line;
use std::alloc::AllocError;
use std::io;
use std::io::{BufRead, BufReader, ErrorKind};
use tally::Tally;

// So much of the input is read at a time.
const PART: usize = 65_536;

// Goes on through a part of the input: a newline ends a line, and what stands behind the last one is
// the beginning of another.
fn follow(
    rt: &HostRuntime,
    part: &[u8],
    line: &mut Line,
    tally: &mut Tally,
) -> Result<(), AllocError> {
    for (newlines, piece) in part.split(|byte| *byte == b'\n').enumerate() {
        if newlines > 0 {
            tally.add(rt, line)?;
            line.clear();
        }
        line.push(piece)?;
    }
    Ok(())
}

// A line is taken as it comes and never held whole, so that no length of it takes more memory; and a
// read that fails, or gives nothing, ends the input behind what came before it. (One that was only
// interrupted is tried again. The turns are counted, since a proved loop has to end and nothing says
// that the input does.)
fn main(rt: HostRuntime) -> io::Result<()> {
    let mut input = BufReader::with_capacity(rt.alloc(), PART, rt.stdin())?;
    let mut line = Line::new(rt.alloc())?;
    let mut tally = Tally::new();
    for _ in 0..u64::MAX {
        let count = match input.fill_buf() {
            Ok(part) => {
                follow(&rt, part, &mut line, &mut tally)?;
                part.len()
            }
            Err(error) if error.kind() == ErrorKind::Interrupted => continue,
            Err(_) => 0,
        };
        if count == 0 {
            break;
        }
        input.consume(count);
    }
    // The last line may lack its newline; where it has one, an empty line is left, which does not
    // count.
    tally.add(&rt, &mut line)?;
    tally.tell(&rt);
    Ok(())
}
