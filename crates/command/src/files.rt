// A file that an argument names, and reading as much of it as is held.
use crate::escape::Escaped;
use crate::links;
use std::io::Read;
use std::{fmt, fs, io, str};

// So many bytes of a file are held: room for a DOCTYPE that is too long, and for much in front of it.
pub const HELD: usize = 2097152;

// No path is longer.
pub const LONGEST_PATH: usize = 4096;

// The system's number for a name that is too long.
const ENAMETOOLONG: i32 = 36;

// Standard input, as an argument.
pub const INPUT: &[u8] = b"-";

#[derive(Drop)]
pub struct Source {
    // Its place among the arguments, by which links go.
    pub number: usize,
    // The argument; none where it is longer than any path.
    pub name: Option<Vec<u8>>,
}

impl Source {
    // Whether it is standard input.
    pub fn is_input(&self) -> bool {
        match &self.name {
            Some(name) => name.as_slice() == INPUT,
            None => false,
        }
    }

    // An argument that cannot be had is a failure like a file that was not read.
    pub fn name(&self) -> io::Result<&[u8]> {
        match &self.name {
            Some(name) => Ok(name.as_slice()),
            None => Err(io::Error::from_raw_os_error(ENAMETOOLONG)),
        }
    }

    // Reads it to its end, or a byte more than is held, to see whether it goes on. A directory opens, and only the read fails.
    pub fn read(&self, rt: &HostRuntime, held: &mut Vec<u8>) -> io::Result<()> {
        if self.is_input() {
            return read_from(&mut rt.stdin(), held);
        }
        match str::from_utf8(self.name()?) {
            Ok(path) => read_from(&mut fs::open(rt, path)?, held),
            Err(_) => read_from(&mut links::open(rt, self.number)?, held),
        }
    }
}

fn read_from<R: Read>(from: &mut R, held: &mut Vec<u8>) -> io::Result<()> {
    held.clear();
    from.take(HELD as u64 + 1).read_to_end(held)?;
    Ok(())
}

// As a failure names it.
impl fmt::Display for Source {
    fn fmt<W: fmt::Write>(&self, f: &mut fmt::Formatter<W>) -> fmt::Result {
        if self.is_input() {
            return write!(f, "standard input");
        }
        match self.name() {
            Ok(name) => write!(f, "{}", Escaped(name)),
            Err(_) => write!(f, "a file name"),
        }
    }
}
