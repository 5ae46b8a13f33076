// Files whose names are not UTF-8. The library opens only names that are, so the script that starts the program makes a link to such a
// file, named by the argument's number, in a folder that this variable of the environment names.
use crate::files::LONGEST_PATH;
use std::env::VarError;
use std::fs::File;
use std::{env, fs, io};

const FOLDER: &str = "MOXKELDI_LINKS";

// Opens the file that argument `number` names.
pub fn open(rt: &HostRuntime, number: usize) -> io::Result<File> {
    match env::var(rt, FOLDER) {
        Ok(folder) if folder.len() <= LONGEST_PATH => {
            fs::open(rt, format!(in rt.alloc(); "{folder}/{number}")?.as_str())
        }
        Err(VarError::OutOfMemory) => Err(io::Error::from(io::ErrorKind::OutOfMemory)),
        Ok(_) | Err(VarError::NotPresent | VarError::NotUnicode) => Err(io::Error::new(
            io::ErrorKind::InvalidInput,
            "its name is not UTF-8, and the script moxkeldi has made no link to it",
        )),
    }
}
