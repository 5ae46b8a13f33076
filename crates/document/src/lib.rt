// The check of a whole document, as far as [1] has it up to the name of its root: the prolog, and '<' and a name. Each reader is a function of
// the text and a place, for all bytes and all places, and answers as the reader of the same name in the order of reading.
#![tactic(auto)]

mod check;
mod declaration;
mod doctype;
mod ends;
mod finding;
mod misc;
mod opening;
mod root;
mod verdict;

pub use check::{Accepted, Refused, Spot, Verdict, check_document, mark_length};
