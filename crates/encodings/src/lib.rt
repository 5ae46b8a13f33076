// Encodings: which one a document's first bytes show, which one its XML declaration names, and how far a text can be read in it.
#![tactic(auto)]

mod codings;
mod ends;
mod legal;
mod wide;
mod xmldecl;

pub use codings::{Coding, coding_of};
pub use ends::end_refusal;
pub use legal::legal_end;
pub use wide::{Wide, looks_like};
pub use xmldecl::{coding_in, encoding_read, find_encoding};
