// wellformed.rs, its first half: characters, and references to them.
#![tactic(auto)]

mod calls;
mod chars;
mod digits;
mod references;
mod rules;
mod skip;

pub use calls::{check_char_refs, check_char_refs_at, check_chars, check_chars_at};
pub use chars::{chars_admitted, chars_end, check_suspect_byte, is_xml_char};
pub use references::{check_char_ref_at, walk_char_refs};
pub use rules::{Rule, admitted, walk};
pub use skip::{CALM, is_special, skip_blocks};
