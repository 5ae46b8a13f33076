// Names: the part of wellformed.rs that reads them, parse_name and the loop of parse_nmtoken of dtd.rs.
#![tactic(auto)]

mod checks;
mod ends;

pub use checks::{check_name, check_name_at, name_admitted, whole_name};
pub use ends::{name_chars_end, name_end, parse_name};
