// The pieces of dtd.rs's internal subset that fixed words delimit: bodies of declarations, comments, processing instructions and
// parameter-entity references. Each is a function of a text and a place, for all bytes and all places.
#![tactic(auto)]

mod bodies;
mod comments;
mod instructions;
mod references;

pub use bodies::{has_pe_reference, take_decl_body};
pub use comments::parse_comment;
pub use instructions::parse_pi;
pub use references::parse_pe_reference;
