// Attribute-list, entity and notation declarations of dtd.rs, each read from a text of its own: what stands between its keyword and
// its '>'.
#![tactic(auto)]

mod ahead;
mod attlists;
mod entities;
mod lists;
mod notations;

pub use attlists::{parse_att_def, parse_att_type, parse_attlist_decl, parse_default_decl};
pub use entities::parse_entity_decl;
pub use lists::parse_list;
pub use notations::parse_notation_decl;
