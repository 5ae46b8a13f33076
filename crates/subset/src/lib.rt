// dtd.rs, the internal subset: declarations by their keyword, and the entries one after the other.
#![tactic(auto)]

mod declarations;
mod subset;

pub use declarations::parse_markup_decl;
pub use subset::parse_internal_subset;
