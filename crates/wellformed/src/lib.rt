// wellformed.rs, its second half: text and attribute values. Characters and references are in crate `chars`, names in crate `names`.
#![tactic(auto)]

mod calls;
mod text;

pub use calls::{check_attr_value, check_attr_value_at, check_text, check_text_at};
pub use text::{AttrValue, Text};
