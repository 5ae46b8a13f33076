// dtd.rs, its outermost part: the DOCTYPE. Its internal subset is in crate `subset`.
#![tactic(auto)]

mod doctype;

pub use doctype::{check_doctype, check_doctype_at, doctype_admitted, parse_before_end};
