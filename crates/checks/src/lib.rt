// checks.rs: the XML declaration. (NCNames are crate `ncnames`, the quick scan is `scan`, the gate `gate`.)
#![tactic(auto)]

mod declaration;
mod encoding;
mod values;

pub use declaration::{
    check_declaration, check_declaration_at, declaration_admitted, declaration_at, parse_version,
};
pub use encoding::{is_declaration, parse_encoding_eq};
