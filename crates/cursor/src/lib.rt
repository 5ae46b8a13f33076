// The Cursor of dtd.rs as functions of a text and a place, on any bytes and at any place: white space, fixed words, literals and names.
// Text and place are two parameters and no struct: a reader answers with the place that the next one is handed, and a struct would be
// built anew at each step. Who wants a Cursor has that of `lent`.
#![tactic(auto)]

mod bars;
mod literals;
mod reads;
mod space;
mod tokens;
mod until;
mod words;

pub use bars::past_bars;
pub use literals::{
    AttText, EntityText, PubidText, parse_checked, parse_external_id, parse_id, parse_quoted,
    parse_spaced_literal,
};
pub use reads::Reads;
pub use space::{is_space, require_s, skip_s};
pub use tokens::{Name, Nmtoken, need_name, need_ncname, need_nmtoken};
pub use until::parse_up_to;
pub use words::{at_end, eat_str};
