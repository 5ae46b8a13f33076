// Fixed words and single bytes in a text: whether one stands at a place, and where it first stands, anywhere or outside quotes. Every
// reader goes by these.
#![tactic(auto)]

mod blocks;
mod bytes;
mod keywords;
mod places;
mod quotes;
mod spans;

pub use bytes::find_byte;
pub use keywords::at_keyword;
pub use places::{find, has_byte};
pub use quotes::outside_quotes;
pub use spans::{Class, past_run};
