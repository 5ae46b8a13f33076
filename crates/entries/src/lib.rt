// The entries of a DOCTYPE's internal subset, and which declarations among them went unread because of parameter entities: how many,
// and where each stands.
#![tactic(auto)]

mod count;
mod kinds;
mod walk;

pub use count::{UnreadEntries, count_unread, first_place};
pub use kinds::{Kind, entry_end, kind_at};
pub use walk::{Unread, next_unread};
