// checks.rs: the quick scan of a front part of a document, which says whether the DOCTYPE's internal subset has opened and closed.
#![tactic(auto)]

mod calls;
mod subset;

pub use calls::{Scanned, scan, scan_admitted};
pub use subset::{internal_subset_end, subset_open};
