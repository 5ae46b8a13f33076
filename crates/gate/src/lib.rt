// checks.rs: the gate, which sees that the XML declaration comes first and that there is one DOCTYPE, in the prolog. Its record is
// lent by its owner.
#![tactic(auto)]

mod calls;
mod record;

pub use record::{Docked, Gate};
