// The gate's record, and what is said of a DOCTYPE.

// Something was read, a DOCTYPE was seen, its subset is still open; and how many refusals there were.
#[repr(C)]
#[derive(Clone, Copy, Debug, Default, PartialEq, Eq)]
pub struct Gate {
    pub started: bool,
    pub seen: bool,
    pub open: bool,
    pub refused: u16,
}

// What a DOCTYPE is that is not refused: accepted as a whole; or its subset is still open, so that more of it has to come.
#[derive(Clone, Copy, Debug, PartialEq, Eq)]
pub enum Docked {
    Whole,
    Open,
}
