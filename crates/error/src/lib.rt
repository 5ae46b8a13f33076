// error.rs: NotWellFormed as a number of the table of docs/SCOPE.md, and the answer of a reader.
#![tactic(auto)]

ghost use Rattle.std.specs.Prelude.{◌≡◌};
ghost use Rattle.error.specs.Read.{code};

mod refusal;

pub use refusal::Refusal;

// A refusal, and the place where it is met: the place first, where Answer's other case has it too, so that neither is moved for the other.
#[derive(Clone, Copy, Debug, PartialEq, Eq)]
pub struct Fault {
    pub place: usize,
    pub refusal: Refusal,
}

// What a reader answers: the place after what it read, or its fault.
pub type Answer = Result<usize, Fault>;

// What a check answers.
pub type Verdict = Result<(), Refusal>;

// Whoever asks only whether a text is accepted needs no place.
impl From<Fault> for Refusal {
    ghost from_gives = { λ f r. r ≡ f.refusal };

    fn from(fault: Fault) -> Refusal {
        fault.refusal
    }
}

// The number of a check's answer: 0 where it accepts.
pub fn code(r: Verdict) -> u8
    ensures { result ≡ code r }
{
    match r {
        Ok(()) => 0,
        Err(refusal) => refusal.number(),
    }
}
