// The scan of a front part, and the two numbers in front of it.
ghost use Rattle.std.specs.Prelude.{◌≡◌};
ghost use Rattle.spec.specs.Reading.Scan as Rule;
ghost use Rattle.scan.specs.Answers.{scan_of, Scans};

use crate::subset::{internal_subset_end, subset_open};
use error::Refusal;
use source::admit;

// What the scan says: no subset has opened, one has opened and not closed, or it closed at the ']' of this place.
#[derive(Clone, Copy, Debug, PartialEq, Eq)]
pub enum Scanned {
    NotOpened,
    NotClosed,
    Closed(usize),
}

// The scan of any bytes. The second pass begins after the byte where the first one stopped.
#[tactic(auto, using(crate::proofs::Answering::answering))]
pub fn scan_admitted(text: &[u8]) -> Scanned
    ensures { scan_of result ≡ Rule.scan text.now }
{
    let Some(i) = subset_open(text) else {
        return Scanned::NotOpened;
    };
    match internal_subset_end(text, i + 1) {
        Some(j) => Scanned::Closed(j),
        None => Scanned::NotClosed,
    }
}

// 1 and 2 come before the scan, as in every public call.
#[tactic(auto, using(crate::proofs::Answering::answering))]
pub fn scan(text: &[u8]) -> Result<Scanned, Refusal>
    ensures { Scans text.now result }
{
    admit(text)?;
    Ok(scan_admitted(text))
}
