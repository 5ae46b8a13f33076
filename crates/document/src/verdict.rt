// The verdict on the part of a document that can be read: what is refused in it, and what only does not end in it.
ghost use Rattle.std.specs.Prelude.{◌≡◌, Err};
ghost use Rattle.error.specs.Read.{reason};
ghost use Rattle.classes.specs.Classes.{dialect};
ghost use Rattle.document.specs.Judgements.{stopped_by, told, judged};

use crate::ends::{is_unended, sign_at};
use crate::opening::{Opening, read_prolog};
use crate::root::read_tag;
use classes::Names;
use error::Fault;

// Why it is not accepted: something is refused in it; something does not end in it that was opened at a place; or only the root is
// missing. What a text ends at, and with which refusal, is for the caller to say, who knows what stands there.
#[derive(Clone, Copy, Debug, PartialEq, Eq)]
pub enum Stopped {
    Refused(Fault),
    Ended(usize),
    Rootless,
}

// What a fault in the text stops; whole where the prolog before it is read to the text's end.
#[tactic(auto, using(crate::proofs::Judging::judging))]
fn stop(x: &[u8], whole: bool, fault: Fault) -> Stopped
    ensures { told (Err result) ≡ stopped_by whole (reason fault.refusal) fault.place x.now }
{
    if !is_unended(x, fault) {
        return Stopped::Refused(fault);
    }
    if whole {
        return Stopped::Rootless;
    }
    Stopped::Ended(sign_at(x, fault.place))
}

// [1] document up to the name of its root, in a text of which every character is one that is read.
#[tactic(auto, using(crate::proofs::Judging::judging))]
pub fn judge(x: &[u8], names: Names) -> Result<Opening, Stopped>
    ensures { told result ≡ judged (dialect names) x.now }
{
    let opening = read_prolog(x, 0, names).map_err(|fault| stop(x, false, fault))?;
    let whole = opening.end == x.len();
    read_tag(x, opening.end, names).map_err(|fault| stop(x, whole, fault))?;
    Ok(opening)
}
