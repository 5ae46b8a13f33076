// [28] doctypedecl, whole.
// Text, place and names stay three parameters (classes/src/lib.rt says why).
ghost use Rattle.std.specs.Prelude.{◌≡◌};
ghost use Rattle.spec.specs.Reading.Document.{closing, read_doctype_text, read_doctype};
ghost use Rattle.error.specs.Read.{reason, said, read};
ghost use Rattle.classes.specs.Classes.{dialect};
ghost use Rattle.document.specs.Closed.{closed};

use classes::Names;
use cursor::eat_str;
use dtd::parse_before_end;
use error::{Answer, Fault, Refusal};
use search::find_byte;

// The longest text that is looked at, and "<!DOCTYPE" and '>' around it.
const LONGEST: usize = 1_048_586;

// [28] doctypedecl after its "<!DOCTYPE", with the '>'
#[tactic(auto, using(crate::proofs::Closing::doctype_texts), unfolding(spec::specs::Reading::Document::read_doctype_text))]
fn read_doctype_text(s: &[u8], at: usize, names: Names) -> Answer
    ensures { said result ≡ read (read_doctype_text (dialect names)) s.now at }
{
    let i = parse_before_end(s, at, names)?;
    eat_str(s, i, b">", Refusal::Trailing)
}

// Whether a fault is told as it is: a '>' is left to end the DOCTYPE; or something that was opened in it does not end, as a comment in the
// subset, whose sign stands before the fault's place and says more than that the DOCTYPE does not end.
#[tactic(auto, using(crate::proofs::Closing::closings))]
fn is_closed(s: &[u8], fault: Fault) -> bool
    ensures { result ≡ closed (reason fault.refusal) fault.place s.now }
{
    find_byte(s, fault.place, b'>').is_some()
        || matches!(fault.refusal, Refusal::Unterminated) && fault.place < s.len()
}

// The same; but where it is refused and no '>' is left, it does not end, whatever else is wrong in it.
#[tactic(auto, using(crate::proofs::Closing::closings))]
fn read_closed(s: &[u8], at: usize, names: Names) -> Answer
    ensures { said result ≡ read (closing (read_doctype_text (dialect names))) s.now at }
{
    read_doctype_text(s, at, names).map_err(|fault| {
        if is_closed(s, fault) {
            fault
        } else {
            Refusal::Unterminated.at(at)
        }
    })
}

// [28] doctypedecl, at most so long that its text is one that is looked at
#[tactic(auto, using(crate::proofs::Closing::doctypes), unfolding(spec::specs::Reading::Document::read_doctype))]
pub fn read_doctype(s: &[u8], at: usize, names: Names) -> Answer
    ensures { said result ≡ read (read_doctype (dialect names)) s.now at }
{
    let i = eat_str(s, at, b"<!DOCTYPE", Refusal::Unexpected)?;
    let e = read_closed(s, i, names)?;
    if LONGEST < e - at {
        return Err(Refusal::TooLong.at(at));
    }
    Ok(e)
}
