// What is found of a document, from the part of it that can be read and from what stands at that part's end.
ghost use Rattle.std.specs.Prelude.{◌≡◌};
ghost use Rattle.spec.specs.Reading.Verdict.{verdict_in, verdict};
ghost use Rattle.classes.specs.Classes.{dialect};
ghost use Rattle.encodings.specs.Codings.{of};
ghost use Rattle.encodings.specs.Names.{start_of};
ghost use Rattle.document.specs.Findings.{finds, found};

use crate::declaration::read_declaration;
use crate::opening::Opening;
use crate::verdict::{Stopped, judge};
use classes::Names;
use encodings::{Coding, coding_in, encoding_read, end_refusal, legal_end};
use error::{Fault, Refusal};
use source::Span;

// So much of a document is tried first: most prologs are shorter, and what is accepted of a beginning is accepted of the whole.
const FRONT: usize = 65_536;

// Why a document is not accepted: the fault, and where what does not end was opened, or the fault's place.
#[derive(Clone, Copy, Debug, PartialEq, Eq)]
pub struct Lost {
    pub fault: Fault,
    pub opened: usize,
}

// Nothing was opened.
impl From<Fault> for Lost {
    ghost from_gives = { λ f l. l ≡ record { fault = f; opened = f.place } };

    fn from(fault: Fault) -> Lost {
        Lost {
            fault,
            opened: fault.place,
        }
    }
}

// Where the prolog of a document ends, and its DOCTYPE; or why it is not accepted.
pub type Finding = Result<Opening, Lost>;

// In one coding: of the text only the part is read that consists of its characters. (By map_err with the match in its closure the
// proof did not close.)
#[tactic(auto, using(crate::proofs::Findings::finding))]
fn find_in(text: &[u8], coding: Coding, whole: bool, names: Names) -> Finding
    ensures { finds result ≡ found (verdict_in (dialect names) (of coding) whole text.now) }
{
    let end = legal_end(text, coding);
    match judge(&text[0..end], names) {
        Ok(opening) => Ok(opening),
        Err(Stopped::Refused(fault)) => Err(Lost::from(fault)),
        Err(Stopped::Ended(opened)) => {
            let fault = end_refusal(text, coding, whole).at(end);
            Err(Lost { fault, opened })
        }
        Err(Stopped::Rootless) => Err(Lost::from(end_refusal(text, coding, whole).at(end))),
    }
}

// Where the name of an encoding begins; the text's first place, where none is named.
fn name_start(name: Option<Span>) -> usize
    ensures { result ≡ start_of name }
{
    name.map_or(0, |n| n.start)
}

// In the coding that it names. One that names another is read otherwise by whoever follows, so it is refused where it names it.
#[tactic(auto, using(crate::proofs::Findings::finding))]
fn find_named(text: &[u8], whole: bool, names: Names) -> Finding
    ensures { finds result ≡ found (verdict (dialect names) whole text.now) }
{
    let part = &text[0..legal_end(text, Coding::Utf8)];
    let declared = read_declaration(part, 0).is_ok();
    let name = encoding_read(part, declared);
    match coding_in(part, name) {
        Coding::Foreign => Err(Lost::from(Refusal::NotUtf8.at(name_start(name)))),
        coding => find_in(text, coding, whole, names),
    }
}

// A document of which the text is all, or the beginning. (The two are no struct: legal_end, judge and coding_in
// take a text alone, and the front part is tried as one that goes on.)
pub fn find(text: &[u8], whole: bool, names: Names) -> Finding
    ensures { finds result ≡ found (verdict (dialect names) whole text.now) }
{
    if FRONT < text.len() {
        if let Ok(opening) = find_named(&text[0..FRONT], false, names) {
            return Ok(opening);
        }
    }
    find_named(text, whole, names)
}
