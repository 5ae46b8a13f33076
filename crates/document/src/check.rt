// The check of a whole document: "check this file".
ghost use Rattle.std.specs.Prelude.{◌≡◌, Ok, Err};
ghost use Rattle.spec.specs.Reading.Refusals.{number};
ghost use Rattle.spec.specs.Reading.Verdict.{mark_length};
ghost use Rattle.error.specs.Read.{reason};
ghost use Rattle.classes.specs.Classes.{dialect};
ghost use Rattle.lines.specs.Lines.{line, column};
ghost use Rattle.document.specs.Findings.{finds};
ghost use Rattle.document.specs.Prologs.{text_of};
ghost use Rattle.document.specs.Judges.{further_by, unread_between, refused_as, accepted_as, spelled, told, Judges};

use crate::finding::{Finding, Lost, find};
use crate::opening::Opening;
use classes::Names;
use encodings::looks_like;
use entries::count_unread;
use error::Refusal;
use lines::{column_of, line_of};
use search::at_keyword;
use source::Span;

// The byte order mark of UTF-8.
const MARK: [u8; 3] = [0xEF, 0xBB, 0xBF];

// A place, counted from the file's first byte, and its line and column in the text behind the mark.
#[derive(Clone, Copy, Debug, PartialEq, Eq)]
pub struct Spot {
    pub place: usize,
    pub line: usize,
    pub column: usize,
}

// An accepted document: where its root begins; the DOCTYPE's text, between `<!DOCTYPE` and its `>`, if it has one; and how many of the
// declarations in it were not read.
#[derive(Clone, Copy, Debug, PartialEq, Eq)]
pub struct Accepted {
    pub root: Spot,
    pub doctype: Option<Span>,
    pub unread: usize,
}

// A refused one: why and where, and the place where what does not end was opened, or the same place.
#[derive(Clone, Copy, Debug, PartialEq, Eq)]
pub struct Refused {
    pub refusal: Refusal,
    pub at: Spot,
    pub opened: usize,
}

// The verdict on a document.
pub type Verdict = Result<Accepted, Refused>;

// A text behind its byte order mark, and how many bytes that has.
#[derive(Clone, Copy)]
struct Unmarked<'a> {
    text: &'a [u8],
    mark: usize,
}

impl Unmarked<'_> {
    // A place of it, as one of the whole text. No sum is too large for a place of a text; the test shows that to the prover.
    fn further(&self, place: usize) -> usize
        ensures { result ≡ further_by self.now.mark place }
    {
        place.checked_add(self.mark).unwrap_or(place)
    }

    #[tactic(auto, using(crate::proofs::Checking::checking))]
    fn spot(&self, place: usize) -> Spot
        ensures place { result.place ≡ further_by self.now.mark place }
        ensures line { result.line ≡ line self.now.text.now place }
        ensures column { result.column ≡ column self.now.text.now place }
    {
        Spot {
            place: self.further(place),
            line: line_of(self.text, place),
            column: column_of(self.text, place),
        }
    }

    // How many declarations go unread in the DOCTYPE's text. No place of it lies outside; the test shows that to the prover.
    #[tactic(auto, using(crate::proofs::Checking::checking))]
    fn unread_in(&self, doctype: Span, names: Names) -> usize
        ensures { result ≡ unread_between (dialect names) self.now.text.now doctype.start doctype.end }
    {
        self.text
            .get(doctype.start..doctype.end)
            .map_or(0, |part| count_unread(part, names))
    }

    // (By map and map_or over the DOCTYPE, in one record, the proof did not close.)
    #[tactic(auto, using(crate::proofs::Checking::checking))]
    fn accept(&self, opening: Opening, names: Names) -> Accepted
        ensures { told (Ok result) ≡ accepted_as (dialect names) self.now.text.now self.now.mark opening.end (text_of opening.doctype) }
    {
        let root = self.spot(opening.end);
        let Some(doctype) = opening.doctype else {
            return Accepted {
                root,
                doctype: None,
                unread: 0,
            };
        };
        let moved = Span {
            start: self.further(doctype.start),
            end: self.further(doctype.end),
        };
        Accepted {
            root,
            doctype: Some(moved),
            unread: self.unread_in(doctype, names),
        }
    }

    #[tactic(auto, using(crate::proofs::Checking::checking))]
    fn refuse(&self, lost: Lost) -> Refused
        ensures { told (Err result) ≡ refused_as self.now.text.now self.now.mark (number (reason lost.fault.refusal)) lost.opened lost.fault.place }
    {
        Refused {
            refusal: lost.fault.refusal,
            at: self.spot(lost.fault.place),
            opened: self.further(lost.opened),
        }
    }

    // What is found of it, in full. (By map and map_err in place of the match the proof did not close.)
    #[tactic(auto, using(crate::proofs::Checking::checking))]
    fn spell(&self, finding: Finding, names: Names) -> Verdict
        ensures { told result ≡ spelled (dialect names) self.now.text.now self.now.mark (finds finding) }
    {
        match finding {
            Ok(opening) => Ok(self.accept(opening, names)),
            Err(lost) => Err(self.refuse(lost)),
        }
    }
}

// How many bytes the byte order mark has that a text begins with, if it begins with one.
#[tactic(auto, using(crate::proofs::Checking::checking))]
pub fn mark_length(text: &[u8]) -> usize
    ensures { result ≡ mark_length text.now }
{
    if at_keyword(text, 0, &MARK) {
        MARK.len()
    } else {
        0
    }
}

// The verdict on a document of which the text is all, or the beginning, by these names. What looks like UTF-16 or UTF-32 is not UTF-8.
#[tactic(auto, using(crate::proofs::Checking::checking))]
pub fn check_document(text: &[u8], whole: bool, names: Names) -> Verdict
    ensures { Judges (dialect names) whole text.now (told result) }
{
    if looks_like(text).is_some() {
        let whole = Unmarked { text, mark: 0 };
        return Err(whole.refuse(Lost::from(Refusal::NotUtf8.at(0))));
    }
    let mark = mark_length(text);
    let document = Unmarked {
        text: &text[mark..],
        mark,
    };
    let found = find(document.text, whole, names);
    document.spell(found, names)
}
