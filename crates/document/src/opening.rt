// [22] prolog, whole, and where the DOCTYPE's text lies in it.
// Text, place and names stay three parameters (classes/src/lib.rt says why).
ghost use Rattle.std.specs.Prelude.{◌≡◌};
ghost use Rattle.spec.specs.Reading.Document.{read_opening};
ghost use Rattle.error.specs.Read.{said, read};
ghost use Rattle.classes.specs.Classes.{dialect};
ghost use Rattle.document.specs.Prologs.{opens, ending_read, prolog_read};

use crate::declaration::read_declaration;
use crate::doctype::read_doctype;
use crate::misc::read_misc;
use classes::Names;
use error::{Answer, Fault};
use search::at_keyword;
use source::Span;

// Where the prolog ends, and the DOCTYPE's text, between "<!DOCTYPE" and its '>', if it has one.
#[derive(Clone, Copy, Debug, PartialEq, Eq)]
pub struct Opening {
    pub end: usize,
    pub doctype: Option<Span>,
}

// XMLDecl? Misc* of [22] prolog
#[tactic(auto, using(crate::proofs::Prologs::openings), unfolding(spec::specs::Reading::Document::read_opening))]
fn read_opening(s: &[u8], at: usize, names: Names) -> Answer
    ensures { said result ≡ read (read_opening (dialect names)) s.now at }
{
    let i = read_declaration(s, at)?;
    read_misc(s, i, names)
}

// (doctypedecl Misc*)? of [22] prolog. The DOCTYPE's text lies between its "<!DOCTYPE" and its '>', the last byte of it.
#[tactic(auto, using(crate::proofs::Prologs::endings), unfolding(spec::specs::Reading::Document::read_ending))]
fn read_ending(s: &[u8], at: usize, names: Names) -> Result<Opening, Fault>
    ensures { opens result ≡ ending_read (dialect names) s.now at }
{
    if !at_keyword(s, at, b"<!DOCTYPE") {
        return Ok(Opening {
            end: at,
            doctype: None,
        });
    }
    let past = read_doctype(s, at, names)?;
    let end = read_misc(s, past, names)?;
    let doctype = Span {
        start: at + 9,
        end: past - 1,
    };
    Ok(Opening {
        end,
        doctype: Some(doctype),
    })
}

// [22] prolog
#[tactic(auto, using(crate::proofs::Prologs::prologs))]
pub fn read_prolog(s: &[u8], at: usize, names: Names) -> Result<Opening, Fault>
    ensures { opens result ≡ prolog_read (dialect names) s.now at }
{
    let i = read_opening(s, at, names)?;
    read_ending(s, i, names)
}
