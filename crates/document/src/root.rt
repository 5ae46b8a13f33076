// The root's '<' and name, of [40] STag or [44] EmptyElemTag.
// Text, place and names stay three parameters (classes/src/lib.rt says why).
ghost use Rattle.std.specs.Prelude.{◌≡◌};
ghost use Rattle.spec.specs.Reading.Document.{read_other, read_tag};
ghost use Rattle.error.specs.Read.{said, read};
ghost use Rattle.classes.specs.Classes.{dialect};

use classes::Names;
use cursor::{eat_str, need_name};
use error::{Answer, Refusal};
use search::{at_keyword, find_byte};

// A declaration or a section that no prolog has. One without a '>' may yet become a comment or a DOCTYPE: it does not end.
#[tactic(auto, using(crate::proofs::Tags::tags), unfolding(spec::specs::Reading::Document::read_other))]
fn read_other(s: &[u8], at: usize, names: Names) -> Answer
    ensures { said result ≡ read (read_other (dialect names)) s.now at }
{
    if find_byte(s, at, b'>').is_some() {
        return Err(Refusal::Unexpected.at(at));
    }
    let i = eat_str(s, at, b"<!", Refusal::Unexpected)?;
    Err(Refusal::Unterminated.at(i))
}

// '<' Name of [40] STag, with a word for what else may stand where the root is due: the text's end, a second [28] doctypedecl, another
// declaration.
#[tactic(auto, using(crate::proofs::Tags::tags), unfolding(spec::specs::Reading::Document::read_tag))]
pub fn read_tag(s: &[u8], at: usize, names: Names) -> Answer
    ensures { said result ≡ read (read_tag (dialect names)) s.now at }
{
    if s.len() <= at {
        return Err(Refusal::Unterminated.at(at));
    }
    if at_keyword(s, at, b"<!DOCTYPE") {
        return Err(Refusal::OutOfOrder.at(at));
    }
    if at_keyword(s, at, b"<!") {
        return read_other(s, at, names);
    }
    let i = eat_str(s, at, b"<", Refusal::Unexpected)?;
    if s.len() <= i {
        return Err(Refusal::Unterminated.at(i));
    }
    need_name(s, i, names)
}
