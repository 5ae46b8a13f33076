// [27] Misc: comments, instructions and white space around the DOCTYPE.
// Text, place and names stay three parameters (classes/src/lib.rt says why).
ghost use Rattle.std.specs.Prelude.{◌≡◌, drop};
ghost use Rattle.spec.specs.Reading.Document.{item_here, read_item, read_misc};
ghost use Rattle.error.specs.Read.{said, read};
ghost use Rattle.classes.specs.Classes.{dialect};

use checks::is_declaration;
use classes::Names;
use cursor::skip_s;
use error::{Answer, Refusal};
use markup::{parse_comment, parse_pi};
use search::at_keyword;

// [15] Comment or [16] PI begins here.
#[tactic(auto, using(crate::proofs::Items::items), unfolding(spec::specs::Reading::Document::item_here))]
fn item_here(s: &[u8], at: usize) -> bool
    ensures { result ≡ item_here (drop at s.now) }
{
    at_keyword(s, at, b"<!--") || at_keyword(s, at, b"<?")
}

// Comment | PI of [27] Misc. [23] XMLDecl looks like an instruction, but stands first or nowhere.
#[tactic(auto, using(crate::proofs::Items::items), unfolding(spec::specs::Reading::Document::read_item))]
pub fn read_item(s: &[u8], at: usize, names: Names) -> Answer
    ensures { said result ≡ read (read_item (dialect names)) s.now at }
{
    if at_keyword(s, at, b"<!--") {
        return parse_comment(s, at);
    }
    if is_declaration(s, at) {
        return Err(Refusal::OutOfOrder.at(at));
    }
    parse_pi(s, at, names)
}

// Misc* of [22] prolog, to the first place where nothing of [27] begins. (No iterator: the next place is what a reader answers.)
#[tactic(auto, using(crate::proofs::Items::miscs))]
pub fn read_misc(s: &[u8], at: usize, names: Names) -> Answer
    ensures { said result ≡ read (read_misc (dialect names)) s.now at }
{
    let mut i = skip_s(s, at);
    while item_here(s, i) {
        let j = read_item(s, i, names)?;
        i = skip_s(s, j);
    }
    Ok(i)
}
