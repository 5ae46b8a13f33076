// Notation declarations: parse_notation_decl of dtd.rs.
// Text, place and names stay three parameters (classes/src/lib.rt says why).
ghost use Rattle.std.specs.Prelude.{◌≡◌};
ghost use Rattle.spec.specs.Reading.Dtd.{second_literal, parse_notation_decl};
ghost use Rattle.error.specs.Read.{said, read};
ghost use Rattle.classes.specs.Classes.{dialect};
ghost use Rattle.decls.specs.Pieces.{notation_id};

use crate::ahead::at_spaced_quote;
use classes::Names;
use cursor::{Reads, at_end, need_ncname, parse_id, parse_spaced_literal, require_s, skip_s};
use error::Answer;

// The system identifier after a public one, which only [83] PublicID may leave out.
struct SecondLiteral;

impl Reads for SecondLiteral {
    ghost reader = { λ _. second_literal };

    #[tactic(auto, using(cursor::proofs::Reading::reading), unfolding(spec::specs::Reading::Dtd::second_literal))]
    fn read(&self, s: &[u8], at: usize) -> Answer {
        if at_spaced_quote(s, at) {
            return parse_spaced_literal(s, at);
        }
        Ok(at)
    }
}

// [75] ExternalID or [83] PublicID.
fn parse_notation_id(s: &[u8], at: usize) -> Answer
    ensures { said result ≡ read notation_id s.now at }
{
    parse_id(s, at, &SecondLiteral)
}

// [82] NotationDecl between its keyword and its '>'.
#[tactic(auto, using(cursor::proofs::Reading::reading), unfolding(spec::specs::Reading::Dtd::parse_notation_decl))]
pub fn parse_notation_decl(body: &[u8], at: usize, names: Names) -> Answer
    ensures { said result ≡ read (parse_notation_decl (dialect names)) body.now at }
{
    let i = require_s(body, at)?;
    let j = need_ncname(body, i, names)?;
    let k = require_s(body, j)?;
    let l = parse_notation_id(body, k)?;
    let end = skip_s(body, l);
    at_end(body, end)
}
