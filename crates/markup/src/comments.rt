// Comments.
ghost use Rattle.std.specs.Prelude.{◌≡◌};
ghost use Rattle.spec.specs.Reading.Dtd.{check_comment, parse_comment};
ghost use Rattle.error.specs.Read.{said, read};

use cursor::{Reads, eat_str, parse_up_to};
use error::{Answer, Refusal};
use search::{at_keyword, find};

// What stands between "<!--" and "-->".
struct CommentText;

impl Reads for CommentText {
    ghost reader = { λ _. check_comment };

    // It has no "--": t from `at` on.
    #[tactic(auto, using(crate::proofs::Hyphens::marks))]
    fn read(&self, t: &[u8], at: usize) -> Answer {
        match find(t, at, b"--") {
            Some(j) => Err(Refusal::DoubleHyphen.at(j)),
            None => Ok(at),
        }
    }
}

// parse_comment, [15] Comment: from "<!--" to the first "-->". Where the first "--" is that of a "-->", none stands before it, and the
// one search is enough; another comment is refused, or ends in "--->".
#[tactic(auto, using(crate::proofs::Hyphens::marks, cursor::proofs::Reading::reading), unfolding(spec::specs::Reading::Dtd::parse_comment))]
pub fn parse_comment(s: &[u8], at: usize) -> Answer
    ensures { said result ≡ read parse_comment s.now at }
{
    let from = eat_str(s, at, b"<!--", Refusal::Unexpected)?;
    match find(s, from, b"--") {
        Some(j) if at_keyword(s, j, b"-->") => Ok(j + 3),
        _ => parse_up_to(s, from, b"-->", &CommentText),
    }
}
