// For whoever looks for the encoding that a document names: that an XML declaration begins, and what stands before the name in it. The
// declaration itself is read in declaration.rt; this is asked of one that was accepted.
ghost use Rattle.std.specs.Prelude.{◌≡◌, drop};
ghost use Rattle.spec.specs.Grammar.Languages.{one_of};
ghost use Rattle.spec.specs.Reading.Document.{is_declaration};
ghost use Rattle.spec.specs.Reading.Verdict.{read_encoding};
ghost use Rattle.error.specs.Read.{said, read};

use cursor::{eat_str, require_s, skip_s};
use error::{Answer, Refusal};
use search::at_keyword;
use utf8::code_point;

// White space or '?', one of which stands after the name "xml".
#[tactic(auto, using(crate::proofs::Chaining::beginning))]
fn ends_target(c: u32) -> bool
    ensures { result ≡ one_of " \t\r\n?" c }
{
    (c == 0x20) | (c == 0x9) | (c == 0xD) | (c == 0xA) | (c == 0x3F)
}

// An XML declaration begins here, and not an instruction whose target only begins with "xml".
#[tactic(auto, using(crate::proofs::Chaining::beginning))]
pub fn is_declaration(s: &[u8], at: usize) -> bool
    ensures { result ≡ is_declaration (drop at s.now) }
{
    at_keyword(s, at, b"<?xml") && code_point(s, at + 5).is_some_and(|p| ends_target(p.code))
}

// [80] EncodingDecl up to its quote mark: S 'encoding' Eq
#[tactic(auto, using(cursor::proofs::Reading::reading), unfolding(spec::specs::Reading::Verdict::read_encoding))]
pub fn parse_encoding_eq(s: &[u8], at: usize) -> Answer
    ensures { said result ≡ read read_encoding s.now at }
{
    let i = require_s(s, at)?;
    let i = eat_str(s, i, b"encoding", Refusal::Unexpected)?;
    let i = skip_s(s, i);
    let i = eat_str(s, i, b"=", Refusal::Unexpected)?;
    Ok(skip_s(s, i))
}
