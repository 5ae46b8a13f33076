// [23] XMLDecl, where a document begins with one.
ghost use Rattle.std.specs.Prelude.{◌≡◌};
ghost use Rattle.spec.specs.Reading.Checks.{check_declaration};
ghost use Rattle.spec.specs.Reading.Document.{read_declaration};
ghost use Rattle.error.specs.Read.{said, read};

use checks::{declaration_at, is_declaration};
use cursor::{Reads, parse_up_to};
use error::Answer;

// What stands between "<?" and "?>".
struct DeclarationText;

impl Reads for DeclarationText {
    ghost reader = { λ _. check_declaration };

    fn read(&self, t: &[u8], at: usize) -> Answer {
        declaration_at(t, at)
    }
}

// XMLDecl? of [22] prolog.
#[tactic(auto, using(crate::proofs::Declared::declaring), unfolding(spec::specs::Reading::Document::read_declaration))]
pub fn read_declaration(s: &[u8], at: usize) -> Answer
    ensures { said result ≡ read read_declaration s.now at }
{
    if !is_declaration(s, at) {
        return Ok(at);
    }
    parse_up_to(s, at + 2, b"?>", &DeclarationText)
}
