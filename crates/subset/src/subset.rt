// The internal subset: parse_internal_subset of dtd.rs.
// Text, place and names stay three parameters (classes/src/lib.rt says why).
ghost use Rattle.std.specs.Prelude.{◌≡◌};
ghost use Rattle.spec.specs.Reading.Refusals.{too_deep};
ghost use Rattle.spec.specs.Reading.Dtd.{parse_internal_subset};
ghost use Rattle.error.specs.Read.{said, read};
ghost use Rattle.classes.specs.Classes.{dialect};

use crate::declarations::parse_markup_decl;
use classes::Names;
use cursor::skip_s;
use error::{Answer, Refusal};
use markup::parse_pe_reference;

// [28b] intSubset and the ']' that closes it, from the place after its '['
#[tactic(auto, using(crate::proofs::Looping::looping))]
pub fn parse_internal_subset(s: &[u8], at: usize, names: Names) -> Answer
    ensures { said result ≡ read (parse_internal_subset (dialect names) too_deep) s.now at }
{
    let mut pe_used = false;
    let mut i = at;
    loop {
        let here = skip_s(s, i);
        match s.get(here) {
            Some(b']') => return Ok(here + 1),
            Some(b'%') => {
                i = parse_pe_reference(s, here, names)?;
                pe_used = true;
            }
            Some(b'<') => i = parse_markup_decl(s, here, pe_used, names)?,
            Some(_) => return Err(Refusal::Unexpected.at(here)),
            None => return Err(Refusal::Unterminated.at(here)),
        }
    }
}
