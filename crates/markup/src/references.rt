// Parameter-entity references.
// Text, place and names stay three parameters (classes/src/lib.rt says why).
ghost use Rattle.std.specs.Prelude.{◌≡◌};
ghost use Rattle.spec.specs.Reading.Dtd.{parse_pe_reference};
ghost use Rattle.error.specs.Read.{said, read};
ghost use Rattle.classes.specs.Classes.{dialect};

use classes::Names;
use cursor::{eat_str, need_name};
use error::{Answer, Refusal};

// parse_pe_reference, [69] PEReference.
#[tactic(auto, using(cursor::proofs::Reading::reading), unfolding(spec::specs::Reading::Dtd::parse_pe_reference))]
pub fn parse_pe_reference(s: &[u8], at: usize, names: Names) -> Answer
    ensures { said result ≡ read (parse_pe_reference (dialect names)) s.now at }
{
    let i = eat_str(s, at, b"%", Refusal::Unexpected)?;
    let e = need_name(s, i, names)?;
    eat_str(s, e, b";", Refusal::Unexpected)
}
