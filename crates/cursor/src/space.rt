// White space: skip_s and require_s of dtd.rs.
ghost use Rattle.std.specs.Prelude.{◌≡◌, ◌+◌, drop};
ghost use Rattle.spec.specs.Grammar.Characters.{space};
ghost use Rattle.spec.specs.Reading.Readers.{run};
ghost use Rattle.spec.specs.Reading.Dtd.{require_s};
ghost use Rattle.error.specs.Read.{said, read};

use error::{Answer, Refusal};
use search::{Class, past_run};

// One byte of production 3, S. By `matches!` skip_s takes 24 percent more instructions where no white space stands.
pub fn is_space(b: u8) -> bool
    ensures { result ≡ space b }
{
    (b == 0x20) | (b == 0x9) | (b == 0xD) | (b == 0xA)
}

// White space.
struct Space;

impl Class for Space {
    ghost class = { λ _. space };

    fn has(&self, b: u8) -> bool {
        is_space(b)
    }
}

// S?: the place after the white space at `at`, or `at` itself. (As parse_notation_id of decls it is one call with an instance of its own.)
pub fn skip_s(s: &[u8], at: usize) -> usize
    ensures { result ≡ at + run space (drop at s.now) }
{
    past_run(s, at, &Space)
}

// S, at least one byte of it.
#[tactic(auto, using(crate::proofs::Spaces::requiring), unfolding(spec::specs::Reading::Dtd::require_s))]
pub fn require_s(s: &[u8], at: usize) -> Answer
    ensures { said result ≡ read require_s s.now at }
{
    let e = skip_s(s, at);
    if e == at {
        return Err(Refusal::NoSpace.at(at));
    }
    Ok(e)
}
