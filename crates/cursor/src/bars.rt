// The '|' between the items of a list, and the items after them.
ghost use Rattle.std.specs.Prelude.{◌≡◌};
ghost use Rattle.spec.specs.Grammar.Languages.{ascii};
ghost use Rattle.spec.specs.Reading.Readers.{starts, while};
ghost use Rattle.spec.specs.Reading.Dtd.{after};
ghost use Rattle.error.specs.Read.{said, read};

use crate::reads::Reads;
use crate::space::skip_s;
use error::Answer;
use search::at_keyword;

// ('|' S? item S?)*, which [51] Mixed, [58] NotationType and [59] Enumeration have after their first item.
#[tactic(auto, using(crate::proofs::Barred::listing), unfolding(spec::specs::Reading::Dtd::after))]
pub fn past_bars<I: Reads>(s: &[u8], at: usize, item: &I) -> Answer
    ensures { said result ≡ read (while (starts (ascii "|")) (after "|" (I.reader item.now))) s.now at }
{
    let mut i = at;
    while at_keyword(s, i, b"|") {
        let from = skip_s(s, i + 1);
        let to = item.read(s, from)?;
        i = skip_s(s, to);
    }
    Ok(i)
}
