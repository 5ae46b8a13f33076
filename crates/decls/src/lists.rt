// Lists with '|' between the items: parse_name_group and parse_enumeration of dtd.rs, which differ only in the item.
ghost use Rattle.std.specs.Prelude.{◌≡◌};
ghost use Rattle.spec.specs.Reading.Dtd.{bar_list};
ghost use Rattle.error.specs.Read.{said, read};
ghost use Rattle.decls.specs.Items.{other_items};

use cursor::{Reads, eat_str, past_bars, skip_s};
use error::{Answer, Refusal};

// The items after the first, as many as bars stand there, and the ')' after them. (A reader and a word, as read_doctype_text of document is:
// no twins.)
#[tactic(auto, using(cursor::proofs::Reading::reading))]
fn parse_others<I: Reads>(s: &[u8], at: usize, item: &I) -> Answer
    ensures { said result ≡ read (other_items (I.reader item.now)) s.now at }
{
    let i = past_bars(s, at, item)?;
    eat_str(s, i, b")", Refusal::Unexpected)
}

// [58] NotationType from its '(' on, and [59] Enumeration: '(' S? item (S? '|' S? item)* S? ')'
#[tactic(auto, using(cursor::proofs::Reading::reading), unfolding(spec::specs::Reading::Dtd::bar_list))]
pub fn parse_list<I: Reads>(s: &[u8], at: usize, item: &I) -> Answer
    ensures { said result ≡ read (bar_list (I.reader item.now)) s.now at }
{
    let opened = eat_str(s, at, b"(", Refusal::Unexpected)?;
    let from = skip_s(s, opened);
    let to = item.read(s, from)?;
    let next = skip_s(s, to);
    parse_others(s, next, item)
}
