// Where the internal subset opens and where it ends.
ghost use Rattle.std.specs.Prelude.{◌≡◌};
ghost use Rattle.spec.specs.Reading.Scan.{subset_open, subset_end};
ghost use Rattle.search.specs.Places.{found, place_from};

use search::{at_keyword, find, outside_quotes};

// The first '[' outside quotes: one in a system identifier opens nothing.
pub fn subset_open(s: &[u8]) -> Option<usize>
    ensures { found result ≡ place_from subset_open s.now 0 }
{
    outside_quotes(s, 0, b'[', b'[')
}

// The first ']' from `at` on, outside quotes and comments. The pass goes from one ']' or '<' outside quotes to the next. A comment is
// passed by one search for its end, and one without end stops the pass, so the time is linear in the bytes.
#[tactic(auto, using(crate::proofs::Passes::ending))]
pub fn internal_subset_end(s: &[u8], at: usize) -> Option<usize>
    ensures { found result ≡ place_from (subset_end 0 0) s.now at }
{
    let mut i = at;
    while i < s.len() {
        let here = outside_quotes(s, i, b']', b'<')?;
        if s[here] == b']' {
            return Some(here);
        }
        if at_keyword(s, here, b"<!--") {
            i = find(s, here + 4, b"-->")? + 3;
            continue;
        }
        i = here + 1;
    }
    None
}
