// The first place of a fixed word, and whether a byte has one: what the Rust's `find` and `contains` do.
ghost use Rattle.std.specs.Prelude.{◌≡◌, [], ◌∷◌};
ghost use Rattle.spec.specs.Reading.Readers.{contains};
ghost use Rattle.search.specs.FirstPlace.{first_place};
ghost use Rattle.search.specs.Places.{found};

use crate::bytes::find_byte;
use crate::keywords::at_keyword;

// The first place of kw from `at` on: the word is compared only where its first byte stands. (The empty word stands everywhere, so
// one that does not stand here has a first byte.)
#[tactic(auto, using(crate::proofs::Finding::finding))]
pub fn find(s: &[u8], at: usize, kw: &[u8]) -> Option<usize>
    ensures { found result ≡ first_place kw.now s.now at }
{
    let mut i = at;
    while i < s.len() {
        if at_keyword(s, i, kw) {
            return Some(i);
        }
        i = find_byte(s, i + 1, kw[0])?;
    }
    None
}

// Whether b stands anywhere in the text.
pub fn has_byte(t: &[u8], b: u8) -> bool
    ensures { result ≡ contains (b ∷ []) t.now }
{
    find_byte(t, 0, b).is_some()
}
