// Fixed words in a text.
ghost use Rattle.std.specs.Prelude.{◌≡◌, drop};
ghost use Rattle.spec.specs.Reading.Readers.{starts};

// Whether the bytes of kw stand at `at`; past the end only the empty word stands. Byte by byte, since most words differ in the first: by
// `starts_with` a constant word takes twice the instructions, and by `zip` 37 percent more. One test of the length for them all: with one for
// each byte a text of references took a quarter more time.
#[tactic(auto, using(crate::proofs::Words::matching))]
pub fn at_keyword(s: &[u8], at: usize, kw: &[u8]) -> bool
    ensures { result ≡ starts kw.now (drop at s.now) }
{
    let Some(rest) = s.get(at..) else {
        return kw.is_empty();
    };
    if rest.len() < kw.len() {
        return false;
    }
    for j in 0..kw.len() {
        if rest[j] != kw[j] {
            return false;
        }
    }
    true
}
