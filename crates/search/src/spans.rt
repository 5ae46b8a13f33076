// The end of a run of bytes of one class.
ghost use Rattle.std.specs.Prelude.{◌≡◌, Bool, ℕ, ◌+◌, drop};
ghost use Rattle.spec.specs.Reading.Readers.{run};

// A class of bytes, by a test of one. (Classes of characters, which names are made of, are crate `classes`.) A trait and no closure, so that
// nothing need be asked of who passes over a run of it.
pub trait Class {
    // The bytes that are of it: what a promise about a run of them names.
    ghost class: { Self → ℕ → Bool };

    // Whether b is one of them.
    fn has(&self, b: u8) -> bool
        ensures { result ≡ class self.now b };
}

// The place after the bytes of the class at `at`, byte by byte: most such runs are short. By `position` over the rest of the text a
// reader of white space takes up to a quarter more instructions.
pub fn past_run<C: Class>(s: &[u8], at: usize, of: &C) -> usize
    ensures { result ≡ at + run (C.class of.now) (drop at s.now) }
{
    for i in at..s.len() {
        if !of.has(s[i]) {
            return i;
        }
    }
    at.max(s.len())
}
