// The first of two signs outside quotes: what dtd.rs's take_decl_body and checks.rs's quick scan look for.
ghost use Rattle.std.specs.Prelude.{◌≡◌, not, ◌+◌, drop};
ghost use Rattle.spec.specs.Reading.Places.{outside};
ghost use Rattle.search.specs.Runs.{away};
ghost use Rattle.search.specs.Places.{found, place_from, either, stop};

use crate::blocks::{Blocks, past_blocks};
use crate::bytes::{block_lacks, find_in_rest};
use crate::spans::{Class, past_run};

// A quote mark, or one of two signs.
#[derive(Clone, Copy)]
struct Marks {
    sign: u8,
    other: u8,
}

impl Marks {
    #[tactic(auto, using(crate::proofs::Stopping::marks))]
    fn has(self, b: u8) -> bool
        ensures { result ≡ stop self.sign self.other b }
    {
        (b == b'"') | (b == b'\'') | (b == self.sign) | (b == self.other)
    }

    // The place of the first of them from `at` on, or the text's end.
    fn first(self, s: &[u8], at: usize) -> usize
        ensures { result ≡ at + away (stop self.sign self.other) (drop at s.now) }
    {
        past_run(s, past_blocks(s, at, &self), &NoMark(self))
    }
}

impl Blocks for Marks {
    ghost class = { λ m. stop m.sign m.other };

    // Each of the four tests is vector code, and `&` lets them share their bytes. One fold over `has` takes a fifth more instructions.
    #[tactic(auto, using(crate::proofs::Stopping::marks))]
    fn lacks(&self, s: &[u8], at: usize) -> bool {
        block_lacks(s, at, b'"')
            & block_lacks(s, at, b'\'')
            & block_lacks(s, at, self.sign)
            & block_lacks(s, at, self.other)
    }
}

// What is no mark.
#[derive(Clone, Copy)]
struct NoMark(Marks);

impl Class for NoMark {
    ghost class = { λ u b. not (stop u.0.sign u.0.other b) };

    fn has(&self, b: u8) -> bool {
        !self.0.has(b)
    }
}

// The first of the two signs from `at` on, outside quotes: a quoted part goes to the next mark of its kind, and one without end
// leaves nothing to find.
#[tactic(auto, using(crate::proofs::Outside::outsides))]
pub fn outside_quotes(s: &[u8], at: usize, sign: u8, other: u8) -> Option<usize>
    ensures { found result ≡ place_from (outside (either sign other) 0) s.now at }
{
    let marks = Marks { sign, other };
    let mut i = at;
    while i < s.len() {
        let here = marks.first(s, i);
        if s.len() <= here {
            return None;
        }
        let b = s[here];
        if (b == sign) | (b == other) {
            return Some(here);
        }
        i = find_in_rest(s, here + 1, b)? + 1;
    }
    None
}
