// Blocks without a byte of a class, which are passed at once: most of a comment, and of a long literal.
ghost use Rattle.std.specs.Prelude.{Bool, ℕ};
ghost use Rattle.search.specs.Runs.{Skipped, Block};

// Few enough bytes that a literal has some blocks without its quote mark, and enough for vector code.
pub const BLOCK: usize = 16;

// A class of bytes, by a quick test of a block.
pub trait Blocks {
    ghost class: { Self → ℕ → Bool };

    // Whether a block begins at `at` that has none of them.
    fn lacks(&self, s: &[u8], at: usize) -> bool
        ensures { Block (class self.now) s.now at 16 result };
}

// The place after all such blocks from `at` on.
#[tactic(auto, using(crate::proofs::Runs::blocks))]
pub fn past_blocks<C: Blocks>(s: &[u8], at: usize, of: &C) -> usize
    ensures { Skipped (C.class of.now) s.now at result }
{
    let mut i = at;
    while of.lacks(s, i) {
        i += BLOCK;
    }
    i
}
