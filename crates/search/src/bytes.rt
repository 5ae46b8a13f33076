// The first place of a byte.
ghost use Rattle.std.specs.Prelude.{◌≡◌, [], ◌∷◌};
ghost use Rattle.search.specs.Runs.{Block};
ghost use Rattle.search.specs.FirstPlace.{first_place, only};
ghost use Rattle.search.specs.Places.{found};

use crate::blocks::{BLOCK, Blocks, past_blocks};

// Whether a block begins at `at` that lacks b. No early exit, so that it becomes vector code.
#[tactic(auto, using(crate::proofs::Runs::block_none))]
pub fn block_lacks(s: &[u8], at: usize, b: u8) -> bool
    ensures { Block (only b) s.now at 16 result }
{
    if s.len() < BLOCK {
        return false;
    }
    if s.len() - BLOCK < at {
        return false;
    }
    !s[at..at + BLOCK]
        .iter()
        .fold(false, |found, &x| found | (x == b))
}

// One byte that is looked for.
#[derive(Clone, Copy)]
struct Byte(u8);

impl Blocks for Byte {
    ghost class = { λ s. only s.0 };

    fn lacks(&self, s: &[u8], at: usize) -> bool {
        block_lacks(s, at, self.0)
    }
}

// The first place of b from `at` on: in the first block that has it, or in what is left after the last block. By past_run and a look
// whether it came to the end, `find` takes 5 percent more instructions.
#[tactic(auto, using(crate::proofs::Finding::finding))]
pub fn find_byte(s: &[u8], at: usize, b: u8) -> Option<usize>
    ensures { found result ≡ first_place (b ∷ []) s.now at }
{
    for i in past_blocks(s, at, &Byte(b))..s.len() {
        if s[i] == b {
            return Some(i);
        }
    }
    None
}

// The same, with the rest handed over as a part: whoever hands on its own text first copies its place and length, which the processor
// waits for.
#[tactic(auto, using(crate::proofs::Finding::rests))]
pub fn find_in_rest(s: &[u8], at: usize, b: u8) -> Option<usize>
    ensures { found result ≡ first_place (b ∷ []) s.now at }
{
    let j = find_byte(s.get(at..)?, 0, b)?;
    Some(at + j)
}
