// Passing over the bytes that a check takes as they stand, a block at a time: most of a text.
ghost use Rattle.std.specs.Prelude.{◌≡◌};
ghost use Rattle.chars.specs.Bytes.{special};
ghost use Rattle.search.specs.Runs.{Skipped};

use crate::chars::is_suspect;

// Few enough bytes that a block seldom has a special one, and enough for vector code.
const BLOCK: usize = 32;
// So many bytes in a row were taken as they stand that a block is worth trying.
pub const CALM: usize = 16;

// TEXT_SPECIAL and ATTR_SPECIAL by compares: '&' begins a reference, and the mark is the check's own.
#[tactic(auto, using(crate::proofs::Bytes::bytes))]
pub fn is_special(mark: u8, b: u8) -> bool
    ensures { result ≡ special mark b }
{
    is_suspect(b) | (b == b'&') | (b == mark)
}

// The place after a block without a special byte, or `at`. No test ends the loop, so that it becomes vector code.
#[tactic(auto, using(search::proofs::Runs::passing))]
fn past_block(s: &[u8], at: usize, mark: u8) -> usize
    ensures { Skipped (special mark) s.now at result }
{
    if s.len() < BLOCK {
        return at;
    }
    if s.len() - BLOCK < at {
        return at;
    }
    let end = at + BLOCK;
    let mut found = false;
    for i in at..end {
        found = found | is_special(mark, s[i]);
    }
    if found {
        return at;
    }
    end
}

// The place after all such blocks from `at` on. (A test of each block that answers yes or no, as in crate `search`, makes texts with many
// references slower by 5 to 6 percent; and an instance of its trait `Blocks` is longer than this loop.)
pub fn skip_blocks(s: &[u8], at: usize, mark: u8) -> usize
    ensures { Skipped (special mark) s.now at result }
{
    let mut i = at;
    while i < s.len() {
        let end = past_block(s, i, mark);
        if end <= i {
            return i;
        }
        i = end;
    }
    i
}
