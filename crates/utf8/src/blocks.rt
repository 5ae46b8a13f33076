// Passing over the ASCII of a text, a block at a time: most of a text, and UTF-8 as it stands.
ghost use Rattle.std.specs.Prelude.{◌<◌, ◌≤◌, length, IfSome};
ghost use Rattle.utf8.specs.Passed.{Passed, Near};

use crate::{byte_at, high, is_tail};

// Few enough bytes that one accent spoils little, and enough for vector code.
const BLOCK: usize = 64;

// The place after the block of ASCII at a place, if one stands there.
#[tactic(auto, using(crate::proofs::Parts::passed_block))]
fn past_block(s: &[u8], at: usize) -> Option<usize>
    ensures onward { IfSome result (λ end. at < end) }
    ensures inside { IfSome result (λ end. end ≤ length s.now) }
    ensures passed { IfSome result (λ end. Passed s.now at end) }
{
    // two tests and a part: `s.get(at..)?.get(..BLOCK)?` takes 38 percent more instructions
    let last = s.len().checked_sub(BLOCK)?;
    if last < at {
        return None;
    }
    if high(&s[at..at + BLOCK]) {
        return None;
    }
    Some(at + BLOCK)
}

// The place after all such blocks from `at` on. (Crate `search`, which this one could stand on, has such a loop too, but the blocks of its
// trait `Blocks` have 16 bytes: by those ASCII takes 1.5 times as long. And an instance of that trait would be longer than this loop of
// three lines.)
#[tactic(auto, using(crate::proofs::Parts::skipping))]
pub fn skip_blocks(s: &[u8], at: usize) -> usize
    ensures { Passed s.now at result }
{
    let mut i = at;
    while let Some(end) = past_block(s, i) {
        i = end;
    }
    i
}

// Where the character that `at` lies in begins, if the text is UTF-8: at most three bytes before. Only speed rests on that it does.
pub fn cut(s: &[u8], at: usize) -> usize
    ensures { Near at result }
{
    if at < 3 {
        return at;
    }
    if !is_tail(byte_at(s, at)) {
        return at;
    }
    if !is_tail(byte_at(s, at - 1)) {
        return at - 1;
    }
    if !is_tail(byte_at(s, at - 2)) {
        return at - 2;
    }
    at - 3
}
