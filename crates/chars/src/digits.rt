// Runs of digits, as character references have them (production 66).
ghost use Rattle.std.specs.Prelude.{◌≡◌, ℕ, true, drop};
ghost use Rattle.spec.specs.Grammar.References.{digit, hex_digit, digit_value};
ghost use Rattle.search.specs.FirstPlace.{only};
ghost use Rattle.chars.specs.Digits.{Counted, IsBase, decimal_is, hex_is};

use search::{Class, past_run};

// Where a value stops: the first number past all code points. No Char is here or further on, so a value that comes to it need not be known
// further.
const PAST_POINTS: u32 = 0x110000;

// What one pass over a run gives: how many digits there are, and the lesser of their value and PAST_POINTS.
#[derive(Clone, Copy)]
pub struct Digits {
    pub count: usize,
    pub value: u32,
}

// A base of at most 16; references are written in two of them. Its digits are a class of bytes.
pub trait Base: Class {
    // Its number.
    ghost BASE: { ℕ };

    const BASE: u32;

    // A zero is among them, and each is a digit of the base 16 too.
    ghost is_base: { (s : Self) → IsBase BASE (Self.class s) };
}

// [0-9]
pub struct Decimal;

impl Class for Decimal {
    ghost class = { λ _. digit };

    fn has(&self, b: u8) -> bool {
        b.is_ascii_digit()
    }
}

impl Base for Decimal {
    ghost BASE = { 10 };

    const BASE: u32 = 10;

    ghost is_base = { λ _. decimal_is };
}

// [0-9a-fA-F]
pub struct Hex;

impl Class for Hex {
    ghost class = { λ _. hex_digit };

    fn has(&self, b: u8) -> bool {
        b.is_ascii_hexdigit()
    }
}

impl Base for Hex {
    ghost BASE = { 16 };

    const BASE: u32 = 16;

    ghost is_base = { λ _. hex_is };
}

// 0, of which any number may lead a run.
struct Zero;

impl Class for Zero {
    ghost class = { λ _. only 0x30 };

    fn has(&self, b: u8) -> bool {
        b == b'0'
    }
}

// What a digit of either base stands for: its last four bits, and nine more for a letter. By arithmetic: with tests for the letters of either
// case, which the processor guesses, a gazetteer takes a sixth more time. (The library's `to_digit` asks once more whether it is a digit:
// when it was tried in the loop before this one, references took 1.65 times as long.)
fn digit_value(b: u8) -> u32
    ensures { hex_digit b ≡ true → result ≡ digit_value b }
{
    let b = u32::from(b);
    b % 16 + 9 * (b / 64)
}

// [0-9]+ or [0-9a-fA-F]+ of [66], or none: the zeros that lead, the digits up to where the value stops, and the rest of them, which count and no
// more. (Put into the loop of each check, with all that reads a reference: docs/DECISIONS.md.)
#[inline(always)]
#[tactic(auto, using(crate::proofs::DigitRuns::digit_runs))]
pub fn read_digits<B: Base>(s: &[u8], at: usize, base: &B) -> Digits
    ensures { Counted B.BASE (B.class base.now) (drop at s.now) result.count result.value }
{
    let first = past_run(s, at, &Zero);
    let mut value: u32 = 0;
    for i in first..s.len() {
        if !base.has(s[i]) {
            return Digits {
                count: i - at,
                value,
            };
        }
        value = value * B::BASE + digit_value(s[i]);
        if PAST_POINTS <= value {
            return Digits {
                count: past_run(s, i + 1, base) - at,
                value: PAST_POINTS,
            };
        }
    }
    Digits {
        count: s.len().saturating_sub(at),
        value,
    }
}
