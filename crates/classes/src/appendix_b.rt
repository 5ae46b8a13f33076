// The name classes of Appendix B of XML 1.0's earlier editions. They have no code point from 2^16 on.
ghost use Rattle.std.specs.Prelude.{◌≡◌, ◌≤◌, ◌||◌};
ghost use Rattle.spec.specs.Grammar.AppendixB.{digits, combining, extenders, part_char};
ghost use Rattle.spec.specs.Grammar.Ranges.{in_table};
ghost use Rattle.classes.specs.Classes.{common_letter, letter};

use crate::ranges::in_ranges;
use crate::tables::{BASE, COMBINING, DIGIT, EXTENDER, IDEOGRAPHIC};

// The letters of the scripts met most (Han, Hangul, Greek, Cyrillic, the two kana): a quick yes before the tables. As a matches! of
// these ranges it takes 37 percent more instructions at Han.
fn is_common(c: u32) -> bool
    ensures { result ≡ common_letter c }
{
    (0x4E00 <= c) & (c <= 0x9FA5)
        | (0xAC00 <= c) & (c <= 0xD7A3)
        | (0x38E <= c) & (c <= 0x3A1)
        | (0x3A3 <= c) & (c <= 0x3CE)
        | (0x40E <= c) & (c <= 0x44F)
        | (0x3041 <= c) & (c <= 0x3094)
        | (0x30A1 <= c) & (c <= 0x30FA)
}

// What the tables have of the letters. It is a function of its own, so that the quick test alone is put into the loop over a name's
// characters: with the tables' searches in it, Han takes 37 percent more instructions.
#[inline(never)]
fn is_rare_letter(c: u32) -> bool
    ensures { result ≡ letter c }
{
    let Ok(d) = u16::try_from(c) else {
        return false;
    };
    in_ranges(&BASE, d) || in_ranges(&IDEOGRAPHIC, d)
}

// [84] Letter ::= BaseChar | Ideographic. This class and the three like it are a quick test and the rest: one function over both tests would
// be that line again, with a call more around it.
pub fn is_letter(c: u32) -> bool
    ensures { result ≡ letter c }
{
    is_common(c) || is_rare_letter(c)
}

// [88] Digit, [87] CombiningChar or [89] Extender
#[inline(never)]
fn is_mark(c: u32) -> bool
    ensures { result ≡ (in_table digits c || in_table combining c || in_table extenders c) }
{
    let Ok(d) = u16::try_from(c) else {
        return false;
    };
    in_ranges(&DIGIT, d) || in_ranges(&COMBINING, d) || in_ranges(&EXTENDER, d)
}

// [4] NameChar ::= Letter | Digit | '.' | '-' | '_' | ':' | CombiningChar | Extender, from 128 on
pub(crate) fn appendix_b_char(c: u32) -> bool
    requires { 128 ≤ c }
    ensures { result ≡ part_char c }
{
    is_letter(c) || is_mark(c)
}
