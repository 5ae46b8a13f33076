// The name classes of XML 1.0's fifth edition.
ghost use Rattle.std.specs.Prelude.{◌≡◌, ◌||◌};
ghost use Rattle.spec.specs.Grammar.FifthEdition.{added_chars, name_start_char, name_char};
ghost use Rattle.spec.specs.Grammar.Ranges.{in_table};
ghost use Rattle.classes.specs.Classes.{wide_ranges, low_starts};

use crate::ranges::in_ranges;
use crate::tables::{ADDED, NAME_START};

// The two widest ranges of NameStartChar and the one from 2^16 on, which no table of 16 bits has: a quick yes for most scripts. The
// compiler tests the last of these first, so the range of Greek and its neighbours stands there. As a matches! of these ranges it takes
// 10 percent more instructions at Greek, 25 at Han.
fn in_wide_range(c: u32) -> bool
    ensures { result ≡ wide_ranges c }
{
    (0x10000 <= c) & (c <= 0xEFFFF) | (0x3001 <= c) & (c <= 0xD7FF) | (0x37F <= c) & (c <= 0x1FFF)
}

// What the tables have of either class. These two are functions of their own, so that the quick test alone is put into the loop over a
// name's characters; each is its tables, so one function over tables would only be their list again.
#[inline(never)]
fn is_rare_start(c: u32) -> bool
    ensures { result ≡ in_table low_starts c }
{
    let Ok(d) = u16::try_from(c) else {
        return false;
    };
    in_ranges(&NAME_START, d)
}

#[inline(never)]
fn is_rare_char(c: u32) -> bool
    ensures { result ≡ (in_table low_starts c || in_table added_chars c) }
{
    let Ok(d) = u16::try_from(c) else {
        return false;
    };
    in_ranges(&NAME_START, d) || in_ranges(&ADDED, d)
}

// [4] NameStartChar
pub fn fifth_start(c: u32) -> bool
    ensures { result ≡ name_start_char c }
{
    in_wide_range(c) || is_rare_start(c)
}

// [4a] NameChar
pub fn fifth_char(c: u32) -> bool
    ensures { result ≡ name_char c }
{
    in_wide_range(c) || is_rare_char(c)
}
