// The classes of name characters, [4] NameStartChar and [4a] NameChar: of Appendix B of W3C XML 1.0's earlier editions, and of the fifth
// edition's section 2.3.
#![tactic(auto)]

mod appendix_b;
mod fifth_edition;
mod ranges;
mod tables;

ghost use Rattle.std.specs.Prelude.{◌≡◌};
ghost use Rattle.classes.specs.Classes.{dialect, ascii_start, ascii_part};

use appendix_b::{appendix_b_char, is_letter};
use fifth_edition::{fifth_char, fifth_start};

// Which name classes a reader uses. Every reader hands it on, so that another edition's classes are one more variant here and one
// more arm in is_name_start_char and is_name_char. No trait, since a caller in C chooses the edition while the program runs. No struct of
// it and the text: of the calls that such readers make on their text three in five take no names, and would have to take the text out.
#[derive(Clone, Copy, Debug, PartialEq, Eq)]
pub enum Names {
    AppendixB,
    FifthEdition,
}

// NameStartChar below 128, whatever the edition. This and the next as a matches! take 1.3 to 2.4 times the instructions over a name.
pub fn ascii_name_start(b: u8) -> bool
    ensures { result ≡ ascii_start b }
{
    (b == b':') | (b == b'_') | (b'A' <= b) & (b <= b'Z') | (b'a' <= b) & (b <= b'z')
}

// NameChar below 128, whatever the edition. The compiler tests the last of these first, so the letters stand there.
pub fn ascii_name_char(b: u8) -> bool
    ensures { result ≡ ascii_part b }
{
    (b'-' <= b) & (b <= b'.')
        | (b'0' <= b) & (b <= b'9')
        | (b == b':')
        | (b == b'_')
        | (b'A' <= b) & (b <= b'Z')
        | (b'a' <= b) & (b <= b'z')
}

// [4] NameStartChar
pub fn is_name_start_char(names: Names, c: u32) -> bool
    ensures { result ≡ (dialect names).start c }
{
    if c < 128 {
        return ascii_name_start(c as u8);
    }
    match names {
        Names::AppendixB => is_letter(c),
        Names::FifthEdition => fifth_start(c),
    }
}

// [4a] NameChar. The two productions stay two functions, as the grammar has them: they share the one test for ASCII.
pub fn is_name_char(names: Names, c: u32) -> bool
    ensures { result ≡ (dialect names).part c }
{
    if c < 128 {
        return ascii_name_char(c as u8);
    }
    match names {
        Names::AppendixB => appendix_b_char(c),
        Names::FifthEdition => fifth_char(c),
    }
}
