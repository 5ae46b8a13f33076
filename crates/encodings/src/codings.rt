// The name of an encoding, [81] EncName, and what it means for us (section 4.3.3): processors take its letters in either case.
ghost use Rattle.std.specs.Prelude.{◌≡◌, ◌||◌, ◌++◌, false, MatchOption};
ghost use Rattle.spec.specs.Grammar.Encodings.{small, goes_on, no_more, iso_part, windows_part, coding_of};
ghost use Rattle.spec.specs.Grammar.Languages.{ascii};
ghost use Rattle.spec.specs.Reading.Readers.{starts};
ghost use Rattle.encodings.specs.Codings.{of};

// UTF-8 or a part of it; one that has ASCII's bytes for ASCII's characters, and others for others; any other.
#[derive(Clone, Copy, Debug, PartialEq, Eq)]
pub enum Coding {
    Utf8,
    Bytes,
    Foreign,
}

// What stands after a word that a name begins with, in either case of letters.
#[tactic(auto, using(crate::proofs::Naming::fronts))]
fn rest_of<'a>(name: &'a [u8], word: &[u8]) -> Option<&'a [u8]>
    ensures { MatchOption result (starts (small word.now) (small name.now) ≡ false) (λ rest. small name.now ≡ small word.now ++ small rest.now) }
{
    let (front, rest) = name.split_at_checked(word.len())?;
    if front.eq_ignore_ascii_case(word) {
        Some(rest)
    } else {
        None
    }
}

// The n of ISO-8859-n, 1 to 16
#[tactic(auto, using(crate::proofs::Naming::parts))]
fn is_iso_part(n: &[u8]) -> bool
    ensures { result ≡ iso_part (small n.now) }
{
    match n {
        [d] => matches!(*d, b'1'..=b'9'),
        [d, e] => *d == b'1' && matches!(*e, b'0'..=b'6'),
        _ => false,
    }
}

// The last digit of windows-1250 to windows-1258
#[tactic(auto, using(crate::proofs::Naming::parts))]
fn is_windows_part(n: &[u8]) -> bool
    ensures { result ≡ windows_part (small n.now) }
{
    matches!(n, [b'0'..=b'8'])
}

// UTF-8, or US-ASCII, which is a part of it
fn is_utf8_name(name: &[u8]) -> bool
    ensures { result ≡ (goes_on (ascii "utf-8") no_more (small name.now) || goes_on (ascii "us-ascii") no_more (small name.now)) }
{
    name.eq_ignore_ascii_case(b"utf-8") || name.eq_ignore_ascii_case(b"us-ascii")
}

// ISO-8859-1 to ISO-8859-16, or windows-1250 to windows-1258
fn is_bytes_name(name: &[u8]) -> bool
    ensures { result ≡ (goes_on (ascii "iso-8859-") iso_part (small name.now) || goes_on (ascii "windows-125") windows_part (small name.now)) }
{
    rest_of(name, b"iso-8859-").is_some_and(is_iso_part)
        || rest_of(name, b"windows-125").is_some_and(is_windows_part)
}

// What a name stands for.
#[tactic(auto, using(crate::proofs::Naming::naming))]
pub fn coding_of(name: &[u8]) -> Coding
    ensures { of result ≡ coding_of name.now }
{
    if is_utf8_name(name) {
        return Coding::Utf8;
    }
    if is_bytes_name(name) {
        return Coding::Bytes;
    }
    Coding::Foreign
}
