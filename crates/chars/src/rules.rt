// The loop of each check: its rule again and again, and in between the bytes that the rule takes as they stand, most of them in blocks.
ghost use Rattle.std.specs.Prelude.{◌≡◌, ℕ};
ghost use Rattle.spec.specs.Reading.Readers.{Reader, throughout, number_of};
ghost use Rattle.error.specs.Read.{said, read, code};
ghost use Rattle.chars.specs.Bytes.{special};
ghost use Rattle.chars.specs.Rules.{Steady};

use crate::skip::{CALM, is_special, skip_blocks};
use error::{Answer, Verdict};

// What a check says of the bytes at a place.
pub trait Rule {
    // The byte that it looks at beside '&' and what is suspect: where "]]>" begins, or '<'.
    ghost MARK: { ℕ };

    const MARK: u8;

    ghost reader: { Reader };

    // What is read at a place, whether or not its byte is special.
    fn step(s: &[u8], at: usize) -> Answer
        ensures { said result ≡ read reader s.now at };

    // A step goes on, and takes a byte that is not special as it stands.
    ghost steady: { Steady reader (special MARK) };
}

// A rule from `at` on, to the text's end. Its step says where it goes on, so this is no `for`.
pub fn walk<R: Rule>(text: &[u8], at: usize) -> Answer
    ensures { said result ≡ read (throughout R.reader) text.now at }
{
    let mut i = at;
    let mut calm: usize = 0;
    while i < text.len() {
        if !is_special(R::MARK, text[i]) {
            i += 1;
            if calm < CALM {
                calm += 1;
                continue;
            }
            i = skip_blocks(text, i, R::MARK);
        } else {
            i = R::step(text, i)?;
        }
        calm = 0;
    }
    Ok(i)
}

// A rule's check on any bytes where no place is asked for, without the two refusals that come first.
pub fn admitted<R: Rule>(text: &[u8]) -> Verdict
    ensures { code result ≡ number_of (throughout R.reader text.now) }
{
    walk::<R>(text, 0)?;
    Ok(())
}
