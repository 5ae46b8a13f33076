// The public checks of characters and references: 1 and 2 first, then the check's own rule, alone or with its place. Each is two calls, and
// one function over the rule would have them too, with the language that the rule stands for as a parameter more.
ghost use Rattle.spec.specs.Grammar.Characters.{Chars};
ghost use Rattle.spec.specs.Grammar.References.{Referred};
ghost use Rattle.spec.specs.Reading.Wellformed.{check_chars, check_char_refs};
ghost use Rattle.spec.specs.Promises.{Checks, Stops};
ghost use Rattle.error.specs.Read.{code, answer_number, answer_place};

use crate::chars::{Legal, chars_admitted};
use crate::references::References;
use crate::rules::{admitted, walk};
use error::{Answer, Verdict};
use source::{admit, admit_at};

// Every character is a Char (production 2).
pub fn check_chars(text: &[u8]) -> Verdict
    ensures { Checks check_chars Chars text.now (code result) }
{
    admit(text)?;
    chars_admitted(text)
}

// The same with the place: the first character that is none.
pub fn check_chars_at(text: &[u8]) -> Answer
    ensures { Stops check_chars text.now (answer_number result) (answer_place result) }
{
    admit_at(text)?;
    walk::<Legal>(text, 0)
}

// Every "&#" begins a character reference (production 66) to a Char.
pub fn check_char_refs(text: &[u8]) -> Verdict
    ensures { Checks check_char_refs Referred text.now (code result) }
{
    admit(text)?;
    admitted::<References>(text)
}

// The same with the place: the '&' of the first bad reference.
pub fn check_char_refs_at(text: &[u8]) -> Answer
    ensures { Stops check_char_refs text.now (answer_number result) (answer_place result) }
{
    admit_at(text)?;
    walk::<References>(text, 0)
}
