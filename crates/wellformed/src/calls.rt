// The public checks of text and attribute values: 1 and 2 first, then the check's own rule, alone or with its place. Each is two calls, as in
// chars/src/calls.rt.
ghost use Rattle.spec.specs.Grammar.References.{CharData, AttText};
ghost use Rattle.spec.specs.Reading.Wellformed.{check_text, check_attr_value};
ghost use Rattle.spec.specs.Promises.{Checks, Stops};
ghost use Rattle.error.specs.Read.{code, answer_number, answer_place};

use crate::text::{AttrValue, Text};
use chars::{admitted, walk};
use error::{Answer, Verdict};
use source::{admit, admit_at};

// Character data (production 14): both of these, and no "]]>".
pub fn check_text(text: &[u8]) -> Verdict
    ensures { Checks check_text CharData text.now (code result) }
{
    admit(text)?;
    admitted::<Text>(text)
}

// The same with the place where it is refused.
pub fn check_text_at(text: &[u8]) -> Answer
    ensures { Stops check_text text.now (answer_number result) (answer_place result) }
{
    admit_at(text)?;
    walk::<Text>(text, 0)
}

// An attribute's value between its quotes (production 10): Chars, references, and no '<'.
pub fn check_attr_value(text: &[u8]) -> Verdict
    ensures { Checks check_attr_value AttText text.now (code result) }
{
    admit(text)?;
    admitted::<AttrValue>(text)
}

// The same with the place where it is refused.
pub fn check_attr_value_at(text: &[u8]) -> Answer
    ensures { Stops check_attr_value text.now (answer_number result) (answer_place result) }
{
    admit_at(text)?;
    walk::<AttrValue>(text, 0)
}
