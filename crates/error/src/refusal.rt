// Why a text is refused: NotWellFormed of error.rs, and the additions of docs/SCOPE.md, which has the table of numbers.
ghost use Rattle.std.specs.Prelude.{◌≡◌};
ghost use Rattle.spec.specs.Reading.Refusals.{number};
ghost use Rattle.error.specs.Read.{reason, refused, said};

use crate::Fault;

#[derive(Clone, Copy, Debug, PartialEq, Eq)]
pub enum Refusal {
    // longer than 1,048,576 bytes
    TooLong = 1,
    NotUtf8,
    NoSpace,
    // a bad or missing name, token or target
    BadName,
    HasColon,
    NoLiteral,
    // a literal, body, comment, instruction or subset without its end
    Unterminated,
    // another sign or word expected, an unexpected character, a conditional section
    Unexpected,
    // trailing or unexpected content at the end
    Trailing,
    // a character that no public identifier may have
    BadPubid,
    // the target xml, in any case
    ReservedTarget,
    // "--" in a comment
    DoubleHyphen,
    // mixed connectors, or a mixed model with names not ended by ")*"
    BadConnector,
    // '<' in an attribute value or default
    LessThan,
    // a malformed character reference
    BadReference,
    // a reference to an illegal character
    IllegalReference,
    // a version, encoding or standalone value
    BadValue,
    IllegalChar,
    // "]]>" in text
    SectionEnd,
    // a 65th open group
    TooDeep,
    // gate: declaration not first, second DOCTYPE, wrong phase
    OutOfOrder,
}

impl Refusal {
    // Its number in the table.
    pub fn number(self) -> u8
        ensures { result ≡ number (reason self) }
    {
        self as u8
    }

    // Met at a place.
    #[tactic(auto, unfolding(crate::specs::Read::said))]
    pub fn at(self, place: usize) -> Fault
        ensures { said (Err result) ≡ refused (reason self) place }
    {
        Fault {
            refusal: self,
            place,
        }
    }
}
