// Quoted literals and external identifiers: parse_quoted, check_pubid, parse_external_id and what parse_entity_value and
// parse_att_value do with the text between the quotes, of dtd.rs.
ghost use Rattle.std.specs.Prelude.{◌≡◌};
ghost use Rattle.spec.specs.Grammar.Literals.{pubid_char};
ghost use Rattle.spec.specs.Reading.Readers.{nothing};
ghost use Rattle.spec.specs.Reading.Wellformed.{check_char_refs};
ghost use Rattle.spec.specs.Reading.Dtd.{parse_quoted, check_pubid, parse_external_id, check_att_value};
ghost use Rattle.error.specs.Read.{said, read};
ghost use Rattle.cursor.specs.Spaced.{spaced_literal, id_then};

use crate::reads::Reads;
use crate::space::require_s;
use crate::words::eat_str;
use chars::walk_char_refs;
use error::{Answer, Refusal};
use search::{Class, find_byte, past_run};

// A literal in either quote, [11] SystemLiteral; its text is not looked at. One without its end is refused behind its opening quote.
#[tactic(auto, using(crate::proofs::Quotes::quotes))]
pub fn parse_quoted(s: &[u8], at: usize) -> Answer
    ensures { said result ≡ read (parse_quoted nothing) s.now at }
{
    if s.len() <= at {
        return Err(Refusal::NoLiteral.at(at));
    }
    let q = s[at];
    if (q == b'"') | (q == b'\'') {
        let from = at + 1;
        let e = find_byte(s, from, q).ok_or(Refusal::Unterminated.at(from))?;
        return Ok(e + 1);
    }
    Err(Refusal::NoLiteral.at(at))
}

// Production 13, PubidChar.
struct PubidChar;

impl Class for PubidChar {
    ghost class = { λ _. pubid_char };

    #[tactic(auto, unfolding(spec::specs::Grammar::Literals::pubid_char))]
    fn has(&self, b: u8) -> bool {
        matches!(
            b,
            b' ' | b'\r' | b'\n' | b'a'..=b'z' | b'A'..=b'Z' | b'0'..=b'9'
                | b'-' | b'\'' | b'(' | b')' | b'+' | b',' | b'.' | b'/' | b':' | b'=' | b'?'
                | b';' | b'!' | b'*' | b'#' | b'@' | b'$' | b'_' | b'%'
        )
    }
}

// check_pubid: each byte from `at` on is a PubidChar. The text of a literal has no quote mark of its own.
#[tactic(auto, using(crate::proofs::Checking::checking))]
fn check_pubid(t: &[u8], at: usize) -> Answer
    ensures { said result ≡ read check_pubid t.now at }
{
    let i = past_run(t, at, &PubidChar);
    if i < t.len() {
        return Err(Refusal::BadPubid.at(i));
    }
    Ok(at)
}

// The text of [12] PubidLiteral.
pub struct PubidText;

impl Reads for PubidText {
    ghost reader = { λ _. check_pubid };

    fn read(&self, t: &[u8], at: usize) -> Answer {
        check_pubid(t, at)
    }
}

// The text of [9] EntityValue, whose character references are checked.
pub struct EntityText;

impl Reads for EntityText {
    ghost reader = { λ _. check_char_refs };

    fn read(&self, t: &[u8], at: usize) -> Answer {
        walk_char_refs(t, at)
    }
}

// The text of [10] AttValue.
pub struct AttText;

impl Reads for AttText {
    ghost reader = { λ _. check_att_value };

    // What parse_att_value does with a default: '<' first, then the references.
    #[tactic(auto, using(crate::proofs::Checking::checking))]
    fn read(&self, t: &[u8], at: usize) -> Answer {
        match find_byte(t, at, b'<') {
            Some(j) => Err(Refusal::LessThan.at(j)),
            None => walk_char_refs(t, at),
        }
    }
}

// A literal in either quote, and then a check of its text.
#[tactic(auto, using(crate::proofs::Quotes::texts))]
pub fn parse_checked<C: Reads>(s: &[u8], at: usize, check: &C) -> Answer
    ensures { said result ≡ read (parse_quoted (C.reader check.now)) s.now at }
{
    let end = parse_quoted(s, at)?;
    check.read(&s[0..end - 1], at + 1)?;
    Ok(end)
}

// S SystemLiteral, as it stands after SYSTEM and after a public identifier.
#[tactic(auto, using(crate::proofs::Reading::reading))]
pub fn parse_spaced_literal(s: &[u8], at: usize) -> Answer
    ensures { said result ≡ read spaced_literal s.now at }
{
    let i = require_s(s, at)?;
    parse_quoted(s, i)
}

// It as a reader, for what follows a public identifier.
struct SpacedLiteral;

impl Reads for SpacedLiteral {
    ghost reader = { λ _. spaced_literal };

    fn read(&self, s: &[u8], at: usize) -> Answer {
        parse_spaced_literal(s, at)
    }
}

// [75] ExternalID or [83] PublicID, which differ in what follows the public identifier: that is the caller's.
#[tactic(auto, using(crate::proofs::Reading::reading), unfolding(spec::specs::Reading::Readers::on))]
pub fn parse_id<A: Reads>(s: &[u8], at: usize, after: &A) -> Answer
    ensures { said result ≡ read (id_then (A.reader after.now)) s.now at }
{
    if let Ok(i) = eat_str(s, at, b"SYSTEM", Refusal::Unexpected) {
        return parse_spaced_literal(s, i);
    }
    let i = eat_str(s, at, b"PUBLIC", Refusal::Unexpected)?;
    let j = require_s(s, i)?;
    let e = parse_checked(s, j, &PubidText)?;
    after.read(s, e)
}

// [75] ExternalID.
#[tactic(auto, unfolding(spec::specs::Reading::Dtd::parse_external_id))]
pub fn parse_external_id(s: &[u8], at: usize) -> Answer
    ensures { said result ≡ read parse_external_id s.now at }
{
    parse_id(s, at, &SpacedLiteral)
}
