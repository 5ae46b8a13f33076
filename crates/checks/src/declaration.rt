// The XML declaration: check_declaration of checks.rs and what it reads with. A place in the text stands for the rest that the Rust
// hands on.
ghost use Rattle.std.specs.Prelude.{◌≡◌};
ghost use Rattle.spec.specs.Grammar.XmlDecl.{XMLDecl};
ghost use Rattle.spec.specs.Promises.{Checks, Stops};
ghost use Rattle.spec.specs.Reading.Checks.{parse_eq_quoted, check_declaration};
ghost use Rattle.spec.specs.Reading.Readers.{number_of};
ghost use Rattle.spec.specs.Reading.Verdict.{read_version};
ghost use Rattle.error.specs.Read.{code, said, read, answer_number, answer_place};
ghost use Rattle.checks.specs.Pieces.{quoted_said, eq_quoted, pseudo_attr_of, after_version};

use crate::values::{EncName, Value, VersionNum, YesOrNo};
use cursor::{at_end, eat_str, parse_quoted, require_s, skip_s};
use error::{Answer, Fault, Refusal, Verdict};
use search::at_keyword;
use source::{Span, admit, admit_at};

// [25] Eq, and a literal in either quote, whose text is not looked at: where that text stands
#[tactic(auto, using(crate::proofs::Equating::equating))]
fn parse_eq_quoted(s: &[u8], at: usize) -> Result<Span, Fault>
    ensures { quoted_said result ≡ eq_quoted s.now at }
{
    let i = skip_s(s, at);
    let i = eat_str(s, i, b"=", Refusal::Unexpected)?;
    let open = skip_s(s, i);
    let rest = parse_quoted(s, open)?;
    Ok(Span {
        start: open + 1,
        end: rest - 1,
    })
}

// Eq and a value that passes the test, as [24], [80] and [32] end
#[tactic(auto, using(crate::proofs::Equating::testing))]
fn parse_value<V: Value>(s: &[u8], at: usize) -> Answer
    ensures { said result ≡ read (parse_eq_quoted V.test) s.now at }
{
    let Span { start, end } = parse_eq_quoted(s, at)?;
    if V::is_value(&s[start..end]) {
        return Ok(end + 1);
    }
    Err(Refusal::BadValue.at(start))
}

// [80] EncodingDecl? or [32] SDDecl?, by its name. Where the name is not next after white space, nothing is read; where it is, the
// white space must be there.
#[tactic(auto, using(crate::proofs::Declaring::optional))]
fn pseudo_attr<V: Value>(s: &[u8], at: usize, name: &[u8]) -> Answer
    ensures { said result ≡ read (pseudo_attr_of name.now V.test) s.now at }
{
    let i = skip_s(s, at);
    if at_keyword(s, i, name) {
        if i == at {
            return Err(Refusal::NoSpace.at(at));
        }
        return parse_value::<V>(s, i + name.len());
    }
    Ok(at)
}

// EncodingDecl? SDDecl? S? of [23], and then the end
#[tactic(auto, using(cursor::proofs::Reading::reading), unfolding(spec::specs::Reading::Checks::pseudo_attr, crate::specs::Pieces::pseudo_attr_of))]
fn parse_after_version(s: &[u8], at: usize) -> Answer
    ensures { said result ≡ read after_version s.now at }
{
    let i = pseudo_attr::<EncName>(s, at, b"encoding")?;
    let i = pseudo_attr::<YesOrNo>(s, i, b"standalone")?;
    let i = skip_s(s, i);
    at_end(s, i)
}

// [23] XMLDecl up to its version: the name of the instruction, white space (require_leading_s) and [24] VersionInfo
#[tactic(auto, using(cursor::proofs::Reading::reading), unfolding(spec::specs::Reading::Verdict::read_version))]
pub fn parse_version(s: &[u8], at: usize) -> Answer
    ensures { said result ≡ read read_version s.now at }
{
    let i = eat_str(s, at, b"xml", Refusal::Unexpected)?;
    let i = require_s(s, i)?;
    let i = eat_str(s, i, b"version", Refusal::Unexpected)?;
    parse_value::<VersionNum>(s, i)
}

// [23] XMLDecl, what stands between `<?` and `?>`. From a place on, so that whoever reads a whole document can hand on its front part up to
// the `?>`, and gets places of the document. (Two readers in a row, as parse_spaced_literal of cursor is: no twins.)
#[tactic(auto, using(crate::proofs::Chaining::versions))]
pub fn declaration_at(s: &[u8], at: usize) -> Answer
    ensures { said result ≡ read check_declaration s.now at }
{
    let i = parse_version(s, at)?;
    parse_after_version(s, i)
}

// The first refusal that the Rust meets, on any bytes. This and the next two are two calls each, as in every check (chars/src/calls.rt).
pub fn declaration_admitted(text: &[u8]) -> Verdict
    ensures { code result ≡ number_of (check_declaration text.now) }
{
    declaration_at(text, 0)?;
    Ok(())
}

// The public check: 1 and 2 come first.
pub fn check_declaration(text: &[u8]) -> Verdict
    ensures { Checks check_declaration XMLDecl text.now (code result) }
{
    admit(text)?;
    declaration_admitted(text)
}

// The same with the place where it is refused.
pub fn check_declaration_at(text: &[u8]) -> Answer
    ensures { Stops check_declaration text.now (answer_number result) (answer_place result) }
{
    admit_at(text)?;
    declaration_at(text, 0)
}
