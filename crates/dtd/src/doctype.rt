// The whole DOCTYPE: check_doctype of dtd.rs.
// Text, place and names stay three parameters (classes/src/lib.rt says why).
ghost use Rattle.std.specs.Prelude.{◌≡◌};
ghost use Rattle.spec.specs.Reading.Refusals.{too_deep};
ghost use Rattle.spec.specs.Reading.Dtd.{doctype_before, check_doctype};
ghost use Rattle.spec.specs.Reading.Readers.{nothing, number_of};
ghost use Rattle.spec.specs.Promises.{ChecksDoctype, Stops};
ghost use Rattle.error.specs.Read.{answer_number, answer_place, code, said, read};
ghost use Rattle.classes.specs.Classes.{dialect};
ghost use Rattle.dtd.specs.Parts.{id_part, subset_part};

use classes::Names;
use cursor::{at_end, eat_str, need_name, parse_external_id, skip_s};
use error::{Answer, Refusal, Verdict};
use search::at_keyword;
use source::{admit, admit_at};
use subset::parse_internal_subset;

// (S ExternalID)? of [28], the white space before it passed, and the white space after it
#[tactic(auto, using(crate::proofs::Whole::parts_read))]
fn parse_id_part(s: &[u8], at: usize) -> Answer
    ensures { said result ≡ read id_part s.now at }
{
    if at_keyword(s, at, b"SYSTEM") | at_keyword(s, at, b"PUBLIC") {
        let i = parse_external_id(s, at)?;
        return Ok(skip_s(s, i));
    }
    Ok(at)
}

// ('[' intSubset ']' S?)? of [28]
#[tactic(auto, using(crate::proofs::Whole::parts_read), unfolding(spec::specs::Reading::Readers::on, crate::specs::Parts::subset_part))]
fn parse_subset_part(s: &[u8], at: usize, names: Names) -> Answer
    ensures { said result ≡ read (subset_part (dialect names)) s.now at }
{
    let Ok(i) = eat_str(s, at, b"[", Refusal::Unexpected) else {
        return Ok(at);
    };
    let i = parse_internal_subset(s, i, names)?;
    Ok(skip_s(s, i))
}

// [28] doctypedecl after its `<!DOCTYPE`, up to what ends it: the text's end here, the `>` in a document
#[tactic(auto, using(crate::proofs::Whole::parts_read), unfolding(spec::specs::Reading::Dtd::doctype_before, crate::specs::Parts::id_part, crate::specs::Parts::subset_part))]
pub fn parse_before_end(s: &[u8], at: usize, names: Names) -> Answer
    ensures { said result ≡ read (doctype_before (dialect names) too_deep nothing) s.now at }
{
    let i = skip_s(s, at);
    let i = need_name(s, i, names)?;
    let i = skip_s(s, i);
    let i = parse_id_part(s, i)?;
    parse_subset_part(s, i, names)
}

// [28] doctypedecl, what stands between `<!DOCTYPE` and its `>`
#[tactic(auto, using(crate::proofs::Whole::ending), unfolding(spec::specs::Reading::Dtd::check_doctype))]
fn parse_doctype(s: &[u8], names: Names) -> Answer
    ensures { said result ≡ read (check_doctype (dialect names)) s.now 0 }
{
    let i = parse_before_end(s, 0, names)?;
    at_end(s, i)
}

// check_doctype on all bytes: what is left of it where 1 and 2 are ruled out. This and the next two are two calls each, as in every check
// (chars/src/calls.rt).
pub fn doctype_admitted(text: &[u8], names: Names) -> Verdict
    ensures { code result ≡ number_of (check_doctype (dialect names) text.now) }
{
    parse_doctype(text, names)?;
    Ok(())
}

// check_doctype of the Rust, by these names (the Rust's are Appendix B's): 1 and 2 come first.
pub fn check_doctype(text: &[u8], names: Names) -> Verdict
    ensures { ChecksDoctype (dialect names) text.now (code result) }
{
    admit(text)?;
    doctype_admitted(text, names)
}

// With the place where it is refused.
pub fn check_doctype_at(text: &[u8], names: Names) -> Answer
    ensures { Stops (check_doctype (dialect names)) text.now (answer_number result) (answer_place result) }
{
    admit_at(text)?;
    parse_doctype(text, names)
}
