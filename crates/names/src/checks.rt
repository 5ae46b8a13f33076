// Whether a whole text is a name.
// Text, place and names stay three parameters (classes/src/lib.rt says why).
ghost use Rattle.std.specs.Prelude.{◌≡◌, true};
ghost use Rattle.spec.specs.Grammar.Names.{Name};
ghost use Rattle.spec.specs.Promises.{Checks, Stops};
ghost use Rattle.spec.specs.Reading.Readers.{number_of};
ghost use Rattle.spec.specs.Reading.Wellformed.{check_name};
ghost use Rattle.error.specs.Read.{code, said, read, answer_number, answer_place};
ghost use Rattle.classes.specs.Classes.{dialect};
ghost use Rattle.names.specs.Names.{AnyName};

use crate::ends::name_end;
use classes::{Names, ascii_name_char, ascii_name_start};
use error::{Answer, Refusal, Verdict};
use source::{admit, admit_at};

// check_name from a place on: [5] Name, and then the text's end.
#[tactic(auto, using(crate::proofs::PlaceLaws::whole))]
pub fn whole_name(s: &[u8], at: usize, names: Names) -> Answer
    ensures { said result ≡ read (check_name (dialect names)) s.now at }
{
    let e = name_end(s, at, names);
    if e == at || e < s.len() {
        return Err(Refusal::BadName.at(e));
    }
    Ok(e)
}

// The pass that accepts most names, of ASCII alone: no test ends the fold, so that it becomes vector code.
fn is_ascii_name(text: &[u8]) -> bool
    ensures { result ≡ true → AnyName text.now }
{
    match text.split_first() {
        Some((&b, rest)) if ascii_name_start(b) => {
            rest.iter().fold(true, |all, &c| all & ascii_name_char(c))
        }
        _ => false,
    }
}

// check_name on all bytes, [5] Name: what remains when 1 and 2 are ruled out.
#[tactic(auto, using(crate::proofs::PlaceLaws::number_any))]
pub fn name_admitted(text: &[u8], names: Names) -> Verdict
    ensures { code result ≡ number_of (check_name (dialect names) text.now) }
{
    if is_ascii_name(text) {
        return Ok(());
    }
    whole_name(text, 0, names)?;
    Ok(())
}

// check_name of the Rust, which has Appendix B's names alone: the whole text is a Name. Put into its callers, a name of 4 bytes takes 173
// instructions in place of 188.
#[inline]
pub fn check_name(text: &[u8], names: Names) -> Verdict
    ensures { Checks (check_name (dialect names)) (Name (dialect names)) text.now (code result) }
{
    admit(text)?;
    name_admitted(text, names)
}

// With the place, and as short as every check (chars/src/calls.rt): where no name begins, or the first character that is none of a name.
pub fn check_name_at(text: &[u8], names: Names) -> Answer
    ensures { Stops (check_name (dialect names)) text.now (answer_number result) (answer_place result) }
{
    admit_at(text)?;
    whole_name(text, 0, names)
}
