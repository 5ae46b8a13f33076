// A declaration's body, as text: where it ends, and whether it holds a parameter-entity reference.
// Text, place and names stay three parameters (classes/src/lib.rt says why).
ghost use Rattle.std.specs.Prelude.{◌≡◌, drop};
ghost use Rattle.spec.specs.Reading.Readers.{begins};
ghost use Rattle.spec.specs.Reading.Dtd.{take_decl_body, has_pe_reference};
ghost use Rattle.error.specs.Read.{said, read};
ghost use Rattle.classes.specs.Classes.{dialect};

use classes::{Names, is_name_start_char};
use error::{Answer, Refusal};
use search::{find_byte, outside_quotes};
use utf8::code_point;

// take_decl_body: the place of the first '>' outside quotes.
#[tactic(auto, using(crate::proofs::DeclBody::bodies_read))]
pub fn take_decl_body(s: &[u8], at: usize) -> Answer
    ensures { said result ≡ read take_decl_body s.now at }
{
    outside_quotes(s, at, b'>', b'>').ok_or(Refusal::Unterminated.at(at))
}

// Whether a NameStartChar stands at `at`.
#[tactic(auto, using(crate::proofs::DeclBody::percents))]
fn begins_name(s: &[u8], at: usize, names: Names) -> bool
    ensures { result ≡ begins (dialect names).start (drop at s.now) }
{
    match code_point(s, at) {
        Some(p) => is_name_start_char(names, p.code),
        None => false,
    }
}

// has_pe_reference: a '%' that a NameStartChar follows, also in quotes, and whether or not a ';' follows. Most bodies have no '%', and
// one search tells so.
#[tactic(auto, using(crate::proofs::DeclBody::percents))]
pub fn has_pe_reference(t: &[u8], names: Names) -> bool
    ensures { result ≡ has_pe_reference (dialect names) t.now }
{
    let mut i: usize = 0;
    while let Some(j) = find_byte(t, i, b'%') {
        i = j + 1;
        if begins_name(t, i, names) {
            return true;
        }
    }
    false
}
