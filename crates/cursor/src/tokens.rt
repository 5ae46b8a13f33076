// Names at a place: parse_name, parse_nmtoken and reject_colon of dtd.rs.
// Text, place and names stay three parameters (classes/src/lib.rt says why).
ghost use Rattle.std.specs.Prelude.{◌≡◌};
ghost use Rattle.spec.specs.Reading.Wellformed.{name};
ghost use Rattle.spec.specs.Reading.Dtd.{nmtoken, ncname};
ghost use Rattle.error.specs.Read.{said, read};
ghost use Rattle.classes.specs.Classes.{dialect};

use crate::reads::Reads;
use classes::Names;
use error::{Answer, Refusal};
use names::{name_chars_end, parse_name};
use search::find_byte;

// [5] Name. Where none begins, the part is empty.
#[tactic(auto, using(crate::proofs::Parts::parted))]
pub fn need_name(s: &[u8], at: usize, names: Names) -> Answer
    ensures { said result ≡ read (name (dialect names)) s.now at }
{
    let part = parse_name(s, at, names);
    if part.len() == 0 {
        return Err(Refusal::BadName.at(at));
    }
    Ok(at + part.len())
}

// It as a reader, by the names of a dialect.
#[derive(Clone, Copy)]
pub struct Name(pub Names);

impl Reads for Name {
    ghost reader = { λ x. name (dialect x.0) };

    fn read(&self, s: &[u8], at: usize) -> Answer {
        need_name(s, at, self.0)
    }
}

// [7] Nmtoken, a name character or more.
#[tactic(auto, using(crate::proofs::Parts::parted), unfolding(spec::specs::Reading::Dtd::nmtoken))]
pub fn need_nmtoken(s: &[u8], at: usize, names: Names) -> Answer
    ensures { said result ≡ read (nmtoken (dialect names)) s.now at }
{
    let e = name_chars_end(s, at, names);
    if e == at {
        return Err(Refusal::BadName.at(at));
    }
    Ok(e)
}

// It as a reader, by the names of a dialect.
#[derive(Clone, Copy)]
pub struct Nmtoken(pub Names);

impl Reads for Nmtoken {
    ghost reader = { λ x. nmtoken (dialect x.0) };

    fn read(&self, s: &[u8], at: usize) -> Answer {
        need_nmtoken(s, at, self.0)
    }
}

// NCName of Namespaces: a Name, and reject_colon on it.
#[tactic(auto, using(crate::proofs::Parts::uncoloned))]
pub fn need_ncname(s: &[u8], at: usize, names: Names) -> Answer
    ensures { said result ≡ read (ncname (dialect names)) s.now at }
{
    let end = need_name(s, at, names)?;
    if let Some(j) = find_byte(&s[at..end], 0, b':') {
        return Err(Refusal::HasColon.at(at + j));
    }
    Ok(end)
}
