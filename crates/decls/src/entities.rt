// Entity declarations: parse_entity_decl of dtd.rs.
// Text, place and names stay three parameters (classes/src/lib.rt says why).
ghost use Rattle.std.specs.Prelude.{◌≡◌};
ghost use Rattle.spec.specs.Reading.Dtd.{ndata, parse_entity_decl};
ghost use Rattle.error.specs.Read.{said, read};
ghost use Rattle.classes.specs.Classes.{dialect};
ghost use Rattle.decls.specs.Pieces.{ndata_decl, pe_def, entity_def, pe_decl, ge_decl, entity};

use crate::ahead::{at_quote, at_spaced_ndata};
use classes::Names;
use cursor::{
    EntityText, at_end, eat_str, need_name, need_ncname, parse_checked, parse_external_id,
    require_s, skip_s,
};
use error::{Answer, Refusal};

// [76] NDataDecl.
#[tactic(auto, using(cursor::proofs::Reading::reading))]
fn parse_ndata_decl(s: &[u8], at: usize, names: Names) -> Answer
    ensures { said result ≡ read (ndata_decl (dialect names)) s.now at }
{
    let i = require_s(s, at)?;
    let j = eat_str(s, i, b"NDATA", Refusal::Unexpected)?;
    let k = require_s(s, j)?;
    need_name(s, k, names)
}

// NDataDecl?, by the look ahead: what follows and does not begin with NDATA is the caller's.
#[tactic(auto, using(cursor::proofs::Reading::reading), unfolding(spec::specs::Reading::Dtd::ndata))]
fn parse_ndata(s: &[u8], at: usize, names: Names) -> Answer
    ensures { said result ≡ read (ndata (dialect names)) s.now at }
{
    if at_spaced_ndata(s, at) {
        return parse_ndata_decl(s, at, names);
    }
    Ok(at)
}

// [73] EntityDef.
#[tactic(auto, using(crate::proofs::Looking::by_quotes))]
fn parse_entity_def(s: &[u8], at: usize, names: Names) -> Answer
    ensures { said result ≡ read (entity_def (dialect names)) s.now at }
{
    if at_quote(s, at) {
        return parse_checked(s, at, &EntityText);
    }
    let i = parse_external_id(s, at)?;
    parse_ndata(s, i, names)
}

// [74] PEDef, which has no NDataDecl.
#[tactic(auto, using(crate::proofs::Looking::by_quotes))]
fn parse_pe_def(s: &[u8], at: usize) -> Answer
    ensures { said result ≡ read pe_def s.now at }
{
    if at_quote(s, at) {
        return parse_checked(s, at, &EntityText);
    }
    parse_external_id(s, at)
}

// [71] GEDecl, from its name on.
#[tactic(auto, using(cursor::proofs::Reading::reading))]
fn parse_ge_decl(s: &[u8], at: usize, names: Names) -> Answer
    ensures { said result ≡ read (ge_decl (dialect names)) s.now at }
{
    let i = need_ncname(s, at, names)?;
    let j = require_s(s, i)?;
    parse_entity_def(s, j, names)
}

// [72] PEDecl, after its '%'.
#[tactic(auto, using(cursor::proofs::Reading::reading))]
fn parse_pe_decl(s: &[u8], at: usize, names: Names) -> Answer
    ensures { said result ≡ read (pe_decl (dialect names)) s.now at }
{
    let i = require_s(s, at)?;
    let j = need_ncname(s, i, names)?;
    let k = require_s(s, j)?;
    parse_pe_def(s, k)
}

// The '%' tells the two apart.
#[tactic(auto, using(cursor::proofs::Reading::reading), unfolding(spec::specs::Reading::Readers::on))]
fn parse_entity(s: &[u8], at: usize, names: Names) -> Answer
    ensures { said result ≡ read (entity (dialect names)) s.now at }
{
    if let Ok(i) = eat_str(s, at, b"%", Refusal::Unexpected) {
        return parse_pe_decl(s, i, names);
    }
    parse_ge_decl(s, at, names)
}

// [70] EntityDecl between its keyword and its '>'.
#[tactic(auto, using(cursor::proofs::Reading::reading), unfolding(spec::specs::Reading::Dtd::parse_entity_decl))]
pub fn parse_entity_decl(body: &[u8], at: usize, names: Names) -> Answer
    ensures { said result ≡ read (parse_entity_decl (dialect names)) body.now at }
{
    let i = require_s(body, at)?;
    let j = parse_entity(body, i, names)?;
    let end = skip_s(body, j);
    at_end(body, end)
}
