// Attribute-list declarations: parse_attlist_decl and what it calls, of dtd.rs.
// Text, place and names stay three parameters (classes/src/lib.rt says why).
ghost use Rattle.std.specs.Prelude.{◌≡◌, drop};
ghost use Rattle.spec.specs.Reading.Refusals.{unexpected};
ghost use Rattle.spec.specs.Reading.Readers.{refuse};
ghost use Rattle.spec.specs.Reading.Dtd.{tokenized, word_among, parse_att_type, parse_default_decl, parse_att_def, parse_attlist_decl};
ghost use Rattle.error.specs.Read.{said, read};
ghost use Rattle.classes.specs.Classes.{dialect};
ghost use Rattle.decls.specs.Pieces.{notation_names, fixed, default_value, more_left, att_defs};

use crate::lists::parse_list;
use classes::Names;
use cursor::{AttText, Name, Nmtoken, eat_str, need_name, parse_checked, require_s, skip_s};
use error::{Answer, Refusal};

// TOKENIZED, in the order in which they are tried, so that no keyword is taken for one that it begins with.
const KEYWORDS: [&[u8]; 8] = [
    b"CDATA",
    b"IDREFS",
    b"IDREF",
    b"ID",
    b"ENTITY",
    b"ENTITIES",
    b"NMTOKENS",
    b"NMTOKEN",
];

// [55] StringType and [56] TokenizedType: the place after the first keyword of the table that stands here.
fn parse_tokenized(s: &[u8], at: usize) -> Answer
    ensures { said result ≡ read (word_among tokenized (refuse unexpected)) s.now at }
{
    for keyword in KEYWORDS {
        if let Ok(end) = eat_str(s, at, keyword, Refusal::Unexpected) {
            return Ok(end);
        }
    }
    Err(Refusal::Unexpected.at(at))
}

// [58] NotationType, after its keyword.
#[tactic(auto, using(cursor::proofs::Reading::reading))]
fn parse_notation_names(s: &[u8], at: usize, names: Names) -> Answer
    ensures { said result ≡ read (notation_names (dialect names)) s.now at }
{
    let i = require_s(s, at)?;
    parse_list(s, i, &Name(names))
}

// [54] AttType.
pub fn parse_att_type(s: &[u8], at: usize, names: Names) -> Answer
    ensures { said result ≡ read (parse_att_type (dialect names)) s.now at }
{
    if let Ok(i) = eat_str(s, at, b"NOTATION", Refusal::Unexpected) {
        return parse_notation_names(s, i, names);
    }
    parse_tokenized(s, at).or_else(|_| parse_list(s, at, &Nmtoken(names)))
}

// ('#FIXED' S)? of [60] DefaultDecl.
#[tactic(auto, using(cursor::proofs::Reading::reading), unfolding(spec::specs::Reading::Readers::on))]
fn parse_fixed(s: &[u8], at: usize) -> Answer
    ensures { said result ≡ read fixed s.now at }
{
    if let Ok(i) = eat_str(s, at, b"#FIXED", Refusal::Unexpected) {
        return require_s(s, i);
    }
    Ok(at)
}

// (('#FIXED' S)? AttValue) of [60] DefaultDecl.
#[tactic(auto, using(cursor::proofs::Reading::reading))]
fn parse_default_value(s: &[u8], at: usize) -> Answer
    ensures { said result ≡ read default_value s.now at }
{
    let i = parse_fixed(s, at)?;
    parse_checked(s, i, &AttText)
}

// [60] DefaultDecl.
pub fn parse_default_decl(s: &[u8], at: usize) -> Answer
    ensures { said result ≡ read parse_default_decl s.now at }
{
    eat_str(s, at, b"#REQUIRED", Refusal::Unexpected)
        .or_else(|_| eat_str(s, at, b"#IMPLIED", Refusal::Unexpected))
        .or_else(|_| parse_default_value(s, at))
}

// [53] AttDef, with the white space before it.
#[tactic(auto, using(cursor::proofs::Reading::reading), unfolding(spec::specs::Reading::Dtd::parse_att_def))]
pub fn parse_att_def(s: &[u8], at: usize, names: Names) -> Answer
    ensures { said result ≡ read (parse_att_def (dialect names)) s.now at }
{
    let i = require_s(s, at)?;
    let j = need_name(s, i, names)?;
    let k = require_s(s, j)?;
    let l = parse_att_type(s, k, names)?;
    let m = require_s(s, l)?;
    parse_default_decl(s, m)
}

// Whether a definition has to follow: more is left than white space. No byte after the white space is looked at.
fn is_more_left(s: &[u8], at: usize) -> bool
    ensures { result ≡ more_left (drop at s.now) }
{
    skip_s(s, at) < s.len()
}

// The definitions, and the white space after the last.
#[tactic(auto, using(crate::proofs::Defining::defining))]
fn parse_att_defs(s: &[u8], at: usize, names: Names) -> Answer
    ensures { said result ≡ read (att_defs (dialect names)) s.now at }
{
    let mut i = at;
    while is_more_left(s, i) {
        i = parse_att_def(s, i, names)?;
    }
    Ok(skip_s(s, i))
}

// [52] AttlistDecl between its keyword and its '>'.
#[tactic(auto, using(cursor::proofs::Reading::reading), unfolding(spec::specs::Reading::Dtd::parse_attlist_decl))]
pub fn parse_attlist_decl(body: &[u8], at: usize, names: Names) -> Answer
    ensures { said result ≡ read (parse_attlist_decl (dialect names)) body.now at }
{
    let i = require_s(body, at)?;
    let j = need_name(body, i, names)?;
    parse_att_defs(body, j, names)
}
