// Content models: parse_contentspec, parse_mixed, parse_children, parse_cp and parse_group of dtd.rs (productions 46 to 51).
// Text, place and names stay three parameters (classes/src/lib.rt says why), and so does the height, which the readers of groups alone take.
#![tactic(auto)]

ghost use Rattle.std.specs.Prelude.{◌≡◌, [], ◌∷◌, drop, Ok};
ghost use Rattle.spec.specs.Reading.Readers.{starts};
ghost use Rattle.spec.specs.Reading.Refusals.{too_deep};
ghost use Rattle.spec.specs.Reading.Dtd.{connector, occurs, cp_of, parse_group, parse_children, parse_mixed, parse_contentspec};
ghost use Rattle.error.specs.Read.{said, read};
ghost use Rattle.classes.specs.Classes.{dialect};
ghost use Rattle.models.specs.Parts.{group_end, mixed_names, mixed_end, model};

use classes::Names;
use cursor::{Name, eat_str, need_name, past_bars, skip_s};
use error::{Answer, Refusal};
use search::at_keyword;
use utf8::byte_at;

// How many groups may be open at one time.
const GROUPS: usize = 64;

// Whether the sign b stands at `at`.
fn at_sign(s: &[u8], at: usize, b: u8) -> bool
    ensures { result ≡ starts (b ∷ []) (drop at s.now) }
{
    s.get(at) == Some(&b)
}

// '|' or ','. (One of two signs, as a quote mark is in decls; each is its own production.)
#[tactic(auto, using(crate::proofs::Signs::connector_is))]
fn at_connector(s: &[u8], at: usize) -> bool
    ensures { result ≡ connector (drop at s.now) }
{
    at_sign(s, at, b'|') | at_sign(s, at, b',')
}

// ('?' | '*' | '+')?, at most one of them.
#[tactic(auto, using(crate::proofs::Occurs::occurring))]
fn occurrence_end(s: &[u8], at: usize) -> usize
    ensures { said (Ok result) ≡ read occurs s.now at }
{
    let b = byte_at(s, at);
    if (b == b'?') | (b == b'*') | (b == b'+') {
        return at + 1;
    }
    at
}

// [48] cp, in which so many groups may yet be opened.
#[cycle(groups)]
fn parse_cp(s: &[u8], at: usize, height: usize, names: Names) -> Answer
    ensures { said result ≡ read (cp_of (dialect names) (parse_group (dialect names) too_deep height)) s.now at }
{
    if at_sign(s, at, b'(') {
        let e = parse_group(s, at, height, names)?;
        return Ok(occurrence_end(s, e));
    }
    let e = need_name(s, at, names)?;
    Ok(occurrence_end(s, e))
}

// [49] choice and [50] seq after the first particle and white space: the first connector fixes which of the two it is. The byte here
// may also be no connector; then the loop is not entered.
#[cycle(groups)]
fn group_end(s: &[u8], at: usize, height: usize, names: Names) -> Answer
    ensures { said result ≡ read (group_end (cp_of (dialect names) (parse_group (dialect names) too_deep height))) s.now at }
{
    let sep = byte_at(s, at);
    let mut j = at;
    while at_connector(s, j) {
        if at_sign(s, j, sep) {
            let i = skip_s(s, j + 1);
            let e = parse_cp(s, i, height, names)?;
            j = skip_s(s, e);
        } else {
            return Err(Refusal::BadConnector.at(j));
        }
    }
    if at_sign(s, j, b')') {
        return Ok(j + 1);
    }
    Err(Refusal::Unexpected.at(j))
}

// [49] choice and [50] seq, where so many groups may yet be opened, itself counted.
#[cycle(groups)]
fn parse_group(s: &[u8], at: usize, height: usize, names: Names) -> Answer
    ensures { said result ≡ read (parse_group (dialect names) too_deep height) s.now at }
{
    if height == 0 {
        return Err(Refusal::TooDeep.at(at));
    }
    if !at_sign(s, at, b'(') {
        return Err(Refusal::Unexpected.at(at));
    }
    let i = skip_s(s, at + 1);
    let e = parse_cp(s, i, height - 1, names)?;
    let j = skip_s(s, e);
    group_end(s, j, height - 1, names)
}

// [47] children, at the '(' where parse_contentspec calls it.
#[tactic(auto, using(crate::proofs::Groups::children), unfolding(spec::specs::Reading::Dtd::parse_children))]
pub fn parse_children(s: &[u8], at: usize, names: Names) -> Answer
    ensures { said result ≡ read (parse_children (dialect names) too_deep) s.now at }
{
    let e = parse_group(s, at, GROUPS, names)?;
    Ok(occurrence_end(s, e))
}

// [51] Mixed from its first '|' on: names, and then ')*'.
#[tactic(auto, using(cursor::proofs::Reading::reading), unfolding(crate::specs::Parts::mixed_names))]
fn mixed_names(s: &[u8], at: usize, names: Names) -> Answer
    ensures { said result ≡ read (mixed_names (dialect names)) s.now at }
{
    let j = past_bars(s, at, &Name(names))?;
    let e = eat_str(s, j, b")", Refusal::Unexpected)?;
    eat_str(s, e, b"*", Refusal::BadConnector)
}

// [51] Mixed after "#PCDATA" and white space: without names the '*' may stand or not.
#[tactic(auto, using(crate::proofs::Contentspecs::mixing), unfolding(crate::specs::Parts::mixed_end, crate::specs::Parts::mixed_names, spec::specs::Reading::Dtd::after))]
fn mixed_end(s: &[u8], at: usize, names: Names) -> Answer
    ensures { said result ≡ read (mixed_end (dialect names)) s.now at }
{
    if at_sign(s, at, b'|') {
        return mixed_names(s, at, names);
    }
    if !at_sign(s, at, b')') {
        return Err(Refusal::Unexpected.at(at));
    }
    let e = at + 1;
    if at_sign(s, e, b'*') {
        return Ok(e + 1);
    }
    Ok(e)
}

// [51] Mixed.
#[tactic(auto, using(crate::proofs::Contentspecs::mixing), unfolding(spec::specs::Reading::Dtd::parse_mixed, crate::specs::Parts::mixed_end, crate::specs::Parts::mixed_names))]
pub fn parse_mixed(s: &[u8], at: usize, names: Names) -> Answer
    ensures { said result ≡ read (parse_mixed (dialect names)) s.now at }
{
    if !at_sign(s, at, b'(') {
        return Err(Refusal::Unexpected.at(at));
    }
    let i = skip_s(s, at + 1);
    let e = eat_str(s, i, b"#PCDATA", Refusal::Unexpected)?;
    let j = skip_s(s, e);
    mixed_end(s, j, names)
}

// Mixed or children: "#PCDATA" after the '(' tells which. parse_contentspec looks ahead in the same way.
#[tactic(auto, using(crate::proofs::Contentspecs::modelled), unfolding(crate::specs::Parts::model))]
fn parse_model(s: &[u8], at: usize, names: Names) -> Answer
    ensures { said result ≡ read (model (dialect names)) s.now at }
{
    if at_sign(s, at, b'(') {
        let i = skip_s(s, at + 1);
        if at_keyword(s, i, b"#PCDATA") {
            return parse_mixed(s, at, names);
        }
        return parse_children(s, at, names);
    }
    Err(Refusal::Unexpected.at(at))
}

// [46] contentspec.
#[tactic(auto, using(crate::proofs::Contentspecs::specified), unfolding(spec::specs::Reading::Dtd::parse_contentspec, crate::specs::Parts::model, spec::specs::Reading::Readers::on))]
pub fn parse_contentspec(s: &[u8], at: usize, names: Names) -> Answer
    ensures { said result ≡ read (parse_contentspec (dialect names) too_deep) s.now at }
{
    if let Ok(e) = eat_str(s, at, b"EMPTY", Refusal::Unexpected) {
        return Ok(e);
    }
    if let Ok(e) = eat_str(s, at, b"ANY", Refusal::Unexpected) {
        return Ok(e);
    }
    parse_model(s, at, names)
}
