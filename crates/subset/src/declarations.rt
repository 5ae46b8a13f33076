// Markup declarations of the internal subset: parse_markup_decl, finish_decl and parse_element_decl of dtd.rs.
// Text, place and names stay three parameters (classes/src/lib.rt says why). And whether a parameter-entity reference came before is a
// fourth, apart from the names: three in four of the readers below take the names alone.
ghost use Rattle.std.specs.Prelude.{◌≡◌};
ghost use Rattle.spec.specs.Reading.Refusals.{too_deep};
ghost use Rattle.spec.specs.Reading.Dtd.{parse_element_decl, parse_attlist_decl, parse_entity_decl, parse_notation_decl, finish_decl, parse_markup_decl};
ghost use Rattle.error.specs.Read.{said, read};
ghost use Rattle.classes.specs.Classes.{dialect};
ghost use Rattle.subset.specs.Kinds.{entity_or_notation, declaration};

use classes::Names;
use cursor::{Reads, at_end, eat_str, need_name, require_s, skip_s};
use decls::{parse_attlist_decl, parse_entity_decl, parse_notation_decl};
use error::{Answer, Refusal};
use markup::{has_pe_reference, parse_comment, parse_pi, take_decl_body};
use models::parse_contentspec;
use search::at_keyword;

// The bodies that finish_decl of the Rust is handed functions for: [45] elementdecl, [52] AttlistDecl, [70] EntityDecl, [82] NotationDecl.
#[derive(Clone, Copy)]
struct Element(Names);

#[derive(Clone, Copy)]
struct Attlist(Names);

#[derive(Clone, Copy)]
struct Entity(Names);

#[derive(Clone, Copy)]
struct Notation(Names);

impl Reads for Element {
    ghost reader = { λ it. parse_element_decl (dialect it.0) too_deep };

    fn read(&self, body: &[u8], at: usize) -> Answer {
        parse_element_decl(body, at, self.0)
    }
}

impl Reads for Attlist {
    ghost reader = { λ it. parse_attlist_decl (dialect it.0) };

    fn read(&self, body: &[u8], at: usize) -> Answer {
        parse_attlist_decl(body, at, self.0)
    }
}

impl Reads for Entity {
    ghost reader = { λ it. parse_entity_decl (dialect it.0) };

    fn read(&self, body: &[u8], at: usize) -> Answer {
        parse_entity_decl(body, at, self.0)
    }
}

impl Reads for Notation {
    ghost reader = { λ it. parse_notation_decl (dialect it.0) };

    fn read(&self, body: &[u8], at: usize) -> Answer {
        parse_notation_decl(body, at, self.0)
    }
}

// [45] elementdecl, its body
#[tactic(auto, using(cursor::proofs::Reading::reading), unfolding(spec::specs::Reading::Dtd::parse_element_decl))]
fn parse_element_decl(body: &[u8], at: usize, names: Names) -> Answer
    ensures { said result ≡ read (parse_element_decl (dialect names) too_deep) body.now at }
{
    let i = require_s(body, at)?;
    let i = need_name(body, i, names)?;
    let i = require_s(body, i)?;
    let i = parse_contentspec(body, i, names)?;
    let i = skip_s(body, i);
    at_end(body, i)
}

// From a declaration's keyword to its '>': the body is read, unless a parameter-entity reference stands in it or stood before.
#[tactic(auto, using(crate::proofs::Finishing::finishing))]
fn finish_decl<B: Reads>(s: &[u8], at: usize, pe_used: bool, names: Names, body: &B) -> Answer
    ensures { said result ≡ read (finish_decl (dialect names) pe_used (B.reader body.now)) s.now at }
{
    let end = take_decl_body(s, at)?;
    if pe_used {
        return Ok(end + 1);
    }
    if has_pe_reference(&s[at..end], names) {
        return Ok(end + 1);
    }
    body.read(&s[0..end], at)?;
    Ok(end + 1)
}

// <!ENTITY and <!NOTATION, the last two keywords of the four
#[tactic(auto, using(cursor::proofs::Reading::reading), unfolding(spec::specs::Reading::Readers::on, crate::specs::Kinds::entity_or_notation))]
fn parse_entity_or_notation(s: &[u8], at: usize, pe_used: bool, names: Names) -> Answer
    ensures { said result ≡ read (entity_or_notation (dialect names) pe_used) s.now at }
{
    if let Ok(i) = eat_str(s, at, b"<!ENTITY", Refusal::Unexpected) {
        return finish_decl(s, i, pe_used, names, &Entity(names));
    }
    let i = eat_str(s, at, b"<!NOTATION", Refusal::Unexpected)?;
    finish_decl(s, i, pe_used, names, &Notation(names))
}

// The four declarations by their keywords.
#[tactic(auto, using(cursor::proofs::Reading::reading), unfolding(spec::specs::Reading::Readers::on, crate::specs::Kinds::declaration))]
fn parse_declaration(s: &[u8], at: usize, pe_used: bool, names: Names) -> Answer
    ensures { said result ≡ read (declaration (dialect names) pe_used) s.now at }
{
    if let Ok(i) = eat_str(s, at, b"<!ELEMENT", Refusal::Unexpected) {
        return finish_decl(s, i, pe_used, names, &Element(names));
    }
    if let Ok(i) = eat_str(s, at, b"<!ATTLIST", Refusal::Unexpected) {
        return finish_decl(s, i, pe_used, names, &Attlist(names));
    }
    parse_entity_or_notation(s, at, pe_used, names)
}

// [29] markupdecl; a conditional section is none
#[tactic(auto, using(cursor::proofs::Reading::reading), unfolding(spec::specs::Reading::Readers::on, spec::specs::Reading::Dtd::parse_markup_decl, crate::specs::Kinds::declaration, crate::specs::Kinds::entity_or_notation))]
pub fn parse_markup_decl(s: &[u8], at: usize, pe_used: bool, names: Names) -> Answer
    ensures { said result ≡ read (parse_markup_decl (dialect names) too_deep pe_used) s.now at }
{
    if at_keyword(s, at, b"<?") {
        return parse_pi(s, at, names);
    }
    if at_keyword(s, at, b"<!--") {
        return parse_comment(s, at);
    }
    if at_keyword(s, at, b"<![") {
        return Err(Refusal::Unexpected.at(at));
    }
    parse_declaration(s, at, pe_used, names)
}
