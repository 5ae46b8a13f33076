// What an entry of the subset is, and where it ends.
// Text, place and names stay three parameters (classes/src/lib.rt says why).
ghost use Rattle.std.specs.Prelude.{◌≡◌, drop};
ghost use Rattle.spec.specs.Reading.Entries.{kind_at, one_entry};
ghost use Rattle.error.specs.Read.{said, read};
ghost use Rattle.classes.specs.Classes.{dialect};
ghost use Rattle.entries.specs.Kinds.{kind_of, keyword_size, some_bytes, referred};

use classes::Names;
use error::Answer;
use markup::parse_pe_reference;
use search::at_keyword;
use subset::parse_markup_decl;

// [45], [52], [70], [82], [16], [15], [69]
#[derive(Clone, Copy, Debug, PartialEq, Eq)]
pub enum Kind {
    Element,
    Attlist,
    Entity,
    Notation,
    Instruction,
    Comment,
    Reference,
}

// The kind of the entry that begins at `at`, by what it begins with. Where no entry begins, this means nothing.
#[tactic(auto, using(crate::proofs::Naming::kinds))]
pub fn kind_at(s: &[u8], at: usize) -> Kind
    ensures { kind_of result ≡ kind_at (drop at s.now) }
{
    if at_keyword(s, at, b"<?") {
        return Kind::Instruction;
    }
    if at_keyword(s, at, b"<!--") {
        return Kind::Comment;
    }
    if at_keyword(s, at, b"<!ELEMENT") {
        return Kind::Element;
    }
    if at_keyword(s, at, b"<!ATTLIST") {
        return Kind::Attlist;
    }
    if at_keyword(s, at, b"<!ENTITY") {
        return Kind::Entity;
    }
    if at_keyword(s, at, b"<!NOTATION") {
        return Kind::Notation;
    }
    Kind::Reference
}

// Where it ends, or a refusal where no entry begins. A body is only delimited: it was read when the text was accepted.
#[tactic(auto, using(crate::proofs::Naming::ends), unfolding(spec::specs::Reading::Readers::on))]
pub fn entry_end(s: &[u8], at: usize, names: Names) -> Answer
    ensures { said result ≡ read (one_entry (dialect names)) s.now at }
{
    if at_keyword(s, at, b"%") {
        return parse_pe_reference(s, at, names);
    }
    parse_markup_decl(s, at, true, names)
}

// How many bytes of a declaration stand before its body. What is no declaration has no body.
pub fn keyword_size(kind: Kind) -> Option<usize>
    ensures { result ≡ some_bytes (keyword_size (kind_of kind)) }
{
    match kind {
        Kind::Element => Some(9),
        Kind::Attlist => Some(9),
        Kind::Entity => Some(8),
        Kind::Notation => Some(10),
        Kind::Instruction => None,
        Kind::Comment => None,
        Kind::Reference => None,
    }
}

// Whether a parameter-entity reference came before what follows an entry.
#[tactic(auto, using(crate::proofs::Naming::sizes), unfolding(crate::specs::Kinds::kind_of, crate::specs::Kinds::referred))]
pub fn referred(pe_used: bool, kind: Kind) -> bool
    ensures { result ≡ referred pe_used (kind_of kind) }
{
    match kind {
        Kind::Reference => true,
        Kind::Element
        | Kind::Attlist
        | Kind::Entity
        | Kind::Notation
        | Kind::Instruction
        | Kind::Comment => pe_used,
    }
}
