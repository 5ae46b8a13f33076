// The encoding that an XML declaration names: [80] EncodingDecl.
ghost use Rattle.std.specs.Prelude.{◌≡◌, ◌+◌, drop};
ghost use Rattle.spec.specs.Basics.{pick};
ghost use Rattle.spec.specs.Grammar.Encodings.{unnamed, coding_in};
ghost use Rattle.spec.specs.Reading.Readers.{taken};
ghost use Rattle.spec.specs.Reading.Verdict.{read_version, read_encoding, encoding_at, find_encoding};
ghost use Rattle.encodings.specs.Codings.{of};
ghost use Rattle.encodings.specs.Names.{Declared, Names, told};

use crate::codings::{Coding, coding_of};
use checks::{is_declaration, parse_encoding_eq, parse_version};
use cursor::skip_s;
use search::{at_keyword, find, find_byte};
use source::Span;

// Where the text of the declaration ends, that begins at the third byte: at its "?>", or at the text's end.
#[tactic(auto, using(crate::proofs::Finding::reaching))]
fn declared_end(x: &[u8]) -> usize
    ensures { Declared x.now result }
{
    find(x, 2, b"?>").unwrap_or(x.len())
}

// The place after the version; where it can't be read, the place where the text begins, at which no encoding stands.
#[tactic(auto, using(crate::proofs::Finding::reaching))]
fn version_end(t: &[u8]) -> usize
    ensures { result ≡ 2 + taken (read_version (drop 2 t.now)) }
{
    parse_version(t, 2).unwrap_or(2)
}

// The place of the quote mark before the name; where it can't be read up to there, the same place.
#[tactic(auto, using(crate::proofs::Finding::reaching))]
fn name_open(t: &[u8], at: usize) -> usize
    ensures { result ≡ at + taken (read_encoding (drop at t.now)) }
{
    parse_encoding_eq(t, at).unwrap_or(at)
}

// EncodingDecl? after the version: the name goes to the next quote mark of the same kind.
#[tactic(auto, using(crate::proofs::Finding::valuing))]
fn named_after(t: &[u8], at: usize) -> Option<Span>
    ensures { Names t.now (encoding_at at (drop at t.now)) result }
{
    let i = skip_s(t, at);
    if !at_keyword(t, i, b"encoding") {
        return None;
    }
    let open = name_open(t, at);
    let start = open + 1;
    if t.len() <= open {
        return Some(Span { start, end: start });
    }
    let end = find_byte(t, start, t[open]).unwrap_or(t.len());
    Some(Span { start, end })
}

// Where the name, [81] EncName, of the encoding stands that the XML declaration of x names; of a text that is accepted up to there.
#[tactic(auto, using(crate::proofs::Finding::finding))]
pub fn find_encoding(x: &[u8]) -> Option<Span>
    ensures { told x.now result ≡ find_encoding x.now }
{
    if !is_declaration(x, 0) {
        return None;
    }
    let t = &x[0..declared_end(x)];
    named_after(t, version_end(t))
}

// The encoding that a document names. x is the part of it that is read in UTF-8, and the caller says whether its declaration is accepted:
// of one that is refused none is looked for.
#[tactic(auto, using(crate::proofs::Finding::finding))]
pub fn encoding_read(x: &[u8], accepted: bool) -> Option<Span>
    ensures { told x.now result ≡ pick accepted (find_encoding x.now) unnamed }
{
    if accepted { find_encoding(x) } else { None }
}

// What the name stands for; where none is named, UTF-8 (section 4.3.3). Any two places will do: an empty name is no encoding's.
#[tactic(auto, using(crate::proofs::Finding::standing))]
pub fn coding_in(x: &[u8], name: Option<Span>) -> Coding
    ensures { of result ≡ coding_in (told x.now name) }
{
    let Some(Span { start, end }) = name else {
        return Coding::Utf8;
    };
    x.get(start..end.min(x.len()))
        .map_or(Coding::Foreign, coding_of)
}
