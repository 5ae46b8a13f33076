// The check of a whole document. In C its verdict is a struct of eight numbers of one type, which the caller lends: here it is an array of
// them, since the C interface needs one block of fixed form. The two exported names are of the C interface, and stay two.
ghost use Rattle.std.specs.Prelude.{◌≡◌};
ghost use Rattle.spec.specs.Grammar.AppendixB.{appendix_b};
ghost use Rattle.spec.specs.Grammar.FifthEdition.{fifth_edition};
ghost use Rattle.classes.specs.Classes.{dialect};
ghost use Rattle.document.specs.Judges.{has_text, text_start, text_end, told};
ghost use Rattle.document.specs.Prologs.{text_of};
ghost use Rattle.moxkeldi.specs.Boundary.{bit, fields_of, JudgesInto};

use classes::Names;
use document::Verdict;
use source::Span;

// Whether there is a DOCTYPE, and the ends of its text, 0 and 0 where there is none.
fn ends(doctype: Option<Span>) -> (usize, usize, usize)
    ensures has { result.0 ≡ bit (has_text (text_of doctype)) }
    ensures start { result.1 ≡ text_start (text_of doctype) }
    ensures end { result.2 ≡ text_end (text_of doctype) }
{
    match doctype {
        Some(text) => (1, text.start, text.end),
        None => (0, 0, 0),
    }
}

// The eight fields, in the order of the struct.
#[tactic(auto, unfolding(crate::specs::Boundary::fields_of))]
fn fields(verdict: Verdict) -> [usize; 8]
    ensures { result ≡ fields_of (told verdict) }
{
    match verdict {
        Ok(said) => {
            let root = said.root;
            let unread = said.unread;
            let (has, start, end) = ends(said.doctype);
            [
                root.place,
                root.line,
                root.column,
                root.place,
                has,
                start,
                end,
                unread,
            ]
        }
        Err(said) => {
            let at = said.at;
            let opened = said.opened;
            [at.place, at.line, at.column, opened, 0, 0, 0, 0]
        }
    }
}

fn number(verdict: Verdict) -> u8
    ensures { result ≡ (told verdict).number }
{
    match verdict {
        Ok(_) => 0,
        Err(said) => said.refusal.number(),
    }
}

// By these names; the number, since C takes one.
fn judge(text: &[u8], verdict: &mut [usize; 8], names: Names) -> u8
    ensures { JudgesInto (dialect names) text.now result verdict.new }
{
    let said = document::check_document(text, true, names);
    *verdict = fields(said);
    number(said)
}

#[tactic(auto, unfolding(classes::specs::Classes::dialect))]
#[unsafe(no_mangle)]
pub extern "C" fn moxkeldi_check_document(text: &[u8], verdict: &mut [usize; 8]) -> u8
    ensures { JudgesInto appendix_b text.now result verdict.new }
{
    judge(text, verdict, Names::AppendixB)
}

#[tactic(auto, unfolding(classes::specs::Classes::dialect))]
#[unsafe(no_mangle)]
pub extern "C" fn moxkeldi_check_document_fifth(text: &[u8], verdict: &mut [usize; 8]) -> u8
    ensures { JudgesInto fifth_edition text.now result verdict.new }
{
    judge(text, verdict, Names::FifthEdition)
}
