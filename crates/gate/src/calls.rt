// The two calls of the gate on the record that its owner lends.
ghost use Rattle.std.specs.Prelude.{◌≡◌};
ghost use Rattle.spec.specs.Grammar.AppendixB.{appendix_b};
ghost use Rattle.spec.specs.Reading.Gate as G;
ghost use Rattle.error.specs.Read.{code};
ghost use Rattle.gate.specs.Promises.{recorded, tallied, numbered, answered_by, Declares, Docks};

use crate::record::{Docked, Gate};
use chars::chars_admitted;
use checks::declaration_admitted;
use classes::Names;
use dtd::doctype_admitted;
use error::{Refusal, Verdict};
use scan::{Scanned, scan_admitted};
use source::admit;

// The phase in which a DOCTYPE may stand.
const PROLOG: u8 = 0;

impl Gate {
    // One refusal more. The count is held where it would wrap.
    fn count(&mut self)
        ensures { recorded self.new ≡ G.count (recorded self.old) }
    {
        self.refused = self.refused.saturating_add(1);
    }

    // What a call answers, whatever its answers are: a refusal is counted, and the answer handed on.
    fn counted<T>(&mut self, answer: Result<T, Refusal>) -> Result<T, Refusal>
        ensures record { recorded self.new ≡ tallied answer (recorded self.old) }
        ensures answer { result ≡ answer }
    {
        if answer.is_err() {
            self.count();
        }
        answer
    }

    // The XML declaration, but for the count: 1 and 2 come first. One that is not the first thing read is refused unread.
    fn read_decl(&mut self, text: &[u8]) -> Verdict
        ensures { numbered self.new (code result) ≡ G.decl (recorded self.old) text.now }
    {
        admit(text)?;
        if self.started {
            return Err(Refusal::OutOfOrder);
        }
        // Whatever the check says, something was read.
        self.started = true;
        declaration_admitted(text)
    }

    // The XML declaration, what stands between `<?` and `?>`.
    pub fn decl(&mut self, text: &[u8]) -> Verdict
        ensures { Declares self.old text.now self.new (code result) }
    {
        let verdict = self.read_decl(text);
        self.counted(verdict)
    }

    // A DOCTYPE, but for the count: 1 and 2 come first; then the characters, the order and the scan. A subset that has opened and not closed
    // leaves the DOCTYPE open; else the grammar decides.
    fn read_doctype(&mut self, phase: u8, text: &[u8]) -> Result<Docked, Refusal>
        ensures { answered_by self.new result ≡ G.doctype appendix_b (recorded self.old) phase text.now }
    {
        admit(text)?;
        self.started = true;
        chars_admitted(text)?;
        if self.seen | (phase != PROLOG) {
            return Err(Refusal::OutOfOrder);
        }
        self.seen = true;
        if let Scanned::NotClosed = scan_admitted(text) {
            self.open = true;
            return Ok(Docked::Open);
        }
        doctype_admitted(text, Names::AppendixB)?;
        Ok(Docked::Whole)
    }

    // A DOCTYPE, what stands between `<!DOCTYPE` and its `>`, in this phase of the document: 0 prolog, 1 root, 2 epilog.
    // (A number and no enum, since C hands over any byte: all but 0 are refused.)
    pub fn doctype(&mut self, phase: u8, text: &[u8]) -> Result<Docked, Refusal>
        ensures { Docks self.old phase text.now self.new result }
    {
        let answer = self.read_doctype(phase, text);
        self.counted(answer)
    }
}
