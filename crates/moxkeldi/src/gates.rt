// The gate's two calls, on a record that the caller lends and that is passed on.
ghost use Rattle.std.specs.Prelude.{◌≡◌};
ghost use Rattle.gate.specs.Promises.{Declares};
ghost use Rattle.moxkeldi.specs.Boundary.{code_of, DocksCoded};

use error::{Refusal, code};
use gate::{Docked, Gate};

// MOXKELDI_OPEN: no number of the table.
const OPEN: u8 = 255;

#[unsafe(no_mangle)]
pub extern "C" fn moxkeldi_decl(gate: &mut Gate, text: &[u8]) -> u8
    ensures { Declares gate.old text.now gate.new result }
{
    code(gate.decl(text))
}

// C takes numbers.
#[tactic(auto, unfolding(crate::specs::Boundary::code_of))]
fn reply_code(reply: Result<Docked, Refusal>) -> u8
    ensures { result ≡ code_of reply }
{
    match reply {
        Ok(Docked::Whole) => 0,
        Ok(Docked::Open) => OPEN,
        Err(refusal) => refusal.number(),
    }
}

#[unsafe(no_mangle)]
pub extern "C" fn moxkeldi_doctype(gate: &mut Gate, phase: u8, text: &[u8]) -> u8
    ensures { DocksCoded gate.old phase text.now gate.new result }
{
    reply_code(gate.doctype(phase, text))
}
