// The calls that answer with more than a number, in places that the caller lends.
ghost use Rattle.std.specs.Prelude.{eqb};
ghost use Rattle.spec.specs.Grammar.AppendixB.{appendix_b};
ghost use Rattle.spec.specs.Grammar.Characters.{Text};
ghost use Rattle.spec.specs.Grammar.Names.{NCName};
ghost use Rattle.spec.specs.Promises.{Tells};
ghost use Rattle.moxkeldi.specs.Boundary.{ScansInto};

use error::code;
use scan::{Scanned, scan};

// One of 0, 1 and 2, so that 0 says yes.
#[unsafe(no_mangle)]
pub extern "C" fn moxkeldi_check_utf8(text: &[u8]) -> u8
    ensures { Tells Text text.now result (eqb result 0) }
{
    code(source::is_utf8(text))
}

#[unsafe(no_mangle)]
pub extern "C" fn moxkeldi_is_ncname(text: &[u8], yes: &mut bool) -> u8
    ensures { Tells (NCName appendix_b) text.now result yes.new }
{
    match ncnames::is_ncname(text) {
        Ok(is) => {
            *yes = is;
            0
        }
        Err(refusal) => {
            *yes = false;
            refusal.number()
        }
    }
}

// A refused scan leaves both places as they were, and `place` is written only where there is one to name.
#[unsafe(no_mangle)]
pub extern "C" fn moxkeldi_scan(text: &[u8], answer: &mut u8, place: &mut usize) -> u8
    ensures { ScansInto text.now answer.old place.old result answer.new place.new }
{
    match scan(text) {
        Ok(Scanned::NotOpened) => {
            *answer = 0;
            0
        }
        Ok(Scanned::NotClosed) => {
            *answer = 1;
            0
        }
        Ok(Scanned::Closed(at)) => {
            *answer = 2;
            *place = at;
            0
        }
        Err(refusal) => refusal.number(),
    }
}
