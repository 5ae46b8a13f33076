// The walk from one unread declaration to the next.
// Text, place and names stay three parameters (classes/src/lib.rt says why).
ghost use Rattle.std.specs.Prelude.{◌≡◌};
ghost use Rattle.classes.specs.Classes.{dialect};
ghost use Rattle.entries.specs.Kinds.{kind_of};
ghost use Rattle.entries.specs.Walk.{Holds, unread_there, Finds};

use crate::kinds::{Kind, entry_end, keyword_size, kind_at, referred};
use classes::Names;
use cursor::skip_s;
use markup::has_pe_reference;

// An unread declaration: its first byte, one past its last, and whether a parameter-entity reference came before it between
// declarations, with which the walk goes on at the second place.
#[derive(Clone, Copy, Debug, PartialEq, Eq)]
pub struct Unread {
    pub first: usize,
    pub past: usize,
    pub pe_used: bool,
}

// Whether the entry from `first` to `past` is a declaration that goes unread: the instructions and comments between declarations, and
// the references themselves, never do. (Place, end and kind are what the walk has just found: a struct of them would be built for one call.)
#[tactic(auto, using(crate::proofs::Walking::telling))]
fn is_unread(s: &[u8], first: usize, past: usize, kind: Kind, pe_used: bool, names: Names) -> bool
    requires { Holds (kind_of kind) s.now first past }
    ensures { result ≡ unread_there (dialect names) pe_used (kind_of kind) s.now first past }
{
    let Some(size) = keyword_size(kind) else {
        return false;
    };
    if pe_used {
        return true;
    }
    let from = first + size;
    let to = past - 1;
    has_pe_reference(&s[from..to], names)
}

// The first declaration from `at` on that goes unread, where `pe_used` says whether a reference came before `at`. (By `.ok()?` in place of the
// `let .. else` the proof did not close.)
#[tactic(auto, using(crate::proofs::Walking::walking))]
pub fn next_unread(s: &[u8], at: usize, pe_used: bool, names: Names) -> Option<Unread>
    ensures { Finds (dialect names) s.now pe_used at result }
{
    let mut pe = pe_used;
    let mut i = at;
    loop {
        let here = skip_s(s, i);
        let Ok(j) = entry_end(s, here, names) else {
            return None;
        };
        let kind = kind_at(s, here);
        if is_unread(s, here, j, kind, pe, names) {
            return Some(Unread {
                first: here,
                past: j,
                pe_used: pe,
            });
        }
        pe = referred(pe, kind);
        i = j;
    }
}
