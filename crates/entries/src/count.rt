// The declarations of a DOCTYPE's text that go unread, one after another: where the walk over them begins, and how many they are.
ghost use Rattle.std.specs.Prelude.{◌≡◌, ◌-◌, false, length};
ghost use Rattle.std.specs.Iterator.{at_most};
ghost use Rattle.spec.specs.Reading.Entries.{declarations};
ghost use Rattle.spec.specs.Unread.{unread_entries};
ghost use Rattle.classes.specs.Classes.{dialect};
ghost use Rattle.entries.specs.Walk.{walk_start, unread_from};

use crate::walk::{Unread, next_unread};
use classes::Names;
use scan::subset_open;
use search::has_byte;

// Where the walk begins: after the subset's '[', or at the text's end where it has none.
#[tactic(auto, using(crate::proofs::Counting::starting))]
pub fn first_place(s: &[u8]) -> usize
    ensures { result ≡ walk_start s.now }
{
    match subset_open(s) {
        Some(i) => i + 1,
        None => s.len(),
    }
}

// The walk over a DOCTYPE's text, which stands at `place`; `pe_used` says whether a reference came before that.
#[derive(Clone, Copy, Debug)]
pub struct UnreadEntries<'a> {
    text: &'a [u8],
    place: usize,
    pe_used: bool,
    names: Names,
}

impl<'a> UnreadEntries<'a> {
    ghost use Rattle.entries.specs.Left.{unread_left};

    // No reference comes before the first entry.
    #[tactic(auto, unfolding(crate::specs::Left::unread_left))]
    pub fn new(text: &'a [u8], names: Names) -> UnreadEntries<'a>
        ensures { unread_left result ≡ unread_from (dialect names) text.now false (walk_start text.now) }
    {
        UnreadEntries {
            text,
            place: first_place(text),
            pe_used: false,
            names,
        }
    }
}

impl Iterator for UnreadEntries<'_> {
    ghost use Rattle.entries.specs.Left.{GivesUnread};

    type Item = Unread;

    ghost next_gives = { GivesUnread };

    // Each item takes a byte or more of the text.
    ghost remaining = { λ walk. at_most (length walk.text.now - walk.place) };

    #[tactic(auto, unfolding(crate::specs::Left::unread_left))]
    fn next(&mut self) -> Option<Unread> {
        let unread = next_unread(self.text, self.place, self.pe_used, self.names)?;
        self.place = unread.past;
        self.pe_used = unread.pe_used;
        Some(unread)
    }
}

// How many declarations of a DOCTYPE's text go unread. Most texts have no '%', and one search tells that none does.
#[tactic(auto, using(crate::proofs::Counting::count_none))]
pub fn count_unread(s: &[u8], names: Names) -> usize
    ensures { result ≡ length (unread_entries (dialect names) s.now false (declarations (dialect names) s.now)) }
{
    if has_byte(s, b'%') {
        return UnreadEntries::new(s, names).count();
    }
    0
}
