// The library's verdict on a file, with places counted from behind the byte order mark.
use classes::Names;
use document::{check_document, mark_length};
use encodings::{Wide, looks_like};
use entries::{Unread, UnreadEntries};
use error::Refusal;

// Not the library's: places are counted from behind the mark here, and the command has no use for the root.
#[derive(Clone, Copy)]
pub struct Accepted {
    pub doctype: Option<Doctype>,
}

// Where a DOCTYPE's text begins and ends, and how many of its declarations were not read.
#[derive(Clone, Copy)]
pub struct Doctype {
    start: usize,
    end: usize,
    pub unread: usize,
}

#[derive(Clone, Copy)]
pub struct Refused {
    pub refusal: Refusal,
    pub place: usize,
    // Of what does not end, or goes on beyond what is held, where it was opened.
    pub opened: Option<usize>,
}

// Judges what is held of a file, which is whole or goes on.
pub fn judge(held: &[u8], whole: bool, names: Names) -> Result<Accepted, Refused> {
    let mark = mark_length(held);
    // Field by field, since these are other records than the library's: their places count from behind the mark.
    match check_document(held, whole, names) {
        Ok(said) => Ok(Accepted {
            doctype: said.doctype.map(|text| Doctype {
                start: text.start.saturating_sub(mark),
                end: text.end.saturating_sub(mark),
                unread: said.unread,
            }),
        }),
        Err(said) => {
            let goes_on = matches!(said.refusal, Refusal::Unterminated | Refusal::TooLong);
            let opened = said.opened.saturating_sub(mark);
            Err(Refused {
                refusal: said.refusal,
                place: said.at.place.saturating_sub(mark),
                opened: (goes_on && said.opened != said.at.place).then_some(opened),
            })
        }
    }
}

// The text behind the mark.
pub fn unmarked(held: &[u8]) -> &[u8] {
    held.get(mark_length(held)..).unwrap_or_default()
}

impl Refused {
    // The encoding that the text looks like, where it is refused for its encoding.
    pub fn encoding(&self, text: &[u8]) -> Option<&'static str> {
        if self.refusal != Refusal::NotUtf8 {
            return None;
        }
        looks_like(text).map(|wide| match wide {
            Wide::Utf16Be => "UTF-16, high byte first",
            Wide::Utf16Le => "UTF-16, low byte first",
            Wide::Utf32Be => "UTF-32, high byte first",
            Wide::Utf32Le => "UTF-32, low byte first",
        })
    }
}

impl Doctype {
    // The declarations that were not read.
    pub fn unread_entries(self, text: &[u8], names: Names) -> UnreadEntries<'_> {
        let part = text.get(self.start..self.end).unwrap_or_default();
        UnreadEntries::new(part, names)
    }

    // Where one of them stands: its own places count from the DOCTYPE's start.
    pub fn place_of(self, unread: Unread) -> usize {
        self.start.saturating_add(unread.first)
    }
}
