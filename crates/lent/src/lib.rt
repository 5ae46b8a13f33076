// The Cursor of dtd.rs as a struct that refers to the lent text. Where the Rust moves the cursor that it was lent, skip_s hands back a
// cursor that has moved.
#![tactic(auto)]

ghost use Rattle.std.specs.Prelude.{◌≡◌, ◌+◌, leb, length, take, drop};
ghost use Rattle.spec.specs.Grammar.AppendixB.{appendix_b};
ghost use Rattle.spec.specs.Grammar.Characters.{space};
ghost use Rattle.spec.specs.Reading.Readers.{run};
ghost use Rattle.names.specs.NamePart.{NamePart};
ghost use Rattle.lent.specs.Places.{Stands, next};

use classes::Names;

#[derive(Clone, Copy)]
pub struct Cursor<'a> {
    pub text: &'a [u8],
    pub at: usize,
}

impl<'a> Cursor<'a> {
    pub fn new(text: &'a [u8]) -> Cursor<'a>
        ensures { Stands result text.entry 0 }
    {
        Cursor { text, at: 0 }
    }

    // Nothing is left to read.
    pub fn at_end(self) -> bool
        ensures { result ≡ leb (length self.entry.text.now) self.entry.at }
    {
        self.text.len() <= self.at
    }

    // The next byte, where the Rust gives the next character.
    pub fn peek(self) -> Option<u8>
        ensures { next result ≡ take 1 (drop self.entry.at self.entry.text.now) }
    {
        self.text.get(self.at).copied()
    }

    // S?: the cursor after the white space.
    pub fn skip_s(self) -> Cursor<'a>
        ensures { Stands result self.entry.text (self.entry.at + run space (drop self.entry.at self.entry.text.now)) }
    {
        let at = cursor::skip_s(self.text, self.at);
        Cursor { at, ..self }
    }

    // The name at the cursor, a part of the text: empty where none begins.
    pub fn parse_name(self) -> &'a [u8]
        ensures { NamePart appendix_b (drop self.entry.at self.entry.text.now) result.now }
    {
        names::parse_name(self.text, self.at, Names::AppendixB)
    }
}

// Three questions of what follows leading white space, each a call and two methods, with nothing more to share. The document type's name:
// the name after the text's leading white space, empty where none begins.
pub fn doctype_name<'a>(text: &'a [u8]) -> &'a [u8]
    ensures { NamePart appendix_b (drop (run space text.now) text.now) result.now }
{
    Cursor::new(text).skip_s().parse_name()
}

// Whether the text is white space alone.
pub fn is_blank(text: &[u8]) -> bool
    ensures { result ≡ leb (length text.now) (run space text.now) }
{
    Cursor::new(text).skip_s().at_end()
}

// The first byte after the text's leading white space.
pub fn first_byte(text: &[u8]) -> Option<u8>
    ensures { next result ≡ take 1 (drop (run space text.now) text.now) }
{
    Cursor::new(text).skip_s().peek()
}
