// Appendix F: an encoding of two or four bytes a character, by the first bytes of a document.
ghost use Rattle.std.specs.Prelude.{◌≡◌, ◌||◌};
ghost use Rattle.spec.specs.Grammar.Encodings.{looks_like};
ghost use Rattle.spec.specs.Reading.Readers.{starts};
ghost use Rattle.encodings.specs.Codings.{width};

// What the first bytes show, if it is one of these. Else ASCII's characters are one byte each, or nothing is known.
#[derive(Clone, Copy, Debug, PartialEq, Eq)]
pub enum Wide {
    Utf16Be,
    Utf16Le,
    Utf32Be,
    Utf32Le,
}

// Whether a text begins with one of two words: a byte order mark, or '<' in that encoding.
#[tactic(auto, using(crate::proofs::Looking::begun))]
fn begins(text: &[u8], mark: &[u8], sign: &[u8]) -> bool
    ensures { result ≡ (starts mark.now text.now || starts sign.now text.now) }
{
    text.starts_with(mark) || text.starts_with(sign)
}

// UTF-32 comes first: its mark with the low byte in front begins with that of UTF-16.
#[tactic(auto, using(crate::proofs::Looking::looking))]
pub fn looks_like(text: &[u8]) -> Option<Wide>
    ensures { width result ≡ looks_like text.now }
{
    if begins(text, b"\x00\x00\xFE\xFF", b"\x00\x00\x00<") {
        return Some(Wide::Utf32Be);
    }
    if begins(text, b"\xFF\xFE\x00\x00", b"<\x00\x00\x00") {
        return Some(Wide::Utf32Le);
    }
    if begins(text, b"\xFE\xFF", b"\x00<") {
        return Some(Wide::Utf16Be);
    }
    if begins(text, b"\xFF\xFE", b"<\x00") {
        return Some(Wide::Utf16Le);
    }
    None
}
