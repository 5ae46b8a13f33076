// The calls that keep no record. (Those that do are in gates.rt.)
use crate::reply::Reply;
use classes::Names;
use document::check_document;

// What the call named `word` answers on `text`, or `None` where the call is not known. A new call is
// one more arm.
pub fn ask(word: &[u8], text: &[u8]) -> Option<Reply> {
    let reply = match word {
        b"check_chars" => Reply::Checked(chars::check_chars(text)),
        b"check_text" => Reply::Checked(wellformed::check_text(text)),
        b"check_attr_value" => Reply::Checked(wellformed::check_attr_value(text)),
        b"check_char_refs" => Reply::Checked(chars::check_char_refs(text)),
        b"check_name" => Reply::Checked(names::check_name(text, Names::AppendixB)),
        b"check_name_fifth" => Reply::Checked(names::check_name(text, Names::FifthEdition)),
        b"check_doctype" => Reply::Checked(dtd::check_doctype(text, Names::AppendixB)),
        b"check_doctype_fifth" => Reply::Checked(dtd::check_doctype(text, Names::FifthEdition)),
        b"check_declaration" => Reply::Checked(checks::check_declaration(text)),
        b"check_chars_at" => Reply::Placed(chars::check_chars_at(text)),
        b"check_text_at" => Reply::Placed(wellformed::check_text_at(text)),
        b"check_attr_value_at" => Reply::Placed(wellformed::check_attr_value_at(text)),
        b"check_char_refs_at" => Reply::Placed(chars::check_char_refs_at(text)),
        b"check_name_at" => Reply::Placed(names::check_name_at(text, Names::AppendixB)),
        b"check_name_fifth_at" => Reply::Placed(names::check_name_at(text, Names::FifthEdition)),
        b"check_doctype_at" => Reply::Placed(dtd::check_doctype_at(text, Names::AppendixB)),
        b"check_doctype_fifth_at" => Reply::Placed(dtd::check_doctype_at(
            text,
            Names::FifthEdition,
        )),
        b"check_declaration_at" => Reply::Placed(checks::check_declaration_at(text)),
        b"check_document" => Reply::Judges(check_document(text, true, Names::AppendixB)),
        b"check_document_fifth" => Reply::Judges(check_document(text, true, Names::FifthEdition)),
        b"utf8" => Reply::Tells(source::is_utf8(text).map(|_| true)),
        b"is_ncname" => Reply::Tells(ncnames::is_ncname(text)),
        b"scan" => Reply::Scans(scan::scan(text)),
        b"name_part" => name_part(text),
        b"doctype_name" => Reply::Measure('l', lent::doctype_name(text).len()),
        b"is_blank" => Reply::Letter(if lent::is_blank(text) { 'y' } else { 'n' }),
        b"first_byte" => first_byte(text),
        _ => return None,
    };
    Some(reply)
}

// The length of the name that `text` begins with, where the text may be read at all.
fn name_part(text: &[u8]) -> Reply {
    match source::admit(text) {
        Ok(()) => {
            let name = names::parse_name(text, 0, Names::AppendixB);
            Reply::Measure('l', name.len())
        }
        Err(refusal) => Reply::Checked(Err(refusal)),
    }
}

fn first_byte(text: &[u8]) -> Reply {
    match lent::first_byte(text) {
        Some(byte) => Reply::Measure('b', usize::from(byte)),
        None => Reply::Letter('-'),
    }
}
