// The numbers in words, as the bindings have them.

// A row for each number, in their order: the number in two places, two spaces, and its words. It is one text, since
// --numbers prints it whole: a Display of Refusal would need a list of all refusals beside it to print the same.
pub const TABLE: &str =
    " 1  longer than 1,048,576 bytes, or a prolog that goes on beyond what is held
 2  not UTF-8, or another encoding is named
 3  white space is required
 4  a name, a token or a target is bad or missing
 5  a colon where none may stand
 6  a quoted literal is missing
 7  a literal, a declaration, a comment, an instruction or the subset does not end, or the text ends before the root
 8  another sign or word was expected
 9  something is left over at the end
10  a character that a public identifier must not hold
11  the target xml is reserved
12  -- in a comment
13  mixed connectors in a content model, or a mixed model with names that does not end in )*
14  < in an attribute value or default
15  a malformed character reference
16  a reference to a character that XML does not allow
17  the value of version, encoding or standalone
18  a character that XML does not allow
19  ]]> in text
20  more than 64 open groups in a content model
21  the declaration is not first, or the DOCTYPE is a second one or not in the prolog
";
// So many bytes of a row stand before its words.
const COLUMN: usize = 4;

// The words for a number; none where it has no row.
pub fn of(number: u8) -> Option<&'static str> {
    let row = usize::from(number).checked_sub(1)?;
    TABLE.lines().nth(row)?.get(COLUMN..)
}
