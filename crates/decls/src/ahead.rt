// What parse_entity_decl and parse_notation_decl look at before they go on.
ghost use Rattle.std.specs.Prelude.{◌≡◌, drop};
ghost use Rattle.decls.specs.Pieces.{quote_next, ndata_next, spaced};

use cursor::skip_s;
use search::at_keyword;

// A quote mark is next. Like a connector (crate models) it is one of two signs, and each has its own production.
pub fn at_quote(s: &[u8], at: usize) -> bool
    ensures { result ≡ quote_next (drop at s.now) }
{
    at_keyword(s, at, b"\"") | at_keyword(s, at, b"'")
}

// White space is next, and then a quote mark.
pub fn at_spaced_quote(s: &[u8], at: usize) -> bool
    ensures { result ≡ spaced quote_next (drop at s.now) }
{
    let i = skip_s(s, at);
    (at < i) & at_quote(s, i)
}

// White space is next, and then NDATA. (The two look for other things behind the same space: one function over a closure would be as long as
// either, and a function more.)
pub fn at_spaced_ndata(s: &[u8], at: usize) -> bool
    ensures { result ≡ spaced ndata_next (drop at s.now) }
{
    let i = skip_s(s, at);
    (at < i) & at_keyword(s, i, b"NDATA")
}
