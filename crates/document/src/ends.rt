// What does not end in a text, by the fault that is met in it, and where it was opened.
ghost use Rattle.std.specs.Prelude.{◌≡◌};
ghost use Rattle.spec.specs.Reading.Verdict.{in_declaration, last_less, sign_at, unended};
ghost use Rattle.error.specs.Read.{reason};

use checks::is_declaration;
use error::{Fault, Refusal};
use search::find;
use utf8::byte_at;

// A place within [23] XMLDecl that has its "?>".
#[tactic(auto, using(crate::proofs::Unended::declared_in))]
fn in_declaration(x: &[u8], k: usize) -> bool
    ensures { result ≡ in_declaration k x.now }
{
    is_declaration(x, 0) && find(x, 0, b"?>").is_some_and(|j| k <= j)
}

// What is refused there does not end in the text. A literal of an XML declaration ends with it, so there it is a refusal as any other.
#[tactic(auto, using(crate::proofs::Unended::declared_in), unfolding(spec::specs::Reading::Verdict::unended))]
pub fn is_unended(x: &[u8], fault: Fault) -> bool
    ensures { result ≡ unended (reason fault.refusal) fault.place x.now }
{
    matches!(fault.refusal, Refusal::Unterminated) && !in_declaration(x, fault.place)
}

// The last '<' before k, or the text's first place.
#[tactic(auto, using(crate::proofs::Unended::signs))]
fn last_less(x: &[u8], k: usize) -> usize
    ensures { result ≡ last_less k x.now }
{
    x[..k.min(x.len())]
        .iter()
        .rposition(|&b| b == b'<')
        .unwrap_or(0)
}

// Where the sign begins that ends at k: a quote mark is one byte, and all others begin with '<'.
#[tactic(auto, using(crate::proofs::Unended::signs))]
pub fn sign_at(x: &[u8], k: usize) -> usize
    ensures { result ≡ sign_at k x.now }
{
    if k == 0 {
        return 0;
    }
    if matches!(byte_at(x, k - 1), b'"' | b'\'') {
        return k - 1;
    }
    last_less(x, k)
}
