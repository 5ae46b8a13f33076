// What the value of a pseudo attribute may be: is_version_num and is_enc_name of checks.rs, and the test for yes or no.
ghost use Rattle.std.specs.Prelude.{◌≡◌, Bool, List, ℕ};
ghost use Rattle.spec.specs.Grammar.References.{digit};
ghost use Rattle.spec.specs.Grammar.XmlDecl.{enc_char};
ghost use Rattle.spec.specs.Grammar.Characters.{latin_letter};
ghost use Rattle.spec.specs.Reading.Checks.{all_of, is_version_num, is_enc_name, is_yes_or_no};

// The test that a value has to pass.
pub trait Value {
    ghost test: { List ℕ → Bool };

    fn is_value(v: &[u8]) -> bool
        ensures { result ≡ test v.now };
}

fn is_digit(b: u8) -> bool
    ensures { result ≡ digit b }
{
    b.is_ascii_digit()
}

fn is_latin_letter(b: u8) -> bool
    ensures { result ≡ latin_letter b }
{
    b.is_ascii_alphabetic()
}

// What an encoding's name goes on with.
fn is_enc_char(b: u8) -> bool
    ensures { result ≡ enc_char b }
{
    is_latin_letter(b) | is_digit(b) | (b == b'.') | (b == b'_') | (b == b'-')
}

// Whether v is digits alone. No early exit, so that it becomes vector code (docs/DECISIONS.md says why).
#[tactic(auto, using(crate::proofs::Valuing::all_of_them))]
fn all_digits(v: &[u8]) -> bool
    ensures { result ≡ all_of digit v.now }
{
    let mut all = true;
    for b in v {
        all = all & is_digit(*b);
    }
    all
}

// [26] VersionNum. One digit at least follows the dot.
pub struct VersionNum;

impl Value for VersionNum {
    ghost test = { is_version_num };

    #[tactic(auto, using(crate::proofs::Valuing::valuing))]
    fn is_value(v: &[u8]) -> bool {
        match v.strip_prefix(b"1.") {
            Some(digits) => !digits.is_empty() && all_digits(digits),
            None => false,
        }
    }
}

// [81] EncName
pub struct EncName;

impl Value for EncName {
    ghost test = { is_enc_name };

    #[tactic(auto, using(crate::proofs::Valuing::valuing))]
    fn is_value(v: &[u8]) -> bool {
        match v {
            // no early exit, as in all_digits: by `all` a name whose signs are of no order takes 30 times as long
            [first, rest @ ..] => {
                is_latin_letter(*first) && rest.iter().fold(true, |all, &b| all & is_enc_char(b))
            }
            [] => false,
        }
    }
}

// ('yes' | 'no') of [32] SDDecl
pub struct YesOrNo;

impl Value for YesOrNo {
    ghost test = { is_yes_or_no };

    #[tactic(auto, using(crate::proofs::Valuing::valuing))]
    fn is_value(v: &[u8]) -> bool {
        v == b"yes".as_slice() || v == b"no".as_slice()
    }
}
