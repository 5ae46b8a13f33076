// Names without a colon: is_ncname of checks.rs.
#![tactic(auto)]

ghost use Rattle.spec.specs.Grammar.AppendixB.{appendix_b};
ghost use Rattle.spec.specs.Grammar.Names.{NCName};
ghost use Rattle.spec.specs.Promises.{Tells};
ghost use Rattle.error.specs.Read.{code, yes};

use classes::Names;
use error::Refusal;
use names::name_admitted;
use search::has_byte;
use source::admit;

// Namespaces [4] NCName
pub fn is_ncname(text: &[u8]) -> Result<bool, Refusal>
    ensures { Tells (NCName appendix_b) text.now (code result) (yes result) }
{
    admit(text)?;
    Ok(name_admitted(text, Names::AppendixB).is_ok() && !has_byte(text, b':'))
}
