// The checks, which answer with a number of the table of docs/SCOPE.md. Each function is a name of the C interface, so none goes into another
// that takes the names or the check as a parameter: C has no generics.
ghost use Rattle.spec.specs.Grammar.AppendixB.{appendix_b};
ghost use Rattle.spec.specs.Grammar.Characters.{Chars};
ghost use Rattle.spec.specs.Grammar.FifthEdition.{fifth_edition};
ghost use Rattle.spec.specs.Grammar.Names.{Name};
ghost use Rattle.spec.specs.Grammar.References.{Referred, CharData, AttText};
ghost use Rattle.spec.specs.Grammar.XmlDecl.{XMLDecl};
ghost use Rattle.spec.specs.Reading.Checks.{check_declaration};
ghost use Rattle.spec.specs.Reading.Wellformed.{check_chars, check_char_refs, check_text, check_attr_value, check_name};
ghost use Rattle.spec.specs.Promises.{Checks, ChecksDoctype};

use classes::Names;
use error::code;

#[unsafe(no_mangle)]
pub extern "C" fn moxkeldi_check_chars(text: &[u8]) -> u8
    ensures { Checks check_chars Chars text.now result }
{
    code(chars::check_chars(text))
}

#[unsafe(no_mangle)]
pub extern "C" fn moxkeldi_check_text(text: &[u8]) -> u8
    ensures { Checks check_text CharData text.now result }
{
    code(wellformed::check_text(text))
}

#[unsafe(no_mangle)]
pub extern "C" fn moxkeldi_check_attr_value(text: &[u8]) -> u8
    ensures { Checks check_attr_value AttText text.now result }
{
    code(wellformed::check_attr_value(text))
}

#[unsafe(no_mangle)]
pub extern "C" fn moxkeldi_check_char_refs(text: &[u8]) -> u8
    ensures { Checks check_char_refs Referred text.now result }
{
    code(chars::check_char_refs(text))
}

#[tactic(auto, unfolding(classes::specs::Classes::dialect))]
#[unsafe(no_mangle)]
pub extern "C" fn moxkeldi_check_name(text: &[u8]) -> u8
    ensures { Checks (check_name appendix_b) (Name appendix_b) text.now result }
{
    code(names::check_name(text, Names::AppendixB))
}

#[tactic(auto, unfolding(classes::specs::Classes::dialect))]
#[unsafe(no_mangle)]
pub extern "C" fn moxkeldi_check_doctype(text: &[u8]) -> u8
    ensures { ChecksDoctype appendix_b text.now result }
{
    code(dtd::check_doctype(text, Names::AppendixB))
}

#[tactic(auto, unfolding(classes::specs::Classes::dialect))]
#[unsafe(no_mangle)]
pub extern "C" fn moxkeldi_check_name_fifth(text: &[u8]) -> u8
    ensures { Checks (check_name fifth_edition) (Name fifth_edition) text.now result }
{
    code(names::check_name(text, Names::FifthEdition))
}

#[tactic(auto, unfolding(classes::specs::Classes::dialect))]
#[unsafe(no_mangle)]
pub extern "C" fn moxkeldi_check_doctype_fifth(text: &[u8]) -> u8
    ensures { ChecksDoctype fifth_edition text.now result }
{
    code(dtd::check_doctype(text, Names::FifthEdition))
}

#[unsafe(no_mangle)]
pub extern "C" fn moxkeldi_check_declaration(text: &[u8]) -> u8
    ensures { Checks check_declaration XMLDecl text.now result }
{
    code(checks::check_declaration(text))
}
