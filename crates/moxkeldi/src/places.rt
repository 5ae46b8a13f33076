// The checks once more, with the place where reading stopped: the place of the refusal, or the text's end. Each function is a name of the C
// interface, as in numbers.rt.
ghost use Rattle.std.specs.Prelude.{◌≡◌};
ghost use Rattle.spec.specs.Grammar.AppendixB.{appendix_b};
ghost use Rattle.spec.specs.Grammar.FifthEdition.{fifth_edition};
ghost use Rattle.spec.specs.Reading.Checks.{check_declaration};
ghost use Rattle.spec.specs.Reading.Dtd.{check_doctype};
ghost use Rattle.spec.specs.Reading.Wellformed.{check_chars, check_char_refs, check_text, check_attr_value, check_name};
ghost use Rattle.spec.specs.Promises.{Stops};
ghost use Rattle.error.specs.Read.{answer_number, answer_place};

use classes::Names;
use error::Answer;

// The place in *place, and the number, since C takes numbers.
fn tell(answer: Answer, place: &mut usize) -> u8
    ensures number { result ≡ answer_number answer }
    ensures place { place.new ≡ answer_place answer }
{
    match answer {
        Ok(end) => {
            *place = end;
            0
        }
        Err(fault) => {
            *place = fault.place;
            fault.refusal.number()
        }
    }
}

#[unsafe(no_mangle)]
pub extern "C" fn moxkeldi_check_chars_at(text: &[u8], place: &mut usize) -> u8
    ensures { Stops check_chars text.now result place.new }
{
    tell(chars::check_chars_at(text), place)
}

#[unsafe(no_mangle)]
pub extern "C" fn moxkeldi_check_text_at(text: &[u8], place: &mut usize) -> u8
    ensures { Stops check_text text.now result place.new }
{
    tell(wellformed::check_text_at(text), place)
}

#[unsafe(no_mangle)]
pub extern "C" fn moxkeldi_check_attr_value_at(text: &[u8], place: &mut usize) -> u8
    ensures { Stops check_attr_value text.now result place.new }
{
    tell(wellformed::check_attr_value_at(text), place)
}

#[unsafe(no_mangle)]
pub extern "C" fn moxkeldi_check_char_refs_at(text: &[u8], place: &mut usize) -> u8
    ensures { Stops check_char_refs text.now result place.new }
{
    tell(chars::check_char_refs_at(text), place)
}

#[tactic(auto, unfolding(classes::specs::Classes::dialect))]
#[unsafe(no_mangle)]
pub extern "C" fn moxkeldi_check_name_at(text: &[u8], place: &mut usize) -> u8
    ensures { Stops (check_name appendix_b) text.now result place.new }
{
    tell(names::check_name_at(text, Names::AppendixB), place)
}

#[tactic(auto, unfolding(classes::specs::Classes::dialect))]
#[unsafe(no_mangle)]
pub extern "C" fn moxkeldi_check_doctype_at(text: &[u8], place: &mut usize) -> u8
    ensures { Stops (check_doctype appendix_b) text.now result place.new }
{
    tell(dtd::check_doctype_at(text, Names::AppendixB), place)
}

#[tactic(auto, unfolding(classes::specs::Classes::dialect))]
#[unsafe(no_mangle)]
pub extern "C" fn moxkeldi_check_name_fifth_at(text: &[u8], place: &mut usize) -> u8
    ensures { Stops (check_name fifth_edition) text.now result place.new }
{
    tell(names::check_name_at(text, Names::FifthEdition), place)
}

#[tactic(auto, unfolding(classes::specs::Classes::dialect))]
#[unsafe(no_mangle)]
pub extern "C" fn moxkeldi_check_doctype_fifth_at(text: &[u8], place: &mut usize) -> u8
    ensures { Stops (check_doctype fifth_edition) text.now result place.new }
{
    tell(dtd::check_doctype_at(text, Names::FifthEdition), place)
}

#[unsafe(no_mangle)]
pub extern "C" fn moxkeldi_check_declaration_at(text: &[u8], place: &mut usize) -> u8
    ensures { Stops check_declaration text.now result place.new }
{
    tell(checks::check_declaration_at(text), place)
}
