// Processing instructions.
// Text, place and names stay three parameters (classes/src/lib.rt says why).
ghost use Rattle.std.specs.Prelude.{◌≡◌, drop};
ghost use Rattle.spec.specs.Reading.Dtd.{reserved, check_pi, parse_pi};
ghost use Rattle.error.specs.Read.{said, read};
ghost use Rattle.classes.specs.Classes.{dialect};
ghost use Rattle.markup.specs.Targets.{target_ends};

use classes::Names;
use cursor::{Reads, eat_str, is_space, parse_up_to};
use error::{Answer, Refusal};
use names::parse_name;
use search::find_byte;

// The target "xml", in any case.
fn is_reserved(t: &[u8]) -> bool
    ensures { result ≡ reserved t.now }
{
    t.eq_ignore_ascii_case(b"xml")
}

// What a target ends before: white space, or the text's end.
fn ends_target(t: &[u8], at: usize) -> bool
    ensures { result ≡ target_ends (drop at t.now) }
{
    t.get(at).is_none_or(|&b| is_space(b))
}

// What stands between "<?" and "?>", t from `at` on, of which only [17] PITarget is looked at: check_name, reject_colon, and not the reserved
// name, in that order. White space ends a target and is no part of a name, so the target is the name that stands here, if it ends there.
#[tactic(auto, using(crate::proofs::Targets::targets))]
fn check_pi(t: &[u8], at: usize, names: Names) -> Answer
    ensures { said result ≡ read (check_pi (dialect names)) t.now at }
{
    let target = parse_name(t, at, names);
    if target.len() == 0 {
        return Err(Refusal::BadName.at(at));
    }
    let e = at + target.len();
    if !ends_target(t, e) {
        return Err(Refusal::BadName.at(e));
    }
    if let Some(j) = find_byte(target, 0, b':') {
        return Err(Refusal::HasColon.at(at + j));
    }
    if is_reserved(target) {
        return Err(Refusal::ReservedTarget.at(at));
    }
    Ok(at)
}

// It as a reader, by the names of a dialect.
#[derive(Clone, Copy)]
struct InstructionText(Names);

impl Reads for InstructionText {
    ghost reader = { λ x. check_pi (dialect x.0) };

    fn read(&self, t: &[u8], at: usize) -> Answer {
        check_pi(t, at, self.0)
    }
}

// parse_pi, [16] PI: from "<?" to the first "?>".
#[tactic(auto, using(cursor::proofs::Reading::reading), unfolding(spec::specs::Reading::Dtd::parse_pi))]
pub fn parse_pi(s: &[u8], at: usize, names: Names) -> Answer
    ensures { said result ≡ read (parse_pi (dialect names)) s.now at }
{
    let from = eat_str(s, at, b"<?", Refusal::Unexpected)?;
    parse_up_to(s, from, b"?>", &InstructionText(names))
}
