// How the command is called.
use crate::escape::Escaped;
use crate::options::Misuse;
use std::fmt;

// On standard error, for a call that cannot be understood.
const USAGE: &str =
    "usage: moxkeldi [-q | -v] [--fifth-edition] FILE...    (- is standard input; --help says more)";

pub const VERSION: &str = "moxkeldi 0.3.0\n";

pub const HELP: &str = "usage: moxkeldi [-q | -v] [--fifth-edition] FILE...

Checks the prolog of each XML file: the XML declaration, comments,
instructions and the DOCTYPE with its declarations, up to the root element.
Says on a line:
  FILE: accepted
  FILE: accepted, no DOCTYPE
  FILE: accepted, N declarations not read (parameter entities)
  FILE:LINE:COLUMN: refused with NUMBER: the number in words
and under a refusal the line in question, with a caret under the place; of
what does not end also where it was opened. The column counts characters.
A FILE of - is standard input.

  -q               say nothing; the exit status tells
  -v               also say where declarations were not read
  --fifth-edition  judge by the names of XML 1.0's fifth edition; without
                   it, and in the library's gate, names are those of the
                   earlier editions' Appendix B
  --numbers        print the numbers and their words
  --version        print the version
  -h, --help       print this
  --               only files follow

Accepted means that the prolog is as the grammar of XML 1.0 has it, in UTF-8.
Entities are not expanded, and what follows the root's name is not looked at.

Exit status: 0 all accepted; 1 one or more refused; 2 a file could not be read,
or wrong usage.
";

impl fmt::Display for Misuse<'_> {
    fn fmt<W: fmt::Write>(&self, f: &mut fmt::Formatter<W>) -> fmt::Result {
        match self {
            Misuse::Unknown(word) => {
                let word = Escaped(word);
                write!(f, "moxkeldi: unknown option {word}\n{USAGE}")
            }
            Misuse::NoFile => write!(f, "{USAGE}"),
            Misuse::InputTwice => write!(
                f,
                "moxkeldi: - is given twice, and standard input can be read only once\n{USAGE}"
            ),
        }
    }
}
