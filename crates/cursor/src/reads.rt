// A reader as a value, for readers that are handed another one: the text of a literal, an item of a list, a declaration's body.
ghost use Rattle.std.specs.Prelude.{◌≡◌};
ghost use Rattle.spec.specs.Reading.Readers.{Reader};
ghost use Rattle.error.specs.Read.{said, read};

use error::Answer;

// A trait and no closure, since the contract of whoever is handed one speaks of its `reader`. An instance is a line for each member.
pub trait Reads {
    // The reader of the order of reading that it is.
    ghost reader: { Self → Reader };

    fn read(&self, s: &[u8], at: usize) -> Answer
        ensures { said result ≡ read (reader self.now) s.now at };
}
