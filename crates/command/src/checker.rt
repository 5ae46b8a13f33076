// The check of one file after another.
use crate::console::{Failure, Output};
use crate::files::{HELD, Source};
use crate::options::Manner;
use crate::report::{Document, NotRead, Report};
use crate::status::Status;
use crate::verdict::judge;
use std::alloc::AllocError;

// What the check of each file uses. Its buffers are made once, and not for each file.
#[derive(Drop)]
pub struct Checker<'a> {
    rt: &'a HostRuntime,
    manner: Manner,
    held: Vec<u8>,
    output: Output<'a>,
}

impl<'a> Checker<'a> {
    pub fn new(rt: &'a HostRuntime, manner: Manner) -> Result<Checker<'a>, AllocError> {
        Ok(Checker {
            rt,
            manner,
            // A byte more than is read of any file: a buffer that is full is made larger before the end is seen.
            held: Vec::with_capacity(rt.alloc(), HELD + 2)?,
            output: Output::new(rt)?,
        })
    }

    pub fn check_all(&mut self, sources: &[Source]) -> Status {
        let mut worst = Status::Good;
        for source in sources {
            let status = match self.check(source) {
                Ok(status) => status,
                Err(failure) => {
                    failure.tell(self.rt, source);
                    Status::Failed
                }
            };
            worst = worst.max(status);
        }
        worst
    }

    fn check(&mut self, source: &Source) -> Result<Status, Failure> {
        let name = source.name()?;
        source.read(self.rt, &mut self.held)?;
        let whole = self.held.len() <= HELD;
        let text = self.held.get(..HELD).unwrap_or(self.held.as_slice());
        let document = Document::new(name, text);
        let verdict = judge(text, whole, self.manner.names);
        let status = match verdict {
            Ok(_) => Status::Good,
            Err(_) => Status::Refused,
        };
        if self.manner.quiet {
            return Ok(status);
        }
        self.output.say(Report { document, verdict })?;
        if self.manner.verbose
            && let Ok(accepted) = verdict
            && let Some(doctype) = accepted.doctype
            && doctype.unread > 0
        {
            for unread in doctype.unread_entries(document.text, self.manner.names) {
                let at = doctype.place_of(unread);
                self.output.say(NotRead { document, at })?;
            }
        }
        Ok(status)
    }
}
