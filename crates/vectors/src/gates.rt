// The gate's lines, which work on the record that the line before left, and whose answers show it.
use crate::calls;
use crate::reply::Reply;
use gate::Gate;
use std::fmt;

#[derive(Clone, Copy)]
pub struct Answer {
    reply: Reply,
    record: Option<Gate>,
}

// What the call named `word` answers on `text`, or `None` where the call is not known. `gate_set`
// calls nothing: its answer column holds the record that the next lines begin with.
pub fn ask(gate: &mut Gate, word: &[u8], wanted: &[u8], text: &[u8]) -> Option<Answer> {
    let reply = match word {
        b"gate_set" => {
            *gate = record(wanted);
            Reply::Letter('-')
        }
        b"decl" => Reply::Checked(gate.decl(text)),
        b"doctype0" => Reply::Docks(gate.doctype(0, text)),
        b"doctype1" => Reply::Docks(gate.doctype(1, text)),
        b"doctype2" => Reply::Docks(gate.doctype(2, text)),
        _ => {
            return calls::ask(word, text).map(|reply| Answer {
                reply,
                record: None,
            });
        }
    };
    Some(Answer {
        reply,
        record: Some(*gate),
    })
}

// The record that `-/1/0/0/256` writes, whose number has up to five digits. A column of another form
// gives a record that is written otherwise, so that its line differs.
fn record(column: &[u8]) -> Gate {
    let is_one = |at: usize| column.get(at) == Some(&b'1');
    let refused = column
        .iter()
        .skip(8)
        .take(5)
        .filter_map(|byte| char::from(*byte).to_digit(10))
        .fold(0u32, |number, digit| {
            number.saturating_mul(10).saturating_add(digit)
        });
    Gate {
        started: is_one(2),
        seen: is_one(4),
        open: is_one(6),
        refused: u16::try_from(refused).unwrap_or(u16::MAX),
    }
}

// The record stands behind the reply, as in `21/1/0/0/256`.
impl fmt::Display for Answer {
    fn fmt<W: fmt::Write>(&self, f: &mut fmt::Formatter<W>) -> fmt::Result {
        write!(f, "{}", self.reply)?;
        if let Some(gate) = &self.record {
            let [started, seen, open] = [gate.started, gate.seen, gate.open].map(u8::from);
            let refused = gate.refused;
            write!(f, "/{started}/{seen}/{open}/{refused}")?;
        }
        Ok(())
    }
}
