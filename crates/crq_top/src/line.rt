//! Fault lines, which take no memory.

ghost use Rattle.std.specs.Prelude.{◌≡◌, ◌+◌, ◌<◌, ◌≤◌, ◌^◌, ◌∷◌, ◌++◌, [], length, decimal, codes};
ghost use Rattle.crq_top.specs.Endings.{line_of};
ghost use Rattle.crq_top.specs.Lines.{fault_line, numbers_after};

use crate::ending::Ending;
use itoa::Buffer;
use std::marker;

/// Room for the word, three numbers of at most 20 digits with a space before each, and the newline.
const ROOM: usize = 80;

/// The bytes of a line in a buffer of its own.
#[derive(Drop)]
pub(crate) struct Line {
    bytes: [u8; ROOM],
    len: usize,
}

impl marker::Model for Line {
    ghost use Rattle.std.specs.Prelude.{List, ℕ, ◌≤◌, take};

    ghost Value = { List ℕ };

    ghost view = { λ l. take l.len l.bytes };

    ghost invariant = { λ l. l.len ≤ 80 };
}

impl Line {
    /// No byte yet.
    fn empty() -> Line
        ensures { result ≡ [] }
    {
        Line {
            bytes: [0; ROOM],
            len: 0,
        }
    }

    /// The bytes.
    pub fn as_slice(&self) -> &[u8]
        ensures { result.now ≡ self.now }
    {
        &self.bytes[..self.len]
    }

    /// Adds bytes that fit.
    fn push(&mut self, bytes: &[u8])
        requires { length self.old + length bytes.now ≤ 80 }
        ensures { self.new ≡ self.old ++ bytes.now }
    {
        let end = self.len + bytes.len();
        self.bytes[self.len..end].copy_from_slice(bytes);
        self.len = end;
    }
}

/// The line of a fault with at most three numbers.
fn fault_line(numbers: &[u64]) -> Line
    requires { length numbers.now ≤ 3 }
    ensures { result ≡ fault_line numbers.now }
{
    let mut line = Line::empty();
    line.push(b"fault");
    for number in numbers {
        let mut buffer = Buffer::new();
        line.push(b" ");
        line.push(buffer.format(*number).as_bytes());
    }
    line.push(b"\n");
    line
}

/// The line that tells of an ending.
pub(crate) fn line_of(ending: &Ending) -> Line
    ensures { result ≡ line_of ending.now }
{
    match ending {
        Ending::Ok | Ending::Memory | Ending::Write => Line::empty(),
        Ending::Usage => fault_line(&[1]),
        Ending::Model(fault) => fault_line(&[
            2,
            u64::from(fault.number.number()),
            u64::from(fault.at),
        ]),
        Ending::Read => fault_line(&[4]),
        Ending::Long => fault_line(&[6]),
        Ending::Events(window) => fault_line(&[7, u64::from(*window)]),
        Ending::Rows(window, pending) => {
            fault_line(&[8, u64::from(*window), u64::from(*pending)])
        }
    }
}
