//! A sink of bytes, and writing a text to it whole.

ghost use Rattle.std.specs.Prelude.{◌≡◌, ℕ, ◌<◌, ◌≤◌, List, length, take, Option, IfOk, IfErr, OnOk, OnErr};
ghost use Rattle.crq_io.specs.Faults.{Rose};
ghost use Rattle.crq_io.specs.Told.{Appends, IsPart};

/// The device failed, counted it, and took nothing.
#[derive(Clone, Copy, Debug, PartialEq, Eq)]
pub struct Failed;

/// The device failed when it had taken the first `sent` bytes, fewer than all.
#[derive(Clone, Copy, Debug, PartialEq, Eq)]
pub struct Cut {
    pub sent: usize,
}

/// A device that takes bytes, with a count of faults that never falls.
pub trait Sink {
    /// The bytes that were written so far, where they are told.
    ghost written: { Self → Option (List ℕ) };

    /// How often the device failed, at most 2^64 - 1.
    ghost faults: { Self → ℕ };

    /// Writes some first bytes of a piece, and answers how many: at least one, unless the piece is empty.
    fn write(&mut self, piece: &[u8]) -> Result<usize, Failed>
        ensures ok { IfOk result (λ n. IsPart n piece.now
            × Appends (written self.old) (written self.new) (take n piece.now)) }

        // A failure was counted in this call, and nothing was taken. The count never falls.
        ensures failed { OnErr result (Rose (faults self.old) (faults self.new)) }
        ensures nothing { OnErr result (written self.new ≡ written self.old) }
        ensures later { faults self.old ≤ faults self.new };
}

/// Writes all bytes, by as many calls as the sink wants. At the first call that fails it stops, and makes no call more:
/// that it makes none is only tested, since no clause of a sink counts its calls.
pub fn write_whole<S: Sink>(sink: &mut S, bytes: &[u8]) -> Result<(), Cut>
    ensures ok { OnOk result (Appends (S.written sink.old) (S.written sink.new) bytes.now) }
    ensures cut { IfErr result (λ c. (c.sent < length bytes.now)
        × Appends (S.written sink.old) (S.written sink.new) (take c.sent bytes.now)) }

    // A failure was counted in this call. The count never falls.
    ensures failed { OnErr result (Rose (S.faults sink.old) (S.faults sink.new)) }
    ensures later { S.faults sink.old ≤ S.faults sink.new }
{
    let mut sent = 0;
    while sent < bytes.len() {
        match sink.write(&bytes[sent..]) {
            Ok(count) => sent += count,
            Err(Failed) => return Err(Cut { sent }),
        }
    }
    Ok(())
}
