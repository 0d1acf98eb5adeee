//! What a top call writes.

ghost use Rattle.std.specs.Prelude.{◌≤◌};
ghost use Rattle.crq_top.specs.Meanings.{Concludes, Writes, due_of};

use crate::ending::Ending;
use crate::line::line_of;
use crq_io::{Sink, write_whole};

/// Writes all bytes, or ends with Write in place of the ending that they belong to.
fn written<S: Sink>(out: &mut S, bytes: &[u8], ending: Ending) -> Ending
    ensures writes { Writes (record { written = S.written out.old; faults = S.faults out.old }) (record { written = S.written out.new; faults = S.faults out.new }) bytes.now ending result }
    ensures later { S.faults out.old ≤ S.faults out.new }
{
    match write_whole(out, bytes) {
        Ok(()) => ending,
        Err(_) => Ending::Write,
    }
}

/// Writes the text, or the line of the ending that the call has in its place.
pub(crate) fn conclude<S: Sink>(out: &mut S, due: Result<Vec<u8>, Ending>) -> Ending
    ensures concludes { Concludes (record { written = S.written out.old; faults = S.faults out.old }) (record { written = S.written out.new; faults = S.faults out.new }) (due_of due) result }
    ensures later { S.faults out.old ≤ S.faults out.new }
{
    match due {
        Ok(text) => written(out, text.as_slice(), Ending::Ok),
        Err(ending) => written(out, line_of(&ending).as_slice(), ending),
    }
}
