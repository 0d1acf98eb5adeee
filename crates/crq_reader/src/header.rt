//! The members of the file itself.

ghost use Rattle.std.specs.Prelude.{◌≡◌, ◌≤◌, map, length, IfOk};
ghost use Rattle.std.specs.Result.{result_map_both};
ghost use Rattle.serde_json.specs.View.{view};
ghost use Rattle.crq_reader.specs.Drafts.{header_seen, flaw_seen};
ghost use Rattle.crq_reader.specs.Language as language;

use crate::fault::FaultNumber;
use crate::flaw::Flaw;
use crate::member::Member;
use crate::members::{list, must_be_object, tick, whole};
use crq_sim::{MOST_OBJECTS, MOST_STARTS};
use serde_json::Value;

/// The members of a file, with the elements of its arrays not yet read.
#[derive(Clone, Copy)]
pub struct Header<'v> {
    /// The version of the language, by which objects and starts are checked.
    pub format: u64,
    pub lookahead: u32,
    pub until: u32,
    pub objects: &'v [Value],
    pub starts: &'v [Value],
}

/// The version of the language, which is 1.
fn format(value: &Value) -> Result<u64, Flaw<'_>>
    ensures { result_map_both (λ n. n) flaw_seen result ≡ language.format (view value.now) }
{
    let version = whole(value, Member::Format)?;
    if version == 1 {
        Ok(version)
    } else {
        Err(Flaw::Member(FaultNumber::Range, Member::Format))
    }
}

/// The lookahead, which is at least 1.
fn lookahead(value: &Value) -> Result<u32, Flaw<'_>>
    ensures { result_map_both (λ n. n) flaw_seen result ≡ language.lookahead (view value.now) }
{
    let ticks = tick(value, Member::Lookahead)?;
    if ticks == 0 {
        Err(Flaw::Member(FaultNumber::Lookahead, Member::Lookahead))
    } else {
        Ok(ticks)
    }
}

/// The elements of an array that isn't too long.
fn many<'v>(value: &'v Value, member: Member, most: usize) -> Result<&'v [Value], Flaw<'v>>
    ensures value { result_map_both (λ s. map view s.now) flaw_seen result ≡ language.many most member (view value.now) }
    ensures few { IfOk result (λ s. length s.now ≤ most) }
{
    let values = list(value, member)?;
    if values.len() > most {
        return Err(Flaw::Member(FaultNumber::TooMany, member));
    }
    Ok(values)
}

/// The members of a file.
pub fn read_header<'v>(value: &'v Value) -> Result<Header<'v>, Flaw<'v>>
    ensures value { result_map_both header_seen flaw_seen result ≡ language.header (view value.now) }
    ensures few_objects { IfOk result (λ h. length h.objects.now ≤ MOST_OBJECTS) }
    ensures few_starts { IfOk result (λ h. length h.starts.now ≤ MOST_STARTS) }
{
    must_be_object(value)?;
    let format = format(value)?;
    let lookahead = lookahead(value)?;
    let until = tick(value, Member::Until)?;
    let objects = many(value, Member::Objects, MOST_OBJECTS)?;
    let starts = many(value, Member::Starts, MOST_STARTS)?;
    Ok(Header {
        format,
        lookahead,
        until,
        objects,
        starts,
    })
}
