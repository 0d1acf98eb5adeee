//! The elements of `starts`.

ghost use Rattle.std.specs.Prelude.{◌≡◌, ◌≤◌, length, Ok, IfOk, IfErr};
ghost use Rattle.std.specs.Result.{result_map_both};
ghost use Rattle.serde_json.specs.View.{view};
ghost use Rattle.crq_reader.specs.Drafts.{header_seen, flaw_seen, IsFault};
ghost use Rattle.crq_reader.specs.Language as language;
ghost use Rattle.crq_reader.specs.Language.{names_of, starts_of};

use crate::drafts::Drafts;
use crate::fault::{ModelFault, in_start, no_memory};
use crate::flaw::Flaw;
use crate::header::Header;
use crate::member::Member;
use crate::members::{must_be_object, text, tick, whole_of};
use crq_sim::{MOST_STARTS, Start};
use serde_json::Value;
use std::alloc::Global;

/// The load of a start, 0 where the member isn't there.
fn load(value: &Value) -> Result<u64, Flaw<'_>>
    ensures { result_map_both (λ n. n) flaw_seen result ≡ language.load_of (view value.now) }
{
    match value.get(Member::Data.word()) {
        None => Ok(0),
        Some(load) => whole_of(load, Member::Data),
    }
}

/// One start.
fn start<'v>(drafts: &Drafts<'_>, value: &'v Value) -> Result<Start, Flaw<'v>>
    ensures { result_map_both (λ s. s) flaw_seen result ≡ language.start_of (names_of drafts.now) (view value.now) }
{
    must_be_object(value)?;
    let time = tick(value, Member::Time)?;
    let name = text(value, Member::Object)?;
    let object = drafts
        .number_of(name)
        .ok_or(Flaw::NoObject(Member::Object, name))?;
    let load = load(value)?;
    Ok(Start { time, object, load })
}

/// All starts, or the first fault in them.
pub fn read_starts(
    alloc: Global,
    header: &Header<'_>,
    drafts: &Drafts<'_>,
) -> Result<Vec<Start>, ModelFault>
    requires { length header.now.starts.now ≤ MOST_STARTS }
    ensures ok { IfOk result (λ v. starts_of (header_seen header.now) (names_of drafts.now) ≡ Ok v.items) }
    ensures err { IfErr result (λ e. IsFault e (starts_of (header_seen header.now) (names_of drafts.now))) }
{
    let mut starts = Vec::new(alloc);
    let values = header.starts;
    for value in values {
        let i = starts.len() as u32 + 1;
        match start(drafts, value) {
            Err(flaw) => return Err(in_start(alloc, drafts.len(), i, flaw)),
            Ok(start) => {
                if starts.push(start).is_err() {
                    return Err(no_memory());
                }
            }
        }
    }
    Ok(starts)
}
