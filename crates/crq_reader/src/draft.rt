//! The elements of `objects`, before the names in them are looked up.

ghost use Rattle.std.specs.Prelude.{◌≡◌, map, is_some, true, IfOk};
ghost use Rattle.crq_sim.specs.Names.{is_name};
ghost use Rattle.std.specs.List.{filter_map, list_all};
ghost use Rattle.std.specs.Result.{result_map_both};
ghost use Rattle.serde_json.specs.Find.{as_str};
ghost use Rattle.serde_json.specs.View.{view};
ghost use Rattle.crq_reader.specs.Drafts.{sending_seen, header_seen, flaw_seen};
ghost use Rattle.crq_reader.specs.Language as language;

use crate::fault::FaultNumber;
use crate::flaw::Flaw;
use crate::header::Header;
use crate::member::Member;
use crate::members::{delay, list, text, tick, whole};
use crq_sim::{BehaviourName, Name};
use serde_json::Value;

/// The most objects that a fan may send to.
const MOST_TARGETS: usize = 4;

/// What an object does, with the names that it sends to as the file has them.
#[derive(Clone, Copy)]
pub enum DraftBehaviour<'v> {
    Relay { delay: u32, next: &'v str },
    Phold { seed: u64, spread: u32 },
    Station { service: u32, next: &'v str },
    Fan { delay: u32, targets: &'v [Value] },
    Sink,
}

/// An object, with the names that it sends to as the file has them.
#[derive(Clone, Copy)]
pub struct Draft<'v> {
    pub name: &'v str,
    pub behaviour: DraftBehaviour<'v>,
}

/// Whether all elements are texts.
fn are_texts(values: &[Value]) -> bool
    ensures { result ≡ list_all (λ t. is_some (as_str t)) (map view values.now) }
{
    values.iter().all(|value| value.is_string())
}

/// The targets of a fan, 1 to 4 texts.
fn targets<'v>(value: &'v Value) -> Result<&'v [Value], Flaw<'v>>
    ensures { result_map_both (λ s. filter_map as_str (map view s.now)) flaw_seen result ≡ language.targets (view value.now) }
{
    let values = list(value, Member::Targets)?;
    if values.is_empty() {
        return Err(Flaw::Member(FaultNumber::Range, Member::Targets));
    }
    if values.len() > MOST_TARGETS {
        return Err(Flaw::Member(FaultNumber::TooMany, Member::Targets));
    }
    if !are_texts(values) {
        return Err(Flaw::Member(FaultNumber::WrongKind, Member::Targets));
    }
    Ok(values)
}

/// The behaviour of a relay.
fn relay<'v>(value: &'v Value, header: &Header<'_>) -> Result<DraftBehaviour<'v>, Flaw<'v>>
    ensures { result_map_both sending_seen flaw_seen result ≡ language.relay_of (header_seen header.now) (view value.now) }
{
    let delay = delay(value, Member::Delay, header.lookahead)?;
    let next = text(value, Member::Next)?;
    Ok(DraftBehaviour::Relay { delay, next })
}

/// The behaviour of a PHOLD object.
fn phold<'v>(value: &'v Value) -> Result<DraftBehaviour<'v>, Flaw<'v>>
    ensures { result_map_both sending_seen flaw_seen result ≡ language.phold_of (view value.now) }
{
    let seed = whole(value, Member::Seed)?;
    let spread = tick(value, Member::Spread)?;
    Ok(DraftBehaviour::Phold { seed, spread })
}

/// The behaviour of a station.
fn station<'v>(value: &'v Value, header: &Header<'_>) -> Result<DraftBehaviour<'v>, Flaw<'v>>
    ensures { result_map_both sending_seen flaw_seen result ≡ language.station_of (header_seen header.now) (view value.now) }
{
    let service = delay(value, Member::Service, header.lookahead)?;
    let next = text(value, Member::Next)?;
    Ok(DraftBehaviour::Station { service, next })
}

/// The behaviour of a fan.
fn fan<'v>(value: &'v Value, header: &Header<'_>) -> Result<DraftBehaviour<'v>, Flaw<'v>>
    ensures { result_map_both sending_seen flaw_seen result ≡ language.fan_of (header_seen header.now) (view value.now) }
{
    let delay = delay(value, Member::Delay, header.lookahead)?;
    let targets = targets(value)?;
    Ok(DraftBehaviour::Fan { delay, targets })
}

/// The behaviour of that kind.
fn of_kind<'v>(
    value: &'v Value,
    header: &Header<'_>,
    kind: BehaviourName,
) -> Result<DraftBehaviour<'v>, Flaw<'v>>
    ensures { result_map_both sending_seen flaw_seen result ≡ language.of_kind (header_seen header.now) (view value.now) kind }
{
    match kind {
        BehaviourName::Relay => relay(value, header),
        BehaviourName::Phold => phold(value),
        BehaviourName::Station => station(value, header),
        BehaviourName::Fan => fan(value, header),
        BehaviourName::Sink => Ok(DraftBehaviour::Sink),
    }
}

/// The kind that a word stands for.
fn kind_named(word: &str) -> Option<BehaviourName>
    ensures { result ≡ language.kind_named word.now }
{
    BehaviourName::from_word(word)
}

/// The kind of the object.
fn kind<'v>(value: &'v Value) -> Result<BehaviourName, Flaw<'v>>
    ensures { result_map_both (λ k. k) flaw_seen result ≡ language.kind (view value.now) }
{
    let word = text(value, Member::Kind)?;
    kind_named(word).ok_or(Flaw::NoKind(word))
}

/// What the object does, by its kind.
pub fn behaviour<'v>(value: &'v Value, header: &Header<'_>) -> Result<DraftBehaviour<'v>, Flaw<'v>>
    ensures { result_map_both sending_seen flaw_seen result ≡ language.sending_of (header_seen header.now) (view value.now) }
{
    let kind = kind(value)?;
    of_kind(value, header, kind)
}

/// The name of an object, where it is spelled as a name.
pub fn name<'v>(value: &'v Value) -> Result<&'v str, Flaw<'v>>
    ensures value { result_map_both (λ t. t.now) flaw_seen result ≡ language.name (view value.now) }
    ensures spelled { IfOk result (λ t. is_name t.now ≡ true) }
{
    let name = text(value, Member::Name)?;
    if Name::is_name(name.as_bytes()) {
        Ok(name)
    } else {
        Err(Flaw::NoName(name))
    }
}
