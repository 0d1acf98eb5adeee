//! Objects whose names are looked up.

ghost use Rattle.std.specs.Prelude.{◌≡◌, ◌<◌, ◌≤◌, map, length, Ok, IfOk, IfErr};
ghost use Rattle.std.specs.List.{filter_map};
ghost use Rattle.std.specs.Result.{result_map_both};
ghost use Rattle.serde_json.specs.Find.{as_str};
ghost use Rattle.serde_json.specs.View.{view};
ghost use Rattle.crq_reader.specs.Drafts.{named_seen, sending_seen, flaw_seen, IsNamed, IsSending, IsFlaw, IsFault};
ghost use Rattle.crq_reader.specs.Language.{as_whole, names_of, known, known_all, behaviour_of, object_of, objects_of};

use crate::draft::{Draft, DraftBehaviour};
use crate::drafts::Drafts;
use crate::fault::{FaultNumber, ModelFault, in_object, no_memory};
use crate::flaw::Flaw;
use crate::member::Member;
use crq_sim::{Behaviour, Name, Object, Targets};
use serde_json::Value;
use std::alloc::Global;

/// There was no memory.
fn short<'v>() -> Flaw<'v>
    ensures { flaw_seen result ≡ as_whole FaultNumber.Memory }
{
    Flaw::Whole(FaultNumber::Memory)
}

/// The number of the object that the member names.
fn number<'v>(drafts: &Drafts<'_>, member: Member, name: &'v str) -> Result<u32, Flaw<'v>>
    ensures { result_map_both (λ n. n) flaw_seen result ≡ known member (names_of drafts.now) name.now }
{
    drafts.number_of(name).ok_or(Flaw::NoObject(member, name))
}

/// The numbers of a fan's targets.
fn numbers<'v>(alloc: Global, drafts: &Drafts<'_>, names: &'v [Value]) -> Result<Vec<u32>, Flaw<'v>>
    ensures ok { IfOk result (λ v. known_all (names_of drafts.now) (filter_map as_str (map view names.now)) ≡ Ok v.items) }
    ensures err { IfErr result (λ f. IsFlaw f (known_all (names_of drafts.now) (filter_map as_str (map view names.now)))) }
{
    let mut numbers = Vec::new(alloc);
    for value in names {
        let Some(name) = value.as_str() else {
            continue;
        };
        match number(drafts, Member::Targets, name) {
            Err(flaw) => return Err(flaw),
            Ok(number) => {
                if numbers.push(number).is_err() {
                    return Err(short());
                }
            }
        }
    }
    Ok(numbers)
}

/// A fan's targets.
fn targets<'v>(alloc: Global, drafts: &Drafts<'_>, names: &'v [Value]) -> Result<Targets, Flaw<'v>>
    requires some { 0 < length (filter_map as_str (map view names.now)) }
    requires few { length (filter_map as_str (map view names.now)) ≤ 4 }
    ensures ok { IfOk result (λ ts. known_all (names_of drafts.now) (filter_map as_str (map view names.now)) ≡ Ok ts) }
    ensures err { IfErr result (λ f. IsFlaw f (known_all (names_of drafts.now) (filter_map as_str (map view names.now)))) }
{
    let numbers = numbers(alloc, drafts, names)?;
    Ok(Targets::from_vec(numbers))
}

/// What an object does, with its targets by number.
fn resolve<'v>(
    alloc: Global,
    drafts: &Drafts<'_>,
    behaviour: DraftBehaviour<'v>,
) -> Result<Behaviour, Flaw<'v>>
    requires { IsSending (sending_seen behaviour) }
    ensures ok { IfOk result (λ b. behaviour_of (names_of drafts.now) (sending_seen behaviour.entry) ≡ Ok b) }
    ensures err { IfErr result (λ f. IsFlaw f (behaviour_of (names_of drafts.now) (sending_seen behaviour.entry))) }
{
    match behaviour {
        DraftBehaviour::Relay { delay, next } => {
            let next = number(drafts, Member::Next, next)?;
            Ok(Behaviour::Relay { delay, next })
        }
        DraftBehaviour::Phold { seed, spread } => Ok(Behaviour::Phold { seed, spread }),
        DraftBehaviour::Station { service, next } => {
            let next = number(drafts, Member::Next, next)?;
            Ok(Behaviour::Station { service, next })
        }
        DraftBehaviour::Fan {
            delay,
            targets: names,
        } => {
            let targets = targets(alloc, drafts, names)?;
            Ok(Behaviour::Fan { delay, targets })
        }
        DraftBehaviour::Sink => Ok(Behaviour::Sink),
    }
}

/// The object with its targets by number.
fn object<'v>(alloc: Global, drafts: &Drafts<'_>, draft: &Draft<'v>) -> Result<Object, Flaw<'v>>
    requires { IsNamed (named_seen draft.now) }
    ensures ok { IfOk result (λ o. object_of (names_of drafts.now) (named_seen draft.now) ≡ Ok o) }
    ensures err { IfErr result (λ f. IsFlaw f (object_of (names_of drafts.now) (named_seen draft.now))) }
{
    let behaviour = resolve(alloc, drafts, draft.behaviour)?;
    match Name::from_text(alloc, draft.name) {
        Ok(name) => Ok(Object { name, behaviour }),
        Err(_) => Err(short()),
    }
}

/// All objects with their targets by number, or the first object in which a name is of no object.
pub fn resolve_objects(alloc: Global, drafts: &Drafts<'_>) -> Result<Vec<Object>, ModelFault>
    ensures ok { IfOk result (λ v. objects_of drafts.now ≡ Ok v.items) }
    ensures err { IfErr result (λ e. IsFault e (objects_of drafts.now)) }
{
    let mut objects = Vec::new(alloc);
    for draft in drafts.as_slice() {
        let k = objects.len() as u32 + 1;
        match object(alloc, drafts, draft) {
            Err(flaw) => return Err(in_object(alloc, k, flaw)),
            Ok(object) => {
                if objects.push(object).is_err() {
                    return Err(no_memory());
                }
            }
        }
    }
    Ok(objects)
}
