//! The canonical text of a model.

ghost use Rattle.std.specs.Prelude.{◌≡◌, ◌^◌, ◌<◌, map, length, true, Ok, IfOk, OnOk};
ghost use Rattle.std.specs.List.{All};
ghost use Rattle.serde_json.specs.Data.{string};
ghost use Rattle.serde_json.specs.View.{view};
ghost use Rattle.crq_sim.specs.Models.{IsObject, IsBehaviour};
ghost use Rattle.crq_sim.specs.declared.model.Object.{Object};
ghost use Rattle.crq_sim.specs.declared.model.Start.{Start};
ghost use Rattle.crq_reader.specs.Canonical.{names_in, name_at, list_data, object_data, start_data, model_data, canonical, IsTicks};
ghost use Rattle.crq_reader.specs.Language.{model_of, language};

use crq_sim::{Behaviour, Memory, Model, Object, Start, Targets};
use serde_json::{Value, json};
use std::alloc::{AllocError, Global};

/// The name of the object with that number.
fn name_of(objects: &[Object], number: u32) -> &str
    requires { IsObject (length objects.now) number }
    ensures { string result.now ≡ name_at (names_in objects.now) number }
{
    objects[number as usize - 1].name.as_str()
}

/// A fan's targets by name.
fn targets_value(alloc: Global, objects: &[Object], targets: &Targets) -> Result<Value, AllocError>
    requires { All (IsObject (length objects.now)) targets.now }
    ensures { IfOk result (λ v. view v ≡ list_data (map (name_at (names_in objects.now)) targets.now)) }
{
    let mut names = Vec::new(alloc);
    for number in targets.as_slice() {
        let name = Value::try_from_str(alloc, name_of(objects, *number))?;
        names.push(name)?;
    }
    Ok(Value::from(names))
}

/// An object with its members.
fn object_value(alloc: Global, objects: &[Object], object: &Object) -> Result<Value, AllocError>
    // It sends to objects that are there. How its delay stands to the lookahead is of no matter here.
    requires { IsBehaviour 0 (length objects.now) object.now.behaviour }
    ensures value { IfOk result (λ v. view v ≡ object_data (names_in objects.now) object.now) }
    ensures ticks { OnOk result (IsTicks object.now.behaviour) }
{
    let name = object.name.as_str();
    let kind = object.behaviour.kind().word();
    match &object.behaviour {
        Behaviour::Relay { delay, next } => {
            let next = name_of(objects, *next);
            json!(in alloc; {"delay": *delay, "kind": kind, "name": name, "next": next})
        }
        Behaviour::Phold { seed, spread } => {
            json!(in alloc; {"kind": kind, "name": name, "seed": *seed, "spread": *spread})
        }
        Behaviour::Station { service, next } => {
            let next = name_of(objects, *next);
            json!(in alloc; {"kind": kind, "name": name, "next": next, "service": *service})
        }
        Behaviour::Fan { delay, targets } => {
            let targets = targets_value(alloc, objects, targets)?;
            json!(in alloc; {"delay": *delay, "kind": kind, "name": name, "targets": targets})
        }
        Behaviour::Sink => json!(in alloc; {"kind": kind, "name": name}),
    }
}

/// The objects with their members.
fn objects_value(alloc: Global, objects: &[Object]) -> Result<Value, AllocError>
    requires { All (λ (o : Object). IsBehaviour 0 (length objects.now) o.behaviour) objects.now }
    ensures value { IfOk result (λ v. view v ≡ list_data (map (object_data (names_in objects.now)) objects.now)) }
    ensures ticks { OnOk result (All (λ (o : Object). IsTicks o.behaviour) objects.now) }
{
    let mut values = Vec::new(alloc);
    for object in objects {
        let value = object_value(alloc, objects, object)?;
        values.push(value)?;
    }
    Ok(Value::from(values))
}

/// A start with its members.
fn start_value(alloc: Global, objects: &[Object], start: &Start) -> Result<Value, AllocError>
    requires { IsObject (length objects.now) start.now.object }
    ensures value { IfOk result (λ v. view v ≡ start_data (names_in objects.now) start.now) }
    ensures ticks { OnOk result (start.now.time < 2 ^ 32) }
{
    let object = name_of(objects, start.object);
    json!(in alloc; {"data": start.load, "object": object, "time": start.time})
}

/// The starts with their members.
fn starts_value(alloc: Global, objects: &[Object], starts: &[Start]) -> Result<Value, AllocError>
    requires { All (λ (s : Start). IsObject (length objects.now) s.object) starts.now }
    ensures value { IfOk result (λ v. view v ≡ list_data (map (start_data (names_in objects.now)) starts.now)) }
    ensures ticks { OnOk result (All (λ (s : Start). s.time < 2 ^ 32) starts.now) }
{
    let mut values = Vec::new(alloc);
    for start in starts {
        let value = start_value(alloc, objects, start)?;
        values.push(value)?;
    }
    Ok(Value::from(values))
}

/// The members of the file. Read back, they are the model.
fn model_value(alloc: Global, model: &Model) -> Result<Value, AllocError>
    ensures value { IfOk result (λ v. view v ≡ model_data model.now) }
    ensures back { OnOk result (model_of (model_data model.now) ≡ Ok model.now) }
{
    model.is_model();
    let lookahead = model.lookahead();
    let until = model.until();
    let objects = objects_value(alloc, model.objects())?;
    let starts = starts_value(alloc, model.objects(), model.starts())?;
    json!(in alloc; {"format": 1u32, "lookahead": lookahead, "objects": objects, "starts": starts, "until": until})
}

/// The canonical text in bytes.
fn bytes(alloc: Global, model: &Model) -> Result<Vec<u8>, AllocError>
    ensures text { IfOk result (λ t. t.items ≡ canonical model.now) }
    ensures reads_back { IfOk result (λ t. language t.items ≡ Ok model.now) }
{
    let value = model_value(alloc, model)?;
    let mut text = value.to_vec(alloc)?;
    text.push(b'\n')?;
    Ok(text)
}

/// The canonical text of a model: compact JSON with every member, those of each object in byte order of their names,
/// and one newline. Reading it gives the model back.
pub fn model_text(alloc: Global, model: &Model) -> Result<Vec<u8>, Memory>
    ensures text { IfOk result (λ t. t.items ≡ canonical model.now) }
    ensures reads_back { IfOk result (λ t. language t.items ≡ Ok model.now) }
{
    bytes(alloc, model).map_err(|_| Memory)
}
