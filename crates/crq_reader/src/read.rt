//! The model of a text.

ghost use Rattle.std.specs.Prelude.{◌≡◌, Ok, IfOk, IfErr};
ghost use Rattle.serde_json.specs.View.{view};
ghost use Rattle.crq_reader.specs.Drafts.{IsFault};
ghost use Rattle.crq_reader.specs.Language as language;

use crate::fault::{FaultNumber, ModelFault, in_file, in_text, no_memory};
use crate::header::read_header;
use crate::objects::read_objects;
use crate::resolved::resolve_objects;
use crate::starts::read_starts;
use crq_sim::{Model, Sequence};
use serde_json::Value;
use std::alloc::Global;

/// The JSON value of a text.
fn json(alloc: Global, text: &[u8]) -> Result<Value, ModelFault>
    ensures ok { IfOk result (λ v. language.language text.now ≡ language.model_of (view v)) }
    ensures err { IfErr result (λ e. IsFault e (language.language text.now)) }
{
    match Value::from_slice(alloc, text) {
        Ok(value) => Ok(value),
        Err(error) => {
            if error.is_memory() {
                Err(no_memory())
            } else {
                Err(in_text(FaultNumber::NotJson))
            }
        }
    }
}

/// The model of a JSON value.
fn model(alloc: Global, value: &Value) -> Result<Model, ModelFault>
    ensures ok { IfOk result (λ m. language.model_of (view value.now) ≡ Ok m) }
    ensures err { IfErr result (λ e. IsFault e (language.model_of (view value.now))) }
{
    let header = match read_header(value) {
        Ok(header) => header,
        Err(flaw) => return Err(in_file(alloc, flaw)),
    };
    let drafts = read_objects(alloc, &header)?;
    let objects = resolve_objects(alloc, &drafts)?;
    let starts = read_starts(alloc, &header, &drafts)?;
    Ok(Model::new(
        header.lookahead,
        header.until,
        Sequence::from_vec(objects),
        Sequence::from_vec(starts),
    ))
}

/// The model that a text says, or the first thing that is wrong with it.
///
/// The language is JSON with the members that the project's specification lists. It takes time that grows with the
/// length of the text, times the logarithm of the number of objects.
pub fn read_model(alloc: Global, text: &[u8]) -> Result<Model, ModelFault>
    // Each model is the one that the language gives.
    ensures ok { IfOk result (λ m. language.language text.now ≡ Ok m) }

    // Each fault is the one that the language gives, unless there was no memory, which the file is not at fault for.
    ensures err { IfErr result (λ e. IsFault e (language.language text.now)) }
{
    let value = json(alloc, text)?;
    model(alloc, &value)
}
