//! The elements of `objects`, in order.

ghost use Rattle.std.specs.Prelude.{◌≡◌, ◌≤◌, length, Ok, IfOk, IfErr};
ghost use Rattle.std.specs.Result.{result_map_both};
ghost use Rattle.serde_json.specs.View.{view};
ghost use Rattle.crq_reader.specs.Drafts.{named_seen, header_seen, flaw_seen, IsFault};
ghost use Rattle.crq_reader.specs.Language as language;
ghost use Rattle.crq_reader.specs.Language.{named_objects};

use crate::draft::{Draft, behaviour, name};
use crate::drafts::Drafts;
use crate::fault::{ModelFault, in_object, no_memory};
use crate::flaw::Flaw;
use crate::header::Header;
use crate::members::must_be_object;
use crq_sim::MOST_OBJECTS;
use serde_json::Value;
use std::alloc::Global;

/// The next object, after those that were read.
fn draft<'v>(
    drafts: &Drafts<'v>,
    header: &Header<'v>,
    value: &'v Value,
) -> Result<Draft<'v>, Flaw<'v>>
    ensures { result_map_both named_seen flaw_seen result ≡ language.named_of (header_seen header.now) drafts.now (view value.now) }
{
    must_be_object(value)?;
    let name = name(value)?;
    if drafts.number_of(name).is_some() {
        return Err(Flaw::NameTwice(name));
    }
    let behaviour = behaviour(value, header)?;
    Ok(Draft { name, behaviour })
}

/// All objects, or the first fault in them.
pub fn read_objects<'v>(alloc: Global, header: &Header<'v>) -> Result<Drafts<'v>, ModelFault>
    requires { length header.now.objects.now ≤ MOST_OBJECTS }
    ensures ok { IfOk result (λ d. named_objects (header_seen header.now) ≡ Ok d) }
    ensures err { IfErr result (λ e. IsFault e (named_objects (header_seen header.now))) }
{
    let mut drafts = Drafts::new(alloc);
    let values = header.objects;
    for value in values {
        let k = drafts.len() + 1;
        match draft(&drafts, header, value) {
            Err(flaw) => return Err(in_object(alloc, k, flaw)),
            Ok(draft) => {
                if drafts.push(draft).is_err() {
                    return Err(no_memory());
                }
            }
        }
    }
    Ok(drafts)
}
