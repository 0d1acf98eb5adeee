//! PHOLD models (Fujimoto, "Performance of Time Warp under synthetic workloads", 1990) whose seeds and starts are drawn.

ghost use Rattle.std.specs.Prelude.{◌≡◌, ℕ, ◌+◌, ◌%◌, ◌<◌, ◌≤◌, ◌++◌, IfOk, map, codes};
ghost use Rattle.std.specs.Fmt.{decimal};
ghost use Rattle.std.specs.List.{range_with_len};
ghost use Rattle.crq_sim.specs.declared.model.Behaviour.TheVariants.{Phold};
ghost use Rattle.crq_sim.specs.Draws.{drawn, next_state};
ghost use Rattle.crq_sim.specs.Generated.{state_after_draws, generated_object, generated_start, generated};

use crate::draws::draw;
use crate::model::{Behaviour, MOST_OBJECTS, MOST_STARTS, Model, Object, Objects, Start, Starts};
use crate::name::Name;
use crate::sequence::Sequence;
use crq_base::Memory;
use std::alloc::Global;

/// The lookahead of a generated model, in ticks.
const LOOKAHEAD: u32 = 16;

/// The last tick of a generated model.
const UNTIL: u32 = 2000;

/// The longest delay that an object draws, in ticks.
const SPREAD: u32 = 240;

/// The starts lie before this tick.
const STARTED: u64 = 256;

/// The object with a number, and with a seed that was drawn for it.
fn phold_object(alloc: Global, number: u32, seed: u64) -> Result<Object, Memory>
    requires { number ≤ MOST_OBJECTS }
    ensures { IfOk result (λ o. o ≡ record { name = codes "p" ++ decimal number; behaviour = Phold seed 240 }) }
{
    let text = format!(in alloc; "p{number}")?;
    Ok(Object {
        name: Name::from_text(alloc, text.as_str())?,
        behaviour: Behaviour::Phold {
            seed,
            spread: SPREAD,
        },
    })
}

/// The objects, and the state of the generator after their draws.
fn phold_objects(alloc: Global, seed: u64, count: u32) -> Result<(Objects, u64), Memory>
    requires { count ≤ MOST_OBJECTS }
    ensures objects { IfOk result (λ r. r.0 ≡ map (generated_object seed) (range_with_len 0 count)) }
    ensures state { IfOk result (λ r. r.1 ≡ state_after_draws seed count) }
{
    let mut objects = Sequence::from_vec(Vec::new(alloc));
    let mut state = seed;
    for i in 0..count {
        let (drawn, after) = draw(state);
        objects.push(phold_object(alloc, i + 1, drawn)?)?;
        state = after;
    }
    Ok((objects, state))
}

/// A start with this load, and the state of the generator after its draws.
fn drawn_start(state: u64, objects: u32, load: u64) -> (Start, u64)
    requires some { 0 < objects }
    requires few { objects ≤ MOST_OBJECTS }
    ensures start { result.0 ≡ record { time = drawn (next_state state) % 256; object = 1 + drawn state % objects; load = load } }
    ensures state { result.1 ≡ next_state (next_state state) }
{
    let (object, after_object) = draw(state);
    let (time, after_time) = draw(after_object);
    let start = Start {
        time: (time % STARTED) as u32,
        object: (1 + object % u64::from(objects)) as u32,
        load,
    };
    (start, after_time)
}

/// The starts that are drawn after the seeds of so many objects.
fn drawn_starts(alloc: Global, state: u64, objects: u32, count: u32) -> Result<Starts, Memory>
    requires some { 0 < objects }
    requires few { objects ≤ MOST_OBJECTS }
    ensures { IfOk result (λ s. (seed : ℕ) → state ≡ state_after_draws seed objects → s ≡ map (generated_start seed objects) (range_with_len 0 count)) }
{
    let mut starts = Sequence::from_vec(Vec::new(alloc));
    let mut state = state;
    for i in 0..count {
        let (start, after) = drawn_start(state, objects, u64::from(i));
        starts.push(start)?;
        state = after;
    }
    Ok(starts)
}

/// A PHOLD model of so many objects with so many starts, all drawn from a SplitMix64 generator with this seed.
///
/// Each object has the name `p` and its number, and draws delays of up to 240 ticks beyond the lookahead of 16. The
/// starts lie in the first 256 of 2,000 ticks. Answers `Memory` where memory is refused.
pub fn generate(alloc: Global, seed: u64, objects: u32, population: u32) -> Result<Model, Memory>
    requires some { 0 < objects }
    requires few_objects { objects ≤ MOST_OBJECTS }
    requires few_starts { population ≤ MOST_STARTS }
    ensures { IfOk result (λ m. m ≡ generated seed objects population) }
{
    let (all, state) = phold_objects(alloc, seed, objects)?;
    let starts = drawn_starts(alloc, state, objects, population)?;
    Ok(Model::new(LOOKAHEAD, UNTIL, all, starts))
}
