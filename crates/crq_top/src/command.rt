//! The command that the words of a command line spell.

ghost use Rattle.std.specs.Prelude.{◌≡◌, ℕ, List, IfOk, IfErr, MatchOption, map, string_bytes, ◌∷◌};
ghost use Rattle.crq_top.specs.Commands.{Asked, Asks, AsksNothing, Spells, AllFit, IsInRange, IsFirstProblem, asked_of, call_of, form_of, operands_of, problem_of, verb_of};

use crate::forms::{Misfit, Parameter, Verb, misfit_of};

/// The two top calls.
#[derive(Clone, Copy)]
pub enum Call {
    /// `run`, which may wait for threads.
    Run,
    /// `inspect`, which always returns.
    Inspect,
}

/// What a list of words asks for.
#[derive(Clone, Copy)]
pub enum Command<'w> {
    /// `run MODEL WORKERS ROWS EVENTS`: the trace text of the model, by so many workers with so many rows each, where its run
    /// has at most so many events.
    Run {
        model: &'w str,
        workers: u32,
        rows: u32,
        events: u32,
    },
    /// `check MODEL`: the size of the model.
    Check {
        model: &'w str,
    },
    /// `serial MODEL EVENTS`: the trace text of the serial run.
    Serial {
        model: &'w str,
        events: u32,
    },
    /// `gen SEED OBJECTS POPULATION`: the text of a generated model.
    Gen {
        seed: u64,
        objects: u32,
        population: u32,
    },
}

impl Command<'_> {
    /// The call that carries it out.
    fn call(&self) -> Call
        ensures { result ≡ call_of (asked_of self.now) }
    {
        match self {
            Command::Run { .. } => Call::Run,
            Command::Check { .. } | Command::Serial { .. } | Command::Gen { .. } => Call::Inspect,
        }
    }
}

/// The command whose name is followed by these words, where a set may have `most` workers.
fn command_of<'w>(verb: Verb, most: u32, words: &'w [String]) -> Command<'w>
    requires { AllFit most (form_of verb) (map string_bytes words.now) }
    ensures verb { verb_of (asked_of result) ≡ verb }
    ensures operands { operands_of (asked_of result) ≡ map string_bytes words.entry.now }
    ensures in_range { IsInRange most (asked_of result) }
{
    match verb {
        Verb::Run => Command::Run {
            model: words[0].as_str(),
            workers: Parameter::Workers.value(most, words[1].as_str()) as u32,
            rows: Parameter::Rows.value(most, words[2].as_str()) as u32,
            events: Parameter::Events.value(most, words[3].as_str()) as u32,
        },
        Verb::Check => Command::Check {
            model: words[0].as_str(),
        },
        Verb::Serial => Command::Serial {
            model: words[0].as_str(),
            events: Parameter::Events.value(most, words[1].as_str()) as u32,
        },
        Verb::Gen => Command::Gen {
            seed: Parameter::Seed.value(most, words[0].as_str()),
            objects: Parameter::Objects.value(most, words[1].as_str()) as u32,
            population: Parameter::Population.value(most, words[2].as_str()) as u32,
        },
    }
}

/// The command that the words spell, where a set may have `most` workers, or the first thing that is wrong with them.
pub(crate) fn read<'w>(most: u32, words: &'w [String]) -> Result<Command<'w>, Misfit<'w>>
    ensures ok { IfOk result (λ c. Spells most (map string_bytes words.entry.now) (asked_of c)) }
    ensures err { IfErr result (λ m. IsFirstProblem most (map string_bytes words.entry.now) (problem_of m)) }
    ensures none { IfErr result (λ m. (a : Asked) → Spells most (map string_bytes words.entry.now) a → ⊥) }
{
    let Some((name, operands)) = words.split_first() else {
        return Err(Misfit::NoCommand);
    };
    let Some(verb) = Verb::named(name.as_str()) else {
        return Err(Misfit::Unknown(name.as_str()));
    };
    match misfit_of(verb.form(), most, operands) {
        Some(misfit) => Err(misfit),
        None => Ok(command_of(verb, most, operands)),
    }
}

/// The command that a call on the words is for, where a set may have `most` workers.
pub(crate) fn command_for<'w>(call: Call, most: u32, words: &'w [String]) -> Option<Command<'w>>
    ensures { MatchOption result (AsksNothing (record { call = call; most = most; words = map string_bytes words.entry.now }))
        (λ c. Asks (record { call = call; most = most; words = map string_bytes words.entry.now }) (asked_of c)) }
{
    match read(most, words) {
        Ok(command) if command.call() == call => Some(command),
        _ => None,
    }
}
