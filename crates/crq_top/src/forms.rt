//! The forms of the commands, and the first word of a command line that doesn't fit.

ghost use Rattle.std.specs.Prelude.{◌≡◌, ℕ, ◌<◌, ◌≤◌, ◌^◌, ◌↔◌, IsTrue, IsSome, IfSome, List, MatchOption, map, string_bytes};
ghost use Rattle.std.specs.Fmt.{decimal};
ghost use Rattle.crq_top.specs.Commands.{name_of, form_of, range_of, IsBetween, Fits, AllFit, IsProblemOf, problem_of};
ghost use Rattle.crq_top.specs.Explained.{parameter_name};

use crq_base::MOST_ROWS;
use crq_sim::{MOST_EVENTS, MOST_OBJECTS, MOST_STARTS};
use itoa::Buffer;

/// The commands, by the words with which they begin.
#[derive(Clone, Copy)]
pub enum Verb {
    Run,
    Check,
    Serial,
    Gen,
}

/// What a word of a command stands for.
#[derive(Clone, Copy)]
pub enum Parameter {
    /// The name of a model file: any word.
    Model,
    /// How many threads work on the run, 1 to as many as a set may have callers.
    Workers,
    /// How many rows each worker has, 4 to 131,072.
    Rows,
    /// How many events the run may have, 1 to 4,194,304.
    Events,
    /// Where the draws of a generated model begin, any `u64`.
    Seed,
    /// How many objects a generated model has, 1 to 65,535.
    Objects,
    /// How many events it starts with, 0 to 65,535.
    Population,
}

/// The first thing that is wrong with the words of a command line.
#[derive(Clone, Copy)]
pub enum Misfit<'w> {
    /// There are no words.
    NoCommand,
    /// The first word is the name of no command.
    Unknown(&'w str),
    /// The words end before this parameter.
    Missing(Parameter),
    /// This word can't stand for this parameter.
    Unfit(Parameter, &'w str),
    /// This word stands behind the last parameter.
    Extra(&'w str),
}

/// A number that is written as a decimal without sign and without a leading zero.
fn plain(word: &str) -> Option<u64>
    ensures { MatchOption result ((n : ℕ) → n < 2 ^ 64 → word.now ≡ decimal n → ⊥) (λ n. (word.now ≡ decimal n) × ((k : ℕ) → k < 2 ^ 64 → word.now ≡ decimal k → k ≡ n)) }
{
    match word.parse::<u64>() {
        Ok(value) => {
            let mut buffer = Buffer::new();
            if buffer.format(value) == word {
                Some(value)
            } else {
                None
            }
        }
        Err(_) => None,
    }
}

/// Such a number within these bounds.
fn number(word: &str, least: u64, most: u64) -> Option<u64>
    ensures { MatchOption result ((n : ℕ) → IsBetween least most n → word.now ≡ decimal n → ⊥) (λ n. IsBetween least most n × (word.now ≡ decimal n)) }
{
    match plain(word) {
        Some(value) if least <= value && value <= most => Some(value),
        _ => None,
    }
}

impl Verb {
    /// The command of that name.
    pub(crate) fn named(word: &str) -> Option<Verb>
        ensures { MatchOption result ((v : Verb) → word.now ≡ name_of v → ⊥) (λ v. word.now ≡ name_of v) }
    {
        match word {
            "run" => Some(Verb::Run),
            "check" => Some(Verb::Check),
            "serial" => Some(Verb::Serial),
            "gen" => Some(Verb::Gen),
            _ => None,
        }
    }

    /// What the words behind the name stand for, in order.
    pub(crate) fn form(&self) -> &'static [Parameter]
        ensures { result.now ≡ form_of self.now }
    {
        match self {
            Verb::Run => &[
                Parameter::Model,
                Parameter::Workers,
                Parameter::Rows,
                Parameter::Events,
            ],
            Verb::Check => &[Parameter::Model],
            Verb::Serial => &[Parameter::Model, Parameter::Events],
            Verb::Gen => &[Parameter::Seed, Parameter::Objects, Parameter::Population],
        }
    }
}

impl Parameter {
    /// The name under which the commands' forms have it.
    pub(crate) fn name(&self) -> &'static str
        ensures { result.now ≡ parameter_name self.now }
    {
        match self {
            Parameter::Model => "MODEL",
            Parameter::Workers => "WORKERS",
            Parameter::Rows => "ROWS",
            Parameter::Events => "EVENTS",
            Parameter::Seed => "SEED",
            Parameter::Objects => "OBJECTS",
            Parameter::Population => "POPULATION",
        }
    }

    /// The least and the greatest number that may stand for it, if it is a number, where a set may have `most` workers.
    pub(crate) fn range(&self, most: u32) -> Option<(u64, u64)>
        ensures { result ≡ range_of most self.now }
    {
        match self {
            Parameter::Model => None,
            Parameter::Workers => Some((1, u64::from(most))),
            Parameter::Rows => Some((4, u64::from(MOST_ROWS))),
            Parameter::Events => Some((1, u64::from(MOST_EVENTS))),
            Parameter::Seed => Some((0, u64::MAX)),
            Parameter::Objects => Some((1, MOST_OBJECTS as u64)),
            Parameter::Population => Some((0, MOST_STARTS as u64)),
        }
    }

    /// Whether the word may stand for it.
    fn fits(&self, most: u32, word: &str) -> bool
        ensures { IsTrue result ↔ Fits most self.now word.now }
    {
        match self.range(most) {
            None => true,
            Some((least, most)) => number(word, least, most).is_some(),
        }
    }

    /// The number that a fitting word spells.
    pub(crate) fn value(&self, most: u32, word: &str) -> u64
        requires fits { Fits most self.now word.now }
        requires number { IsSome (range_of most self.now) }
        ensures { IfSome (range_of most self.now) (λ r. IsBetween r.0 r.1 result) × (word.now ≡ decimal result) }
    {
        match self.range(most) {
            None => unreachable!(),
            Some((least, most)) => match number(word, least, most) {
                None => unreachable!(),
                Some(value) => value,
            },
        }
    }
}

/// The first thing that is wrong with the words behind a command's name, where its form is this and a set may have `most` workers.
pub(crate) fn misfit_of<'w>(
    form: &[Parameter],
    most: u32,
    words: &'w [String],
) -> Option<Misfit<'w>>
    ensures { MatchOption result (AllFit most form.now (map string_bytes words.entry.now))
        (λ m. IsProblemOf most form.now (map string_bytes words.entry.now) (problem_of m)) }
{
    for (place, parameter) in form.iter().enumerate() {
        match words.get(place) {
            None => return Some(Misfit::Missing(*parameter)),
            Some(word) => {
                if !parameter.fits(most, word.as_str()) {
                    return Some(Misfit::Unfit(*parameter, word.as_str()));
                }
            }
        }
    }
    match words.get(form.len()) {
        None => None,
        Some(word) => Some(Misfit::Extra(word.as_str())),
    }
}
