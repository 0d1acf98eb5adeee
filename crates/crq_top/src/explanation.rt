//! An ending in words, for a person.

ghost use Rattle.std.specs.Prelude.{◌≡◌, ◌⊎◌, ℕ, IfSome, Some, None, map, string_bytes};
ghost use Rattle.std.specs.Fmt.{decimal};
ghost use Rattle.crq_top.specs.Commands.{Asked, Spells, IsFirstProblem, problem_of};
ghost use Rattle.crq_top.specs.Explained.{model_name};

use crate::command::read;
use crate::ending::Ending;
use crate::forms::{Misfit, Parameter};
use crq_reader::ShownBytes;
use std::fmt::{self, Display, Formatter};

/// What an ending means, in one line without its newline.
#[derive(Drop)]
pub struct Explanation<'a> {
    pub ending: &'a Ending,
    /// How many workers a set may have.
    pub most: u32,
    /// The first thing that is wrong with the words of the command line.
    pub misfit: Option<Misfit<'a>>,
    /// The second word, which is the model's name where the command reads a model.
    pub model: &'a str,
}

/// The explanation of an ending that a call on these words had, where a set may have `most` workers.
pub fn explanation_of<'a>(most: u32, ending: &'a Ending, words: &'a [String]) -> Explanation<'a>
    ensures ending { result.ending.now ≡ ending.entry.now }
    ensures most { result.most ≡ most }
    ensures model { result.model.now ≡ model_name (map string_bytes words.entry.now) }
    ensures misfit { IfSome result.misfit (λ m. IsFirstProblem most (map string_bytes words.entry.now) (problem_of m)) }
    ensures fits { result.misfit ≡ None → (a : Asked) × Spells most (map string_bytes words.entry.now) a }
{
    let model = match words.get(1) {
        Some(model) => model.as_str(),
        None => "",
    };
    let misfit = read(most, words).err();
    Explanation {
        ending,
        most,
        misfit,
        model,
    }
}

/// What may stand for a parameter.
#[derive(Drop)]
struct Range {
    most: u32,
    of: Parameter,
}

impl Display for Range {
    ghost use Rattle.std.specs.Prelude.{Some};
    ghost use Rattle.crq_top.specs.Commands.{range_of};
    ghost use Rattle.crq_top.specs.Explained.{range_words};

    ghost output = { λ r. Some (range_words (range_of r.most r.of)) };

    fn fmt<W: fmt::Write>(&self, f: &mut Formatter<W>) -> fmt::Result {
        match self.of.range(self.most) {
            None => f.write_str("the name of a file"),
            Some((least, most)) if least == most => write!(f, "{least}"),
            Some((least, most)) => write!(f, "{least} to {most}"),
        }
    }
}

/// A misfit in words.
#[derive(Drop)]
struct MisfitWords<'a> {
    most: u32,
    misfit: &'a Misfit<'a>,
}

impl Display for MisfitWords<'_> {
    ghost use Rattle.std.specs.Prelude.{Some};
    ghost use Rattle.crq_top.specs.Explained.{misfit_words};

    ghost output = { λ w. Some (misfit_words w.most w.misfit.now) };

    fn fmt<W: fmt::Write>(&self, f: &mut Formatter<W>) -> fmt::Result {
        let most = self.most;
        match self.misfit {
            Misfit::NoCommand => write!(f, "there is no command; {COMMANDS}"),
            Misfit::Unknown(word) => {
                let word = ShownBytes(word.as_bytes());
                write!(f, "no command \"{word}\"; {COMMANDS}")
            }
            Misfit::Missing(parameter) => {
                let name = parameter.name();
                let of = *parameter;
                let range = Range { most, of };
                write!(f, "{name} is missing; it has to be {range}")
            }
            Misfit::Unfit(parameter, word) => {
                let name = parameter.name();
                let word = ShownBytes(word.as_bytes());
                let of = *parameter;
                let range = Range { most, of };
                write!(f, "{name} is {word}; it has to be {range}")
            }
            Misfit::Extra(word) => {
                let word = ShownBytes(word.as_bytes());
                write!(f, "\"{word}\" is one word too many")
            }
        }
    }
}

/// That the rows are too few for what is pending after a window, and how many would do.
#[derive(Drop)]
struct FewRows {
    window: u32,
    pending: u32,
}

impl Display for FewRows {
    ghost use Rattle.std.specs.Prelude.{Some};
    ghost use Rattle.crq_top.specs.Explained.{few_rows_words};

    ghost output = { λ r. Some (few_rows_words r.window r.pending) };

    fn fmt<W: fmt::Write>(&self, f: &mut Formatter<W>) -> fmt::Result {
        let FewRows { window, pending } = *self;
        let least = 2 * u64::from(pending) + 2;
        write!(
            f,
            "ROWS is too low for the {pending} events that are pending after window {window}; it has to be at least {least}"
        )
    }
}

impl Display for Explanation<'_> {
    ghost use Rattle.std.specs.Prelude.{Some};
    ghost use Rattle.crq_top.specs.Explained.{explained};

    ghost output = { λ e. Some (explained e) };

    fn fmt<W: fmt::Write>(&self, f: &mut Formatter<W>) -> fmt::Result {
        let model = ShownBytes(self.model.as_bytes());
        match self.ending {
            Ending::Ok => f.write_str("crq: done"),
            Ending::Usage => match &self.misfit {
                None => write!(f, "crq: {COMMANDS}"),
                Some(misfit) => {
                    let most = self.most;
                    let words = MisfitWords { most, misfit };
                    write!(f, "crq: {words}")
                }
            },
            Ending::Model(fault) => write!(f, "crq: {model}: {fault}"),
            Ending::Memory => f.write_str("crq: memory was refused, and nothing was printed"),
            Ending::Read => write!(f, "crq: {model}: the file can't be read"),
            Ending::Write => f.write_str("crq: the output couldn't be written whole"),
            Ending::Long => write!(f, "crq: {model}: the file has more than 16777216 bytes"),
            Ending::Events(window) => write!(
                f,
                "crq: {model}: the run has more events than EVENTS; the first one past them is in window {window}"
            ),
            Ending::Rows(window, pending) => {
                let (window, pending) = (*window, *pending);
                let words = FewRows { window, pending };
                write!(f, "crq: {model}: {words}")
            }
        }
    }
}

/// The forms of the commands.
const COMMANDS: &str =
    "the commands are: run MODEL WORKERS ROWS EVENTS, check MODEL, serial MODEL EVENTS, gen SEED OBJECTS POPULATION";
