//! Lines of a trace text that are read.

ghost use Rattle.std.specs.Prelude.{◌≡◌, true, ℕ, List, ◌∷◌, ◌++◌, IfSome, IfNone};
ghost use Rattle.crq_sim.specs.Names.{is_name};
ghost use Rattle.crq_sim.specs.declared.model.BehaviourName.{BehaviourName};
ghost use Rattle.crq_sim.specs.Kinds.{kind_word};
ghost use Rattle.crq_printer.specs.Texts.{first_line, end_line, heading_line, step_line};
ghost use Rattle.crq_printer.specs.Reading.{IsStepOf};
ghost use Rattle.crq_printer.specs.Parts.{NoStep, NoHeading};

use crate::fields::{read_field, read_number, skip_number, skip_word};
use crate::kinds::kind_of;
use crq_base::Event;
use crq_sim::{BehaviourName, Name, Step};
use std::str;

/// What the line before an object's steps says.
#[derive(Clone, Copy)]
pub(crate) struct Heading<'a> {
    pub(crate) name: &'a str,
    pub(crate) behaviour: BehaviourName,
    pub(crate) count: u64,
}

/// The text behind the first line of a trace text.
pub(crate) fn skip_first(text: &[u8]) -> Option<&[u8]>
    ensures parts { IfSome result (λ rest. text.now ≡ first_line ++ rest.now) }
    ensures none { IfNone result ((back : List ℕ) → text.now ≡ first_line ++ back → ⊥) }
{
    let text = skip_word(text, b"trace", b' ')?;
    skip_word(text, b"1", b'\n')
}

/// The text behind the last line of the text of so many steps.
pub(crate) fn skip_end(text: &[u8], total: u64) -> Option<&[u8]>
    ensures parts { IfSome result (λ rest. text.now ≡ end_line total ++ rest.now) }
    ensures none { IfNone result ((back : List ℕ) → text.now ≡ end_line total ++ back → ⊥) }
{
    let text = skip_word(text, b"end", b' ')?;
    skip_number(text, total, b'\n')
}

/// The name with which the text begins, and the text behind it and the space after it.
fn read_name(text: &[u8]) -> Option<(&str, &[u8])>
    ensures name { IfSome result (λ p. is_name p.0.now ≡ true) }
    ensures parts { IfSome result (λ p. text.now ≡ p.0.now ++ (32 ∷ p.1.now)) }
    ensures none { IfNone result ((name back : List ℕ) → is_name name ≡ true → text.now ≡ name ++ (32 ∷ back) → ⊥) }
{
    let (name, rest) = read_field(text, b' ')?;
    if !Name::is_name(name) {
        return None;
    }
    match str::from_utf8(name) {
        Ok(name) => Some((name, rest)),
        Err(_) => None,
    }
}

/// The kind with whose word the text begins, and the text behind it and the space after it.
fn read_kind(text: &[u8]) -> Option<(BehaviourName, &[u8])>
    ensures parts { IfSome result (λ p. text.now ≡ kind_word p.0 ++ (32 ∷ p.1.now)) }
    ensures none { IfNone result ((kind : BehaviourName) (back : List ℕ) → text.now ≡ kind_word kind ++ (32 ∷ back) → ⊥) }
{
    let (word, rest) = read_field(text, b' ')?;
    let kind = kind_of(word)?;
    Some((kind, rest))
}

/// The heading of the object with this number with which the text begins, and the text behind it.
pub(crate) fn read_heading(text: &[u8], number: u32) -> Option<(Heading<'_>, &[u8])>
    ensures name { IfSome result (λ p. is_name p.0.name.now ≡ true) }
    ensures parts { IfSome result (λ p. text.now ≡ heading_line number p.0.name.now p.0.behaviour p.0.count ++ p.1.now) }
    ensures none { IfNone result (NoHeading number text.now) }
{
    let text = skip_word(text, b"object", b' ')?;
    let text = skip_number(text, u64::from(number), b' ')?;
    let (name, text) = read_name(text)?;
    let (behaviour, text) = read_kind(text)?;
    let (count, text) = read_number(text, b'\n', u64::MAX)?;
    let heading = Heading {
        name,
        behaviour,
        count,
    };
    Some((heading, text))
}

/// The step of this object whose line the text begins with, and the text behind it.
pub(crate) fn read_step(text: &[u8], number: u32) -> Option<(Step, &[u8])>
    ensures step { IfSome result (λ p. IsStepOf number p.0) }
    ensures parts { IfSome result (λ p. text.now ≡ step_line p.0 ++ p.1.now) }
    ensures none { IfNone result (NoStep number text.now) }
{
    let (time, text) = read_number(text, b' ', u64::from(u32::MAX))?;
    let (src, text) = read_number(text, b' ', 65535)?;
    let (seq, text) = read_number(text, b' ', u64::MAX)?;
    let (load, text) = read_number(text, b' ', u64::MAX)?;
    let (count, text) = read_number(text, b' ', u64::MAX)?;
    let (word, text) = read_number(text, b'\n', u64::MAX)?;
    let event = Event {
        time: time as u32,
        src: src as u32,
        seq,
        dst: number,
        load,
    };
    Some((Step { event, count, word }, text))
}
