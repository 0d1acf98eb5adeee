//! Why a text is no model.

ghost use Rattle.std.specs.Prelude.{◌≡◌, ◌≤◌};
ghost use Rattle.crq_reader.specs.Language as language;
ghost use Rattle.crq_reader.specs.Drafts.{flaw_seen, IsToldAs};

use crate::flaw::Flaw;
use crate::member::Member;
use crate::word::Word;
use crq_sim::{MOST_OBJECTS, MOST_STARTS};
use std::alloc::Global;

/// What is wrong with a text. The numbers are those that a caller prints.
#[derive(Clone, Copy, Debug, PartialEq, Eq)]
pub enum FaultNumber {
    /// 1: it isn't UTF-8, or isn't JSON.
    NotJson,
    /// 2: there was no memory to read it, which says nothing of the text.
    Memory,
    /// 3: a member is missing.
    Missing,
    /// 4: a member or an element is of the wrong kind, or a number has a sign, a fraction or an exponent.
    WrongKind,
    /// 5: a number or a name is out of its range, a name is given twice, or there are no targets.
    Range,
    /// 6: there is no such kind, or no object of that name.
    UnknownName,
    /// 7: the lookahead is 0, or a delay or a service is below it.
    Lookahead,
    /// 8: there are more than 65,535 objects or starts, or more than 4 targets.
    TooMany,
}

impl FaultNumber {
    /// The number of the fault, 1 to 8.
    pub fn number(&self) -> u32
        ensures { result ≡ language.fault_number self.now }
    {
        match self {
            FaultNumber::NotJson => 1,
            FaultNumber::Memory => 2,
            FaultNumber::Missing => 3,
            FaultNumber::WrongKind => 4,
            FaultNumber::Range => 5,
            FaultNumber::UnknownName => 6,
            FaultNumber::Lookahead => 7,
            FaultNumber::TooMany => 8,
        }
    }
}

/// Which part of the file a fault is in. Objects and starts are counted from 1.
#[derive(Clone, Copy, Debug, PartialEq, Eq)]
pub enum Place {
    /// The members of the file itself.
    File,
    /// An object.
    Object(u32),
    /// A start.
    Start(u32),
}

/// What a fault is about.
#[derive(Debug, Drop)]
pub enum Subject {
    /// The text, the object or the start as a whole.
    Whole,
    /// A member: it is missing, of the wrong kind, out of its range, too small for the lookahead, or too long.
    Member(Member),
    /// The kind of an object, which is no kind. Its number is 6.
    NoKind(Word),
    /// The name of an object, which isn't spelled as a name. Its number is 5.
    NoName(Word),
    /// The name of an object, which an object before it has. Its number is 5.
    NameTwice(Word),
    /// A member that names an object, and the name in it, which no object has. Its number is 6.
    NoObject(Member, Word),
}

/// The first thing that is wrong with a text.
#[derive(Debug, Drop)]
pub struct ModelFault {
    /// What is wrong.
    pub number: FaultNumber,
    /// Where it is.
    pub place: Place,
    /// The place as one number: 0 for the file, `k` for object `k`, and the number of objects plus `i` for start `i`.
    pub at: u32,
    /// Which member, kind or name it is about.
    pub subject: Subject,
}

/// A fault of the text as a whole, which takes no memory.
pub(crate) fn in_text(fault: FaultNumber) -> ModelFault
    ensures { result ≡ language.in_file (language.as_whole fault) }
{
    ModelFault {
        number: fault,
        place: Place::File,
        at: 0,
        subject: Subject::Whole,
    }
}

/// There was no memory to read the text.
pub(crate) fn no_memory() -> ModelFault
    ensures { result ≡ language.no_memory }
{
    in_text(FaultNumber::Memory)
}

/// The fault with this flaw at a place, or that there was no memory, which is at fault nowhere in the file.
fn placed(alloc: Global, place: Place, at: u32, flaw: Flaw<'_>) -> ModelFault
    ensures told { IsToldAs result (language.placed place at (flaw_seen flaw.entry)) }
    ensures memory { flaw_seen flaw.entry ≡ language.as_whole FaultNumber.Memory → result ≡ language.no_memory }
{
    let number = flaw.number();
    if let FaultNumber::Memory = number {
        return no_memory();
    }
    match flaw.subject(alloc) {
        Ok(subject) => ModelFault {
            number,
            place,
            at,
            subject,
        },
        Err(_) => no_memory(),
    }
}

/// A fault in the members of the file.
pub(crate) fn in_file(alloc: Global, flaw: Flaw<'_>) -> ModelFault
    ensures { IsToldAs result (language.in_file (flaw_seen flaw.entry)) }
{
    placed(alloc, Place::File, 0, flaw)
}

/// A fault at object `k`.
pub(crate) fn in_object(alloc: Global, k: u32, flaw: Flaw<'_>) -> ModelFault
    ensures told { IsToldAs result (language.in_object k (flaw_seen flaw.entry)) }
    ensures memory { flaw_seen flaw.entry ≡ language.as_whole FaultNumber.Memory → result ≡ language.no_memory }
{
    placed(alloc, Place::Object(k), k, flaw)
}

/// A fault at start `i` of a file with so many objects.
pub(crate) fn in_start(alloc: Global, objects: u32, i: u32, flaw: Flaw<'_>) -> ModelFault
    requires objects { objects ≤ MOST_OBJECTS }
    requires starts { i ≤ MOST_STARTS }
    ensures { IsToldAs result (language.in_start objects i (flaw_seen flaw.entry)) }
{
    placed(alloc, Place::Start(i), objects + i, flaw)
}
