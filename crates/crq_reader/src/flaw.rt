//! What is wrong with a part of a file, before its place is told.

ghost use Rattle.std.specs.Prelude.{◌≡◌, IfOk};
ghost use Rattle.crq_reader.specs.Drafts.{flaw_seen};

use crate::fault::{FaultNumber, Subject};
use crate::member::Member;
use crate::word::Word;
use std::alloc::{AllocError, Global};

/// The number and the subject of a fault, with the words where the file has them.
#[derive(Clone, Copy)]
pub enum Flaw<'v> {
    Whole(FaultNumber),
    Member(FaultNumber, Member),
    NoKind(&'v str),
    NoName(&'v str),
    NameTwice(&'v str),
    NoObject(Member, &'v str),
}

impl Flaw<'_> {
    /// The number of the fault.
    pub fn number(&self) -> FaultNumber
        ensures { result ≡ (flaw_seen self.now).number }
    {
        match self {
            Flaw::Whole(fault) => *fault,
            Flaw::Member(fault, _) => *fault,
            Flaw::NoName(_) => FaultNumber::Range,
            Flaw::NameTwice(_) => FaultNumber::Range,
            Flaw::NoKind(_) => FaultNumber::UnknownName,
            Flaw::NoObject(_, _) => FaultNumber::UnknownName,
        }
    }

    /// The subject of the fault, with its word in memory of its own.
    pub fn subject(&self, alloc: Global) -> Result<Subject, AllocError>
        ensures { IfOk result (λ s. s ≡ (flaw_seen self.now).subject) }
    {
        match self {
            Flaw::Whole(_) => Ok(Subject::Whole),
            Flaw::Member(_, member) => Ok(Subject::Member(*member)),
            Flaw::NoKind(word) => Ok(Subject::NoKind(Word::from_text(alloc, word)?)),
            Flaw::NoName(word) => Ok(Subject::NoName(Word::from_text(alloc, word)?)),
            Flaw::NameTwice(word) => Ok(Subject::NameTwice(Word::from_text(alloc, word)?)),
            Flaw::NoObject(member, word) => {
                Ok(Subject::NoObject(*member, Word::from_text(alloc, word)?))
            }
        }
    }
}
