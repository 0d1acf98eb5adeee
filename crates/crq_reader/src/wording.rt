//! Faults in words, for a person.

ghost use Rattle.std.specs.Prelude.{◌≡◌};
ghost use Rattle.crq_reader.specs.Wording.{is_plain, form_words, range_words, ahead_words, many_words};

use crate::fault::{FaultNumber, ModelFault, Place, Subject};
use crate::member::Member;
use crate::word::Word;
use std::fmt;

/// The most bytes of a word that are shown, twice as many as a name may have.
const MOST_SHOWN: usize = 64;

/// Whether a byte may be printed as it is.
fn is_plain(byte: u8) -> bool
    ensures { result ≡ is_plain byte }
{
    32 <= byte && byte < 127 && byte != b'"' && byte != b'\\'
}

/// A byte of a word of the file.
#[derive(Clone, Copy)]
struct ShownByte(u8);

impl fmt::Display for ShownByte {
    ghost use Rattle.std.specs.Prelude.{Some};
    ghost use Rattle.crq_reader.specs.Wording.{byte_shown};

    ghost output = { λ b. Some (byte_shown b.0) };

    #[tactic(auto, using(std::proofs::lemmas::Fmt::hex_byte))]
    fn fmt<W: fmt::Write>(&self, f: &mut fmt::Formatter<W>) -> fmt::Result {
        let byte = self.0;
        if is_plain(byte) {
            f.write_char(byte as char)
        } else {
            write!(f, "\\x{byte:02x}")
        }
    }
}

/// Bytes that came from outside, as they may be printed: a byte that isn't of printable ASCII, a quote or a backslash is shown
/// as `\x` and two hex digits, so that no control character reaches a terminal.
#[derive(Clone, Copy)]
pub struct ShownBytes<'a>(pub &'a [u8]);

impl fmt::Display for ShownBytes<'_> {
    ghost use Rattle.std.specs.Prelude.{Some};
    ghost use Rattle.std.specs.List.{flat_map};
    ghost use Rattle.crq_reader.specs.Wording.{byte_shown};

    ghost output = { λ bytes. Some (flat_map byte_shown bytes.0.now) };

    fn fmt<W: fmt::Write>(&self, f: &mut fmt::Formatter<W>) -> fmt::Result {
        let bytes = self.0;
        for byte in bytes {
            write!(f, "{}", ShownByte(*byte))?;
        }
        Ok(())
    }
}

impl fmt::Display for Word {
    ghost use Rattle.std.specs.Prelude.{Some};
    ghost use Rattle.crq_reader.specs.Wording.{word_shown};

    ghost output = { λ word. Some (word_shown word) };

    fn fmt<W: fmt::Write>(&self, f: &mut fmt::Formatter<W>) -> fmt::Result {
        let bytes = self.as_str().as_bytes();
        if bytes.len() <= MOST_SHOWN {
            write!(f, "\"{}\"", ShownBytes(bytes))
        } else {
            let front = &bytes[..MOST_SHOWN];
            write!(f, "\"{}\"...", ShownBytes(front))
        }
    }
}

impl fmt::Display for Member {
    ghost use Rattle.std.specs.Prelude.{Some};
    ghost use Rattle.crq_reader.specs.Wording.{member_shown};

    ghost output = { λ member. Some (member_shown member) };

    fn fmt<W: fmt::Write>(&self, f: &mut fmt::Formatter<W>) -> fmt::Result {
        write!(f, "\"{}\"", self.word())
    }
}

impl fmt::Display for FaultNumber {
    ghost use Rattle.std.specs.Prelude.{Some};
    ghost use Rattle.crq_reader.specs.Wording.{fault_words};

    ghost output = { λ fault. Some (fault_words fault) };

    fn fmt<W: fmt::Write>(&self, f: &mut fmt::Formatter<W>) -> fmt::Result {
        f.write_str(match self {
            FaultNumber::NotJson => "the text isn't JSON in UTF-8",
            FaultNumber::Memory => "there is no memory to read the text",
            FaultNumber::Missing => "a member is missing",
            FaultNumber::WrongKind => "something is of the wrong kind",
            FaultNumber::Range => {
                "a number or a name is out of range, a name is given twice, or there is no target"
            }
            FaultNumber::UnknownName => "there is no such kind, or no object of that name",
            FaultNumber::Lookahead => "the lookahead is 0, or a delay or service is below it",
            FaultNumber::TooMany =>
                "there are more than 65535 objects or starts, or more than 4 targets",
        })
    }
}

impl fmt::Display for Place {
    ghost use Rattle.std.specs.Prelude.{Some};
    ghost use Rattle.crq_reader.specs.Wording.{place_words};

    ghost output = { λ place. Some (place_words place) };

    fn fmt<W: fmt::Write>(&self, f: &mut fmt::Formatter<W>) -> fmt::Result {
        match self {
            Place::File => f.write_str("the model"),
            Place::Object(k) => write!(f, "object {k}"),
            Place::Start(i) => write!(f, "start {i}"),
        }
    }
}

/// What a member has to be.
fn form(member: Member) -> &'static str
    ensures { result.now ≡ form_words member }
{
    match member {
        Member::Name | Member::Kind | Member::Next | Member::Object => "a text",
        Member::Objects | Member::Starts => "an array",
        Member::Targets => "an array of texts",
        _ => "a whole number from 0 to 18446744073709551615 in digits alone",
    }
}

/// How a member is out of its range.
fn range(member: Member) -> &'static str
    ensures { result.now ≡ range_words member }
{
    match member {
        Member::Format => "isn't 1",
        Member::Targets => "is empty",
        _ => "is above 4294967295",
    }
}

/// How a member stands to the lookahead.
fn ahead(member: Member) -> &'static str
    ensures { result.now ≡ ahead_words member }
{
    match member {
        Member::Lookahead => "is 0",
        _ => "is below the lookahead",
    }
}

/// How many elements are too many.
fn many(member: Member) -> &'static str
    ensures { result.now ≡ many_words member }
{
    match member {
        Member::Targets => "has more than 4 elements",
        _ => "has more than 65535 elements",
    }
}

/// What is wrong with a member.
#[derive(Clone, Copy)]
struct MemberSaid {
    number: FaultNumber,
    member: Member,
}

impl fmt::Display for MemberSaid {
    ghost use Rattle.std.specs.Prelude.{Some};
    ghost use Rattle.crq_reader.specs.Wording.{member_words};

    ghost output = { λ said. Some (member_words said.number said.member) };

    fn fmt<W: fmt::Write>(&self, f: &mut fmt::Formatter<W>) -> fmt::Result {
        let member = self.member;
        match self.number {
            FaultNumber::Missing => write!(f, "{member} is missing"),
            FaultNumber::WrongKind => write!(f, "{member} isn't {}", form(member)),
            FaultNumber::Range => write!(f, "{member} {}", range(member)),
            FaultNumber::Lookahead => write!(f, "{member} {}", ahead(member)),
            FaultNumber::TooMany => write!(f, "{member} {}", many(member)),
            number => write!(f, "{member}: {number}"),
        }
    }
}

/// What is wrong, without its place.
#[derive(Clone, Copy)]
struct Said<'a> {
    number: FaultNumber,
    subject: &'a Subject,
}

impl fmt::Display for Said<'_> {
    ghost use Rattle.std.specs.Prelude.{Some};
    ghost use Rattle.crq_reader.specs.Wording.{said_words};

    ghost output = { λ said. Some (said_words said.number said.subject.now) };

    fn fmt<W: fmt::Write>(&self, f: &mut fmt::Formatter<W>) -> fmt::Result {
        let number = self.number;
        match self.subject {
            Subject::Whole => match number {
                FaultNumber::WrongKind => f.write_str("it isn't a JSON object"),
                _ => write!(f, "{number}"),
            },
            Subject::Member(member) => {
                let member = *member;
                write!(f, "{}", MemberSaid { number, member })
            }
            Subject::NoKind(word) => write!(f, "no kind {word}"),
            Subject::NoName(word) => write!(
                f,
                "the name {word} isn't 1 to 32 letters and digits of ASCII, '_', '-' and '.'"
            ),
            Subject::NameTwice(word) => write!(f, "the name {word} is given twice"),
            Subject::NoObject(member, word) => write!(f, "{member} names no object {word}"),
        }
    }
}

impl fmt::Display for ModelFault {
    ghost use Rattle.std.specs.Prelude.{Some};
    ghost use Rattle.crq_reader.specs.Wording.{model_fault_words};

    ghost output = { λ fault. Some (model_fault_words fault) };

    fn fmt<W: fmt::Write>(&self, f: &mut fmt::Formatter<W>) -> fmt::Result {
        let said = Said {
            number: self.number,
            subject: &self.subject,
        };
        match self.place {
            Place::File => write!(f, "{said}"),
            place => write!(f, "{place}: {said}"),
        }
    }
}
