//! The models of the tests, and their traces.

use crq_io::{MemFiles, Memory};
use std::alloc::{AllocError, Global};

/// Two relays that send to each other.
pub(crate) const PAIR: &str =
    "{\"format\":1,\"lookahead\":5,\"until\":12,\"objects\":[{\"name\":\"a\",\"kind\":\"relay\",\"delay\":5,\"next\":\"b\"},\
     {\"name\":\"b\",\"kind\":\"relay\",\"delay\":7,\"next\":\"a\"}],\"starts\":[{\"time\":0,\"object\":\"a\"}]}";

/// A sink with events at 0, 4 and 5.
pub(crate) const EDGE: &str =
    "{\"format\":1,\"lookahead\":5,\"until\":100,\"objects\":[{\"name\":\"a\",\"kind\":\"sink\"}],\
     \"starts\":[{\"time\":0,\"object\":\"a\"},{\"time\":4,\"object\":\"a\"},{\"time\":5,\"object\":\"a\"}]}";

/// Two relays that send to one sink at once.
const MEETING: &str =
    "{\"format\":1,\"lookahead\":5,\"until\":100,\"objects\":[{\"name\":\"a\",\"kind\":\"relay\",\"delay\":5,\"next\":\"z\"},\
     {\"name\":\"b\",\"kind\":\"relay\",\"delay\":5,\"next\":\"z\"},{\"name\":\"z\",\"kind\":\"sink\"}],\
     \"starts\":[{\"time\":0,\"object\":\"b\",\"data\":20},{\"time\":0,\"object\":\"a\",\"data\":10}]}";

/// A station with three arrivals in one window.
const STATION: &str =
    "{\"format\":1,\"lookahead\":4,\"until\":100,\"objects\":[{\"name\":\"s\",\"kind\":\"station\",\"service\":4,\"next\":\"z\"},\
     {\"name\":\"z\",\"kind\":\"sink\"}],\"starts\":[{\"time\":0,\"object\":\"s\",\"data\":10},\
     {\"time\":1,\"object\":\"s\",\"data\":20},{\"time\":2,\"object\":\"s\",\"data\":30}]}";

/// A fan of which each event makes two: 2^(k - 1) events in window k.
const FAN: &str =
    "{\"format\":1,\"lookahead\":5,\"until\":1000,\"objects\":[{\"name\":\"f\",\"kind\":\"fan\",\"delay\":5,\"targets\":[\"f\",\"f\"]}],\
     \"starts\":[{\"time\":0,\"object\":\"f\"}]}";

/// One PHOLD object.
const HOLD: &str =
    "{\"format\":1,\"lookahead\":16,\"until\":100,\"objects\":[{\"name\":\"p\",\"kind\":\"phold\",\"seed\":0,\"spread\":240}],\
     \"starts\":[{\"time\":0,\"object\":\"p\",\"data\":7}]}";

pub(crate) const PAIR_TEXT: &str =
    "trace 1\nobject 1 a relay 2\n0 0 0 0 1 0\n12 2 0 2 2 2\nobject 2 b relay 1\n5 1 0 1 1 1\nend 3\n";

pub(crate) const QUIET_TEXT: &str = "trace 1\nobject 1 a relay 0\nobject 2 b relay 0\nend 0\n";

pub(crate) const MEETING_TEXT: &str =
    "trace 1\nobject 1 a relay 1\n0 0 1 10 1 10\nobject 2 b relay 1\n0 0 0 20 1 20\nobject 3 z sink 2\n5 1 0 11 1 11\n5 2 0 21 2 32\nend 4\n";

pub(crate) const STATION_TEXT: &str =
    "trace 1\nobject 1 s station 3\n0 0 0 10 1 4\n1 0 1 20 2 8\n2 0 2 30 3 12\nobject 2 z sink 3\n4 1 0 10 1 10\n8 1 1 20 2 30\n12 1 2 30 3 60\nend 6\n";

pub(crate) const HOLD_TEXT: &str =
    "trace 1\nobject 1 p phold 2\n0 0 0 7 1 4354685564936845354\n49 1 0 7 2 8709371129873690708\nend 2\n";

pub(crate) const MADE_TEXT: &str =
    "{\"format\":1,\"lookahead\":16,\"objects\":[{\"kind\":\"phold\",\"name\":\"p1\",\"seed\":16294208416658607535,\"spread\":240},\
     {\"kind\":\"phold\",\"name\":\"p2\",\"seed\":7960286522194355700,\"spread\":240}],\
     \"starts\":[{\"data\":0,\"object\":\"p2\",\"time\":236}],\"until\":2000}\n";

/// The pair with a part of its text replaced.
pub(crate) fn changed_pair(alloc: Global, from: &str, to: &str) -> Result<String, AllocError> {
    let mut text = String::new(alloc);
    match PAIR.split_once(from) {
        Some((front, back)) => {
            text.push_str(front)?;
            text.push_str(to)?;
            text.push_str(back)?;
        }
        None => text.push_str(PAIR)?,
    }
    Ok(text)
}

/// 25 relays that send to themselves at each tick up to 3999: 100,000 events.
pub(crate) fn self_relays(alloc: Global) -> Result<String, AllocError> {
    let mut text = String::new(alloc);
    text.push_str("{\"format\":1,\"lookahead\":1,\"until\":3999,\"objects\":[")?;
    let mut parting = "";
    for number in 0..25u32 {
        let object = format!(in alloc;
            "{parting}{{\"name\":\"r{number}\",\"kind\":\"relay\",\"delay\":1,\"next\":\"r{number}\"}}"
        )?;
        text.push_str(object.as_str())?;
        parting = ",";
    }
    text.push_str("],\"starts\":[")?;
    parting = "";
    for number in 0..25u32 {
        let start = format!(in alloc; "{parting}{{\"time\":0,\"object\":\"r{number}\"}}")?;
        text.push_str(start.as_str())?;
        parting = ",";
    }
    text.push_str("]}")?;
    Ok(text)
}

/// The models under their names, and a text that is no model.
pub(crate) fn models(alloc: Global) -> Result<MemFiles, Memory> {
    let mut files = MemFiles::new(alloc, &[])?;
    let texts = [
        ("pair", PAIR),
        ("meeting", MEETING),
        ("station", STATION),
        ("fan", FAN),
        ("hold", HOLD),
        ("made", MADE_TEXT),
        ("not_json", "{\"format\":1"),
    ];
    for (name, text) in texts {
        files.add(alloc, name, text.as_bytes())?;
    }
    let start = "{\"time\":0,\"object\":\"a\"}";
    let two = "{\"time\":0,\"object\":\"a\"},{\"time\":0,\"object\":\"a\"}";
    for (name, to) in [("quiet", ""), ("twice", two)] {
        files.add(alloc, name, changed_pair(alloc, start, to)?.as_bytes())?;
    }
    Ok(files)
}
