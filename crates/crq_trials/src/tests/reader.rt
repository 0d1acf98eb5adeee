//! Texts that are models, and texts that aren't.

use crq_reader::{model_text, read_model};
use std::alloc::{AllocError, Global};
use std::test::Fail;

/// Two relays that send to each other.
const RELAYS: &str =
    r#"{"format":1,"lookahead":5,"until":12,"objects":[{"name":"a","kind":"relay","delay":5,"next":"b"},{"name":"b","kind":"relay","delay":7,"next":"a"}],"starts":[{"time":0,"object":"a"}]}"#;

const RELAYS_TEXT: &str =
    "{\"format\":1,\"lookahead\":5,\"objects\":[{\"delay\":5,\"kind\":\"relay\",\"name\":\"a\",\"next\":\"b\"},\
     {\"delay\":7,\"kind\":\"relay\",\"name\":\"b\",\"next\":\"a\"}],\
     \"starts\":[{\"data\":0,\"object\":\"a\",\"time\":0}],\"until\":12}\n";

/// All behaviours, with names that come later, members in another order, one that is passed over and one given twice.
const KINDS: &str = concat!(
    r#"{"starts":[{"object":"p.1","time":4294967295,"data":18446744073709551615}],"#,
    r#""objects":[{"name":"p.1","kind":"phold","seed":18446744073709551615,"spread":0},"#,
    r#"{"next":"f","service":9,"kind":"station","name":"s"},"#,
    r#"{"name":"f","kind":"fan","delay":3,"targets":["f","z_Z-","f","s"]},"#,
    r#"{"name":"q","name":"z_Z-","kind":"sink","colour":null}],"until":0,"lookahead":3,"format":1}"#,
);

const KINDS_TEXT: &str =
    "{\"format\":1,\"lookahead\":3,\"objects\":[{\"kind\":\"phold\",\"name\":\"p.1\",\"seed\":18446744073709551615,\"spread\":0},\
     {\"kind\":\"station\",\"name\":\"s\",\"next\":\"f\",\"service\":9},\
     {\"delay\":3,\"kind\":\"fan\",\"name\":\"f\",\"targets\":[\"f\",\"z_Z-\",\"f\",\"s\"]},\
     {\"kind\":\"sink\",\"name\":\"z_Z-\"}],\
     \"starts\":[{\"data\":18446744073709551615,\"object\":\"p.1\",\"time\":4294967295}],\"until\":0}\n";

const NO_OBJECTS: &str =
    r#"{"format":1,"lookahead":5,"until":12,"objects":[],"starts":[{"time":0,"object":"a"}]}"#;

/// The number and the place of a text's fault, or 0 and 0 for a model.
fn fault_of(alloc: Global, text: &[u8]) -> (u32, u32) {
    match read_model(alloc, text) {
        Ok(_) => (0, 0),
        Err(fault) => (fault.number.number(), fault.at),
    }
}

/// The words of a text's fault, or none for a model.
fn words_of(alloc: Global, text: &[u8]) -> Result<String, AllocError> {
    match read_model(alloc, text) {
        Ok(_) => String::from_str(alloc, ""),
        Err(fault) => format!(in alloc; "{fault}"),
    }
}

/// The canonical text of the model of a text.
fn rewritten(alloc: Global, text: &[u8]) -> Result<Vec<u8>, Fail> {
    let model = read_model(alloc, text)?;
    Ok(model_text(alloc, &model)?)
}

#[test]
fn texts_that_are_models(rt: HostRuntime) -> Result<(), Fail> {
    let alloc = rt.alloc();
    for (text, canonical) in [
        (RELAYS, RELAYS_TEXT),
        (RELAYS_TEXT, RELAYS_TEXT),
        (KINDS, KINDS_TEXT),
        (KINDS_TEXT, KINDS_TEXT),
    ] {
        let written = rewritten(alloc, text.as_bytes())?;
        assert_eq!(rt; written.as_slice(), canonical.as_bytes(), "{text}");
    }
    Ok(())
}

/// The text with one part of it replaced.
fn changed(alloc: Global, text: &str, old: &str, new: &str) -> Result<String, Fail> {
    let (front, back) = text.split_once(old).ok_or("no such part")?;
    Ok(format!(in alloc; "{front}{new}{back}")?)
}

/// The second relay.
const RELAY_B: &str = r#"{"name":"b","kind":"relay","delay":7,"next":"a"}"#;

/// Whether a text with a part of `RELAYS` replaced has the fault with this number, this place and these words.
fn is_refused(
    alloc: Global,
    parts: (&str, &str),
    number: u32,
    at: u32,
    words: &str,
) -> Result<bool, Fail> {
    let text = changed(alloc, RELAYS, parts.0, parts.1)?;
    let said = words_of(alloc, text.as_bytes())?;
    Ok(fault_of(alloc, text.as_bytes()) == (number, at) && said.as_str() == words)
}

/// A part of `RELAYS` and what stands in its place, and the number, the place and the words of the fault that this makes.
type Row = (&'static str, &'static str, u32, u32, &'static str);

const REFUSED: [Row; 38] = [
    ("]}", "]", 1, 0, "the text isn't JSON in UTF-8"),
    (r#""format":1"#, r#""format":2,"format":1"#, 0, 0, ""),
    (
        r#""format":1"#,
        r#""format":1,"format":2"#,
        5,
        0,
        r#""format" isn't 1"#,
    ),
    (
        r#""format":1"#,
        r#""format":"1""#,
        4,
        0,
        r#""format" isn't a whole number from 0 to 18446744073709551615 in digits alone"#,
    ),
    (r#""format":1,"#, "", 3, 0, r#""format" is missing"#),
    (
        r#""lookahead":5"#,
        r#""lookahead":0"#,
        7,
        0,
        r#""lookahead" is 0"#,
    ),
    (
        r#""lookahead":5"#,
        r#""lookahead":5.0"#,
        4,
        0,
        r#""lookahead" isn't a whole number from 0 to 18446744073709551615 in digits alone"#,
    ),
    (
        r#""until":12"#,
        r#""until":-1"#,
        4,
        0,
        r#""until" isn't a whole number from 0 to 18446744073709551615 in digits alone"#,
    ),
    (
        r#""until":12"#,
        r#""until":4294967296"#,
        5,
        0,
        r#""until" is above 4294967295"#,
    ),
    (
        r#""until":12"#,
        r#""until":18446744073709551615"#,
        5,
        0,
        r#""until" is above 4294967295"#,
    ),
    (
        r#""until":12"#,
        r#""until":18446744073709551616"#,
        4,
        0,
        r#""until" isn't a whole number from 0 to 18446744073709551615 in digits alone"#,
    ),
    (
        r#""until":12"#,
        r#""until":1e1"#,
        4,
        0,
        r#""until" isn't a whole number from 0 to 18446744073709551615 in digits alone"#,
    ),
    (
        r#"[{"time":0,"object":"a"}]"#,
        "{}",
        4,
        0,
        r#""starts" isn't an array"#,
    ),
    (
        r#""delay":7"#,
        r#""delay":4"#,
        7,
        2,
        r#"object 2: "delay" is below the lookahead"#,
    ),
    (
        r#""next":"b""#,
        r#""next":"c""#,
        6,
        1,
        r#"object 1: "next" names no object "c""#,
    ),
    (
        r#""next":"b""#,
        r#""next":0"#,
        4,
        1,
        r#"object 1: "next" isn't a text"#,
    ),
    (
        r#""next":"a""#,
        r#""next":"A""#,
        6,
        2,
        r#"object 2: "next" names no object "A""#,
    ),
    (
        r#""object":"a""#,
        r#""object":"c""#,
        6,
        3,
        r#"start 1: "object" names no object "c""#,
    ),
    (
        r#""name":"b""#,
        r#""name":"a""#,
        5,
        2,
        r#"object 2: the name "a" is given twice"#,
    ),
    (
        r#""name":"b""#,
        r#""name":"""#,
        5,
        2,
        r#"object 2: the name "" isn't 1 to 32 letters and digits of ASCII, '_', '-' and '.'"#,
    ),
    (
        r#""name":"b""#,
        r#""name":"123456789012345678901234567890123""#,
        5,
        2,
        r#"object 2: the name "123456789012345678901234567890123" isn't 1 to 32 letters and digits of ASCII, '_', '-' and '.'"#,
    ),
    (
        r#""name":"b""#,
        r#""name":"b \u0007\u007f\"\\~é""#,
        5,
        2,
        r#"object 2: the name "b \x07\x7f\x22\x5c~\xc3\xa9" isn't 1 to 32 letters and digits of ASCII, '_', '-' and '.'"#,
    ),
    (
        r#""kind":"relay","delay":5"#,
        r#""delay":5"#,
        3,
        1,
        r#"object 1: "kind" is missing"#,
    ),
    (
        r#""kind":"relay","delay":7"#,
        r#""kind":"realy","delay":7"#,
        6,
        2,
        r#"object 2: no kind "realy""#,
    ),
    (
        r#""kind":"relay","delay":7"#,
        r#""kind":"1234567890123456789012345678901234567890123456789012345678901234","delay":7"#,
        6,
        2,
        r#"object 2: no kind "1234567890123456789012345678901234567890123456789012345678901234""#,
    ),
    (
        r#""kind":"relay","delay":7"#,
        r#""kind":"12345678901234567890123456789012345678901234567890123456789012345","delay":7"#,
        6,
        2,
        r#"object 2: no kind "1234567890123456789012345678901234567890123456789012345678901234"..."#,
    ),
    (
        r#""time":0"#,
        r#""time":4294967296"#,
        5,
        3,
        r#"start 1: "time" is above 4294967295"#,
    ),
    (r#""time":0,"#, "", 3, 3, r#"start 1: "time" is missing"#),
    (
        r#""object":"a""#,
        r#""object":"a","data":null"#,
        4,
        3,
        r#"start 1: "data" isn't a whole number from 0 to 18446744073709551615 in digits alone"#,
    ),
    (
        r#""object":"a""#,
        r#""object":"a","data":18446744073709551616"#,
        4,
        3,
        r#"start 1: "data" isn't a whole number from 0 to 18446744073709551615 in digits alone"#,
    ),
    (RELAY_B, "7", 4, 2, "object 2: it isn't a JSON object"),
    (
        RELAY_B,
        r#"{"name":"b","kind":"fan","delay":7,"targets":[]}"#,
        5,
        2,
        r#"object 2: "targets" is empty"#,
    ),
    (
        RELAY_B,
        r#"{"name":"b","kind":"fan","delay":7,"targets":["a",1,"a","a","a"]}"#,
        8,
        2,
        r#"object 2: "targets" has more than 4 elements"#,
    ),
    (
        RELAY_B,
        r#"{"name":"b","kind":"fan","delay":7,"targets":["a",1]}"#,
        4,
        2,
        r#"object 2: "targets" isn't an array of texts"#,
    ),
    (
        RELAY_B,
        r#"{"name":"b","kind":"fan","delay":7,"targets":["a","c","d"]}"#,
        6,
        2,
        r#"object 2: "targets" names no object "c""#,
    ),
    (
        RELAY_B,
        r#"{"name":"b","kind":"phold","seed":18446744073709551616,"spread":0}"#,
        4,
        2,
        r#"object 2: "seed" isn't a whole number from 0 to 18446744073709551615 in digits alone"#,
    ),
    (
        RELAY_B,
        r#"{"name":"b","kind":"station","service":4,"next":"a"}"#,
        7,
        2,
        r#"object 2: "service" is below the lookahead"#,
    ),
    (
        RELAY_B,
        r#"{"name":"b","kind":"sink"},null"#,
        4,
        3,
        "object 3: it isn't a JSON object",
    ),
];

#[test]
fn refused_texts(rt: HostRuntime) -> Result<(), Fail> {
    let alloc = rt.alloc();
    for (old, new, number, at, words) in REFUSED {
        assert!(rt;
            is_refused(alloc, (old, new), number, at, words)?,
            "{new} for {old}"
        );
    }
    Ok(())
}

/// The piece so many times, one after another.
fn repeated(alloc: Global, piece: &str, times: u32) -> Result<String, AllocError> {
    let mut text = String::new(alloc);
    for _ in 0..times {
        text.push_str(piece)?;
    }
    Ok(text)
}

/// A model of relays that each send to the next one, with a start at each.
fn ring(alloc: Global, objects: u32) -> Result<String, AllocError> {
    let mut text = String::from_str(
        alloc,
        "{\"format\":1,\"lookahead\":1,\"until\":9,\"objects\":[",
    )?;
    for k in 0..objects {
        let comma = if k == 0 { "" } else { "," };
        let next = (k + 1) % objects;
        let object = format!(in alloc;
            "{comma}{{\"name\":\"n{k}\",\"kind\":\"relay\",\"delay\":1,\"next\":\"n{next}\"}}"
        )?;
        text.push_str(object.as_str())?;
    }
    text.push_str("],\"starts\":[")?;
    for k in 0..objects {
        let comma = if k == 0 { "" } else { "," };
        let start = format!(in alloc; "{comma}{{\"time\":0,\"object\":\"n{k}\"}}")?;
        text.push_str(start.as_str())?;
    }
    text.push_str("]}")?;
    Ok(text)
}

/// One JSON object with so many members, none of which the language has.
fn members(alloc: Global, count: u32) -> Result<String, AllocError> {
    let mut text = String::from_str(alloc, "{\"m\":0")?;
    for k in 0..count {
        let member = format!(in alloc; ",\"m{k}\":0")?;
        text.push_str(member.as_str())?;
    }
    text.push_str("}")?;
    Ok(text)
}

#[test]
fn long_texts_of_one_byte(rt: HostRuntime) -> Result<(), Fail> {
    let alloc = rt.alloc();
    for byte in *b"[{\"0 1a,:-\\\x00\xff" {
        let text = vec![in alloc; byte; 16_777_216]?;
        assert_eq!(rt;
            fault_of(alloc, text.as_slice()),
            (1, 0),
            "16 MiB of byte {byte}"
        );
    }
    Ok(())
}

#[test]
fn long_words(rt: HostRuntime) -> Result<(), Fail> {
    let alloc = rt.alloc();
    let deep = repeated(alloc, "[", 1000)?;
    let nested = repeated(alloc, "{\"format\":", 1_600_000)?;
    let long = repeated(alloc, "1", 16_000_000)?;
    let long_number = changed(alloc, RELAYS, "12", long.as_str())?;
    let quoted = format!(in alloc; "\"{long}\"")?;
    let long_name = changed(alloc, RELAYS, "\"b\"", quoted.as_str())?;
    let members = members(alloc, 1_200_000)?;
    let no_objects = String::from_str(alloc, NO_OBJECTS)?;
    for (text, number, at) in [
        (&deep, 1, 0),
        (&nested, 1, 0),
        (&long_number, 1, 0),
        (&long_name, 6, 1),
        (&members, 3, 0),
        (&no_objects, 6, 1),
    ] {
        assert_eq!(rt; fault_of(alloc, text.as_bytes()), (number, at));
    }
    let marked = b"{\"format\":1,\"objects\":[{\"name\":\"\xff\"}]}";
    assert_eq!(rt; fault_of(alloc, marked), (1, 0));
    Ok(())
}

#[test]
fn full_models(rt: HostRuntime) -> Result<(), Fail> {
    let alloc = rt.alloc();
    let full = ring(alloc, 65_535)?;
    let more = ring(alloc, 65_536)?;
    let last = "\"name\":\"n65534\"";
    let twice = changed(alloc, full.as_str(), last, "\"name\":\"n0\"")?;
    let start = "\"object\":\"n65534\"";
    let unknown = changed(alloc, full.as_str(), start, "\"object\":\"m\"")?;
    for (text, number, at, words) in [
        (&full, 0, 0, ""),
        (
            &twice,
            5,
            65_535,
            "object 65535: the name \"n0\" is given twice",
        ),
        (
            &unknown,
            6,
            131_070,
            "start 65535: \"object\" names no object \"m\"",
        ),
        (&more, 8, 0, "\"objects\" has more than 65535 elements"),
    ] {
        assert_eq!(rt; fault_of(alloc, text.as_bytes()), (number, at));
        let said = words_of(alloc, text.as_bytes())?;
        assert_eq!(rt; said.as_str(), words);
    }
    Ok(())
}
