//! Inputs, and what they are read as: by the format page, and not by this crate.
use lu_input::{InputFault, LineFault, read_documents, tokens_of};
use lu_types::{DocFault, IndexedField, Limits, Stored, Token, Vector};
use std::alloc::Global;
use std::process::Abort;
use std::test::Fail;

/// The first faulty line of an input, and its fault; `None` where no line has one.
fn fault_of(
    alloc: Global,
    input: &[u8],
    limits: &Limits,
) -> Result<Option<(u32, LineFault)>, Fail> {
    if input.len() > 99_999_999 {
        return Err(Fail::from("a small input"));
    }
    match read_documents(alloc, input, limits) {
        Ok(_) => Ok(None),
        Err(InputFault::Line(line, fault)) => Ok(Some((line, fault))),
        Err(InputFault::OutOfMemory) => Err(Fail::from("no memory")),
    }
}

/// That each of some inputs of one line has this fault.
fn all_have(rt: &impl Abort, alloc: Global, fault: LineFault, inputs: &[&str]) -> Result<(), Fail> {
    for input in inputs {
        let found = fault_of(alloc, input.as_bytes(), &Limits::program())?;
        assert_eq!(rt; found, Some((1, fault)), "at {input}");
    }
    Ok(())
}

#[test]
fn what_is_no_json_is_refused(rt: HostRuntime) -> Result<(), Fail> {
    all_have(
        &rt,
        rt.alloc(),
        LineFault::NotJson,
        &[
            "{",
            " ",
            "\r",
            "nul",
            "{}{}",
            "{} x",
            "{'stored':[]}",
            "{\"stored\":[],}",
            "\"\u{1}\"",
            "\"\\ud800\"",
            "01",
            "1e999",
        ],
    )?;
    let limits = Limits::program();
    let not_utf8 = fault_of(rt.alloc(), b"{}\n{\"x\":\"\xff\"}", &limits)?;
    assert_eq!(rt; not_utf8, Some((2, LineFault::NotJson)));
    Ok(())
}

#[test]
fn nesting_is_limited(rt: HostRuntime) -> Result<(), Fail> {
    for (depth, fault) in [(127, LineFault::BadShape), (128, LineFault::NotJson)] {
        let mut input = Vec::new(rt.alloc());
        for _ in 0..depth {
            input.push(b'[')?;
        }
        for _ in 0..depth {
            input.push(b']')?;
        }
        let found = fault_of(rt.alloc(), input.as_slice(), &Limits::program())?;
        assert_eq!(rt; found, Some((1, fault)));
    }
    Ok(())
}

#[test]
fn documents_and_stored_values_have_a_shape(rt: HostRuntime) -> Result<(), Fail> {
    all_have(
        &rt,
        rt.alloc(),
        LineFault::BadShape,
        &[
            "[]",
            "1",
            "null",
            "\"a\"",
            "{\"x\":1}",
            "{\"stored\":{}}",
            "{\"stored\":null}",
            "{\"indexed\":null}",
            "{\"stored\":[1]}",
            "{\"stored\":[],\"stored\":1}",
            "{\"stored\":[{\"text\":\"a\"}]}",
            "{\"stored\":[{\"field\":1,\"text\":\"a\"}]}",
            "{\"stored\":[{\"field\":null,\"text\":\"a\"}]}",
            "{\"stored\":[{\"field\":\"f\"}]}",
            "{\"stored\":[{\"field\":\"f\",\"text\":1}]}",
            "{\"stored\":[{\"field\":\"f\",\"text\":null}]}",
            "{\"stored\":[{\"field\":\"f\",\"text\":\"a\",\"binary\":\"00\"}]}",
            "{\"stored\":[{\"field\":\"f\",\"text\":\"a\",\"norm\":1}]}",
            "{\"stored\":[{\"field\":\"f\",\"text\":\"a\",\"tokenized\":1}]}",
            "{\"stored\":[{\"field\":\"f\",\"text\":\"a\",\"tokenized\":null}]}",
            "{\"stored\":[{\"field\":\"f\",\"binary\":\"abc\"}]}",
            "{\"stored\":[{\"field\":\"f\",\"binary\":\"zz\"}]}",
            "{\"stored\":[{\"field\":\"f\",\"binary\":0}]}",
        ],
    )
}

#[test]
fn indexed_fields_have_a_shape(rt: HostRuntime) -> Result<(), Fail> {
    all_have(
        &rt,
        rt.alloc(),
        LineFault::BadShape,
        &[
            "{\"indexed\":[{\"text\":\"a\"}]}",
            "{\"indexed\":[{\"field\":\"f\"}]}",
            "{\"indexed\":[{\"field\":\"f\",\"text\":\"a\",\"tokens\":[]}]}",
            "{\"indexed\":[{\"field\":\"f\",\"text\":\"a\",\"stored\":1}]}",
            "{\"indexed\":[{\"field\":\"f\",\"text\":null}]}",
            "{\"indexed\":[{\"field\":\"f\",\"tokens\":{}}]}",
            "{\"indexed\":[{\"field\":\"f\",\"tokens\":null}]}",
            "{\"indexed\":[{\"field\":\"f\",\"text\":\"a\",\"norm\":256}]}",
            "{\"indexed\":[{\"field\":\"f\",\"text\":\"a\",\"norm\":-1}]}",
            "{\"indexed\":[{\"field\":\"f\",\"text\":\"a\",\"norm\":-0}]}",
            "{\"indexed\":[{\"field\":\"f\",\"text\":\"a\",\"norm\":1.0}]}",
            "{\"indexed\":[{\"field\":\"f\",\"text\":\"a\",\"norm\":1e0}]}",
            "{\"indexed\":[{\"field\":\"f\",\"text\":\"a\",\"norm\":18446744073709551616}]}",
            "{\"indexed\":[{\"field\":\"f\",\"text\":\"a\",\"norm\":\"1\"}]}",
            "{\"indexed\":[{\"field\":\"f\",\"text\":\"a\",\"omitTf\":1}]}",
            "{\"indexed\":[{\"field\":\"f\",\"text\":\"a\",\"omitTf\":null}]}",
            "{\"indexed\":[{\"field\":\"f\",\"text\":\"a\",\"vector\":\"Off\"}]}",
            "{\"indexed\":[{\"field\":\"f\",\"text\":\"a\",\"vector\":null}]}",
            // What is no shape comes before what is wrong with the document.
            "{\"indexed\":[{\"field\":\"f\",\"text\":\"a\"},{\"field\":\"f\",\"text\":\"a\"},1]}",
        ],
    )
}

#[test]
fn tokens_have_a_shape(rt: HostRuntime) -> Result<(), Fail> {
    for token in [
        "1",
        "{\"position\":0,\"start\":0,\"end\":1}",
        "{\"text\":\"a\",\"start\":0,\"end\":1}",
        "{\"text\":\"a\",\"position\":0,\"end\":1}",
        "{\"text\":\"a\",\"position\":0,\"start\":0}",
        "{\"text\":null,\"position\":0,\"start\":0,\"end\":1}",
        "{\"text\":\"a\",\"position\":4294967296,\"start\":0,\"end\":1}",
        "{\"text\":\"a\",\"position\":-0,\"start\":0,\"end\":1}",
        "{\"text\":\"a\",\"position\":0,\"start\":0.0,\"end\":1}",
        "{\"text\":\"a\",\"position\":0,\"start\":0,\"end\":1e0}",
        "{\"text\":\"a\",\"position\":0,\"start\":0,\"end\":18446744073709551616}",
        "{\"text\":\"a\",\"position\":0,\"start\":0,\"end\":1,\"payload\":null}",
        "{\"text\":\"a\",\"position\":0,\"start\":0,\"end\":1,\"payload\":\"0\"}",
        "{\"text\":\"a\",\"position\":0,\"start\":0,\"end\":1,\"norm\":1}",
    ] {
        let input = format!(in rt.alloc();
            "{{\"indexed\":[{{\"field\":\"f\",\"tokens\":[{token}]}}]}}"
        )?;
        all_have(&rt, rt.alloc(), LineFault::BadShape, &[input.as_str()])?;
    }
    Ok(())
}

#[test]
fn faults_of_documents_are_told(rt: HostRuntime) -> Result<(), Fail> {
    let mut long = String::new(rt.alloc());
    for _ in 0..65_536 {
        long.push_str("ab")?;
    }
    let name = format!(in rt.alloc(); "{{\"stored\":[{{\"field\":\"{long}\",\"text\":\"\"}}]}}")?;
    let indexed = format!(in rt.alloc();
        "{{\"indexed\":[{{\"field\":\"{long}\",\"text\":\"\"}}]}}"
    )?;
    let text = format!(in rt.alloc();
        "{{\"indexed\":[{{\"field\":\"f\",\"text\":\"a {long}\"}}]}}"
    )?;
    let payload = format!(in rt.alloc();
        "{{\"indexed\":[{{\"field\":\"f\",\"tokens\":[{{\"text\":\"\",\"position\":0,\"start\":0,\"end\":0,\"payload\":\"{long}\"}}]}}]}}"
    )?;
    let rows = [
        (name.as_str(), DocFault::NameLong),
        (indexed.as_str(), DocFault::NameLong),
        (text.as_str(), DocFault::TextLong),
        (payload.as_str(), DocFault::PayloadLong),
        (
            "{\"indexed\":[{\"field\":\"f\",\"tokens\":[{\"text\":\"\",\"position\":2147483648,\"start\":0,\"end\":0}]}]}",
            DocFault::PositionOrder,
        ),
        (
            "{\"indexed\":[{\"field\":\"f\",\"tokens\":[{\"text\":\"\",\"position\":0,\"start\":2,\"end\":1}]}]}",
            DocFault::OffsetOrder,
        ),
        (
            "{\"indexed\":[{\"field\":\"f\",\"tokens\":[{\"text\":\"\",\"position\":0,\"start\":0,\"end\":4294967295}]}]}",
            DocFault::OffsetOrder,
        ),
        (
            "{\"indexed\":[{\"field\":\"f\",\"text\":\"\"},{\"field\":\"f\",\"text\":\"\"}]}",
            DocFault::FieldTwice,
        ),
    ];
    for (line, fault) in rows {
        all_have(&rt, rt.alloc(), LineFault::Doc(fault), &[line])?;
    }
    let few = Limits {
        documents: 9,
        tokens: 1,
        file_bytes: 9,
    };
    let many = fault_of(
        rt.alloc(),
        b"\n{}\n{\"indexed\":[{\"field\":\"f\",\"text\":\"a b\"}]}\n",
        &few,
    )?;
    assert_eq!(rt; many, Some((3, LineFault::Doc(DocFault::TokensMany))));
    Ok(())
}

#[test]
fn lines_end_at_line_feeds(rt: HostRuntime) -> Result<(), Fail> {
    let rows = [
        (b"".as_slice(), 0),
        (b"\n\n".as_slice(), 0),
        (b"{}".as_slice(), 1),
        (b"{}\n".as_slice(), 1),
        (b"\n{}\n\n{}".as_slice(), 2),
        (b" {} \r\n\t{}\r\n".as_slice(), 2),
        (b"{\"stored\":[1],\"stored\":[]}".as_slice(), 1),
    ];
    for (input, count) in rows {
        let documents = match read_documents(rt.alloc(), input, &Limits::program()) {
            Ok(documents) => documents,
            Err(_) => return Err(Fail::from("good lines")),
        };
        assert_eq!(rt; documents.len(), count, "at {input:?}");
    }
    let limits = Limits::program();
    assert_eq!(rt;
        fault_of(rt.alloc(), b"{}\n\n{", &limits)?,
        Some((3, LineFault::NotJson))
    );
    assert_eq!(rt;
        fault_of(rt.alloc(), b"{}\n[]\n{", &limits)?,
        Some((2, LineFault::BadShape))
    );
    assert_eq!(rt;
        fault_of(rt.alloc(), b"{}\r\n\r\n", &limits)?,
        Some((2, LineFault::NotJson))
    );
    Ok(())
}

/// That a token is this, without a payload.
fn is_token(rt: &impl Abort, token: &Token, text: &str, places: (u32, u32, u32)) {
    assert_eq!(rt; token.text.as_str(), text);
    assert_eq!(rt; (token.position, token.start, token.end), places);
    assert!(rt; token.payload.as_slice().is_empty());
}

#[test]
fn texts_are_split_at_white_space(rt: HostRuntime) -> Result<(), Fail> {
    // U+0085 and U+00A0 are white space; U+200B, U+180E, U+001C and U+001F are not; U+10000 has two units.
    let tokens = tokens_of(
        rt.alloc(),
        "\u{85}a\u{a0}b\u{200b}\u{180e}c\u{1c}\u{1f}d \u{10000}x\n",
    )?;
    assert_eq!(rt; tokens.len(), 3);
    let words = [
        ("a", (0, 1, 2)),
        ("b\u{200b}\u{180e}c\u{1c}\u{1f}d", (1, 3, 10)),
        ("\u{10000}x", (2, 11, 14)),
    ];
    for (token, (text, places)) in tokens.iter().zip(words) {
        is_token(&rt, token, text, places);
    }
    assert!(rt; tokens_of(rt.alloc(), "")?.is_empty());
    assert!(rt; tokens_of(rt.alloc(), " \t\u{3000}")?.is_empty());
    Ok(())
}

/// That an indexed field is this.
fn is_field(rt: &impl Abort, field: &IndexedField, name: &str, norm: Option<u8>, vector: Vector) {
    assert_eq!(rt; field.field.as_str(), name);
    assert_eq!(rt; field.norm, norm);
    assert!(rt; field.vector == vector);
}

#[test]
fn a_document_is_read(rt: HostRuntime) -> Result<(), Fail> {
    let line =
        b"{\"stored\":[{\"field\":\"s\",\"text\":\"\\u00e9\"},{\"field\":\"\",\"tokenized\":true,\"binary\":\"0aFf\"}],\"indexed\":[{\"field\":\"a\",\"text\":\"x y\"},{\"field\":\"b\",\"norm\":null,\"omitTf\":true,\"vector\":\"both\",\"tokens\":[{\"text\":\"\",\"position\":3,\"start\":1,\"end\":2,\"payload\":\"00\"}]},{\"field\":\"c\",\"norm\":\"x\",\"norm\":255,\"vector\":\"offsets\",\"text\":\"\"},{\"field\":\"d\",\"norm\":0,\"vector\":\"plain\",\"tokens\":[]},{\"field\":\"e\",\"vector\":\"positions\",\"text\":\" \"}]}";
    let documents = match read_documents(rt.alloc(), line, &Limits::program()) {
        Ok(documents) => documents,
        Err(_) => return Err(Fail::from("a good line")),
    };
    assert_eq!(rt; documents.len(), 1);
    let document = documents.first().ok_or("a document")?;
    let [first, second] = document.stored.as_slice() else {
        return Err(Fail::from("two stored values"));
    };
    assert_eq!(rt; (first.field.as_str(), first.tokenized), ("s", false));
    assert!(rt; matches!(&first.value, Stored::Text(text) if text.as_str() == "\u{e9}"));
    assert_eq!(rt; (second.field.as_str(), second.tokenized), ("", true));
    assert!(rt;
        matches!(&second.value, Stored::Binary(bytes) if bytes.as_slice() == b"\x0a\xff".as_slice())
    );
    let [a, b, c, d, e] = document.indexed.as_slice() else {
        return Err(Fail::from("five indexed fields"));
    };
    is_field(&rt, a, "a", Some(124), Vector::Off);
    is_field(&rt, b, "b", None, Vector::Both);
    is_field(&rt, c, "c", Some(255), Vector::Offsets);
    is_field(&rt, d, "d", Some(0), Vector::Plain);
    is_field(&rt, e, "e", Some(124), Vector::Positions);
    assert!(rt; b.omit_tf && !a.omit_tf);
    let [x, y] = a.tokens.as_slice() else {
        return Err(Fail::from("two tokens"));
    };
    is_token(&rt, x, "x", (0, 0, 1));
    is_token(&rt, y, "y", (1, 2, 3));
    let [token] = b.tokens.as_slice() else {
        return Err(Fail::from("a token"));
    };
    assert_eq!(rt; (token.position, token.start, token.end), (3, 1, 2));
    assert_eq!(rt; token.payload.as_slice(), b"\0".as_slice());
    Ok(())
}
