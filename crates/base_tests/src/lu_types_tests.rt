use lu_prims::OutOfMemory;
use lu_types::rules::{self, rule_name};
use lu_types::{
    Bytes, CodecFault, DocFault, Document, FieldTable, FileKind, GREATEST_SEGMENT, IndexedField,
    Items, JoinedTable, Limits, Payload, Stored, StoredValue, Text, Token, Vector, first_fault,
    join_field, part_name, segment_name, segment_number, table_of, validate,
};
use std::alloc::Global;
use std::test::Fail;

#[test]
fn fields_are_found_by_name_and_number(rt: HostRuntime) -> Result<(), Fail> {
    let mut table = FieldTable::new(rt.alloc());
    assert_eq!(rt; table.count(), 0);
    for (name, bits) in [("title", 0x10), ("body", 0x0f)] {
        assert!(rt; table.find(name).is_none());
        assert!(rt; table.count() < 2);
        table.push(name, bits)?;
    }
    assert_eq!(rt; table.count(), 2);
    assert_eq!(rt; table.find("title"), Some(0));
    assert_eq!(rt; table.find("body"), Some(1));
    assert_eq!(rt; table.find("bod"), None);
    let body = table.field(1).ok_or("two fields")?;
    assert_eq!(rt; body.name, "body");
    assert_eq!(rt; body.bits, 0x0f);
    assert!(rt; table.field(2).is_none());
    Ok(())
}

#[test]
fn kinds_have_extensions_in_order(rt: HostRuntime) -> Result<(), Fail> {
    let kinds = [
        (FileKind::Commit, "segments"),
        (FileKind::Cfs, "cfs"),
        (FileKind::Cfx, "cfx"),
        (FileKind::Fnm, "fnm"),
        (FileKind::Nrm, "nrm"),
        (FileKind::Sep(7), "s7"),
        (FileKind::Sep(10), "s10"),
        (FileKind::Del, "del"),
        (FileKind::Tvf, "tvf"),
    ];
    let mut before = None;
    for (kind, text) in kinds {
        let extension = kind.extension(rt.alloc())?;
        assert_eq!(rt; extension.as_str(), text);
        if let Some(last) = before {
            assert!(rt; kind > last);
            assert!(rt; last.is_before(&kind));
        }
        before = Some(kind);
    }
    Ok(())
}

#[test]
fn rules_have_names(rt: HostRuntime) -> Result<(), Fail> {
    let names = [
        (rules::ENDS, "Ends"),
        (27, "Checksum"),
        (rules::CFS_FIRST, "CfsFirst"),
        (36, "FieldTwice"),
        (39, "NormCount"),
        (42, "StoreRange"),
        (66, "TiiTerm"),
        (83, "SkipPayload"),
        (92, "DelTotal"),
        (113, "VectorOffset"),
    ];
    for (rule, name) in names {
        assert_eq!(rt; rule_name(rule).ok_or("a rule")?, name);
    }
    assert!(rt; rule_name(33).is_none());
    assert!(rt; CodecFault::from(OutOfMemory) == CodecFault::OutOfMemory);
    Ok(())
}

#[test]
fn segments_and_their_files_have_names(rt: HostRuntime) -> Result<(), Fail> {
    let numbers = [
        ("_0", Some(0)),
        ("_z", Some(35)),
        ("_10", Some(36)),
        ("_zik0zi", Some(GREATEST_SEGMENT)),
        ("_zik0zj", None),
        ("_01", None),
        ("_", None),
        ("_A", None),
        ("0", None),
        ("", None),
        ("_0.fnm", None),
    ];
    for (text, number) in numbers {
        assert_eq!(rt; segment_number(text), number);
    }
    let segment = segment_name(rt.alloc(), 36)?;
    assert_eq!(rt; segment.as_str(), "_10");
    let fields = part_name(rt.alloc(), segment.as_str(), FileKind::Fnm)?;
    assert_eq!(rt; fields.as_str(), "_10.fnm");
    Ok(())
}

/// So many letters.
fn letters(alloc: Global, count: usize) -> Result<String, OutOfMemory> {
    let mut text = String::new(alloc);
    for _ in 0..count {
        text.push('a')?;
    }
    Ok(text)
}

/// What a row of `documents_have_their_first_fault` changes: the lengths of the stored value's name, of the indexed name, of the
/// first token's text and of its payload, the name of the second field, how many tokens a field may have, and where tokens stand.
#[derive(Clone, Copy)]
struct Row {
    stored: usize,
    indexed: usize,
    text: usize,
    payload: usize,
    second: &'static str,
    tokens: u32,
    positions: (u32, u32),
    span: (u32, u32),
}

/// A row without a fault, with everything as great as it may be.
const GOOD: Row = Row {
    stored: 65535,
    indexed: 65535,
    text: 65535,
    payload: 65535,
    second: "aa",
    tokens: 2,
    positions: (2147483647, 2147483647),
    span: (2147483647, 2147483647),
};

/// The two tokens of the row's first field.
fn tokens(alloc: Global, row: Row) -> Result<Items<Token>, OutOfMemory> {
    let mut tokens = Vec::new(alloc);
    tokens.push(Token {
        text: Text::new(letters(alloc, row.text)?),
        position: row.positions.0,
        start: row.span.0,
        end: row.span.1,
        payload: Payload::new(alloc, letters(alloc, row.payload)?.into_bytes())?,
    })?;
    tokens.push(Token {
        text: Text::from_str(alloc, "b")?,
        position: row.positions.1,
        start: 0,
        end: 0,
        payload: Payload::none(),
    })?;
    Ok(Items::fitted(tokens))
}

/// A field without norms, and with all that a vector can keep.
fn field(name: Text, tokens: Items<Token>) -> IndexedField {
    IndexedField {
        field: name,
        norm: None,
        omit_tf: false,
        vector: Vector::Both,
        tokens,
    }
}

/// The row's document.
fn document(alloc: Global, row: Row) -> Result<Document, OutOfMemory> {
    let mut stored = Vec::new(alloc);
    stored.push(StoredValue {
        field: Text::new(letters(alloc, row.stored)?),
        tokenized: false,
        value: Stored::Text(Text::from_str(alloc, "x")?),
    })?;
    let mut indexed = Vec::new(alloc);
    let name = Text::new(letters(alloc, row.indexed)?);
    indexed.push(field(name, tokens(alloc, row)?))?;
    let second = Text::from_str(alloc, row.second)?;
    indexed.push(field(second, Items::new(Vec::new(alloc))))?;
    Ok(Document {
        stored: Items::new(stored),
        indexed: Items::new(indexed),
    })
}

#[test]
fn documents_have_their_first_fault(rt: HostRuntime) -> Result<(), Fail> {
    let rows = [
        (GOOD, None),
        (
            Row {
                stored: 65536,
                ..GOOD
            },
            Some(DocFault::NameLong),
        ),
        (
            Row {
                indexed: 65536,
                ..GOOD
            },
            Some(DocFault::NameLong),
        ),
        (Row { indexed: 2, ..GOOD }, Some(DocFault::FieldTwice)),
        (Row { tokens: 1, ..GOOD }, Some(DocFault::TokensMany)),
        (
            Row {
                text: 65536,
                ..GOOD
            },
            Some(DocFault::TextLong),
        ),
        (
            Row {
                positions: (2, 1),
                ..GOOD
            },
            Some(DocFault::PositionOrder),
        ),
        (
            Row {
                positions: (1, 2147483648),
                ..GOOD
            },
            Some(DocFault::PositionOrder),
        ),
        (
            Row {
                span: (2, 1),
                ..GOOD
            },
            Some(DocFault::OffsetOrder),
        ),
        (
            Row {
                span: (1, 2147483648),
                ..GOOD
            },
            Some(DocFault::OffsetOrder),
        ),
        (
            Row {
                payload: 65536,
                ..GOOD
            },
            Some(DocFault::PayloadLong),
        ),
    ];
    for (row, fault) in rows {
        let doc = document(rt.alloc(), row)?;
        let limits = Limits {
            documents: 1,
            tokens: row.tokens.min(2),
            file_bytes: 1,
        };
        assert_eq!(rt; validate(&doc, &limits).err(), fault);
        assert_eq!(rt; first_fault(rt.alloc(), &doc, &limits)?, fault);
    }
    assert_eq!(rt; Limits::program().tokens, 16777215);
    Ok(())
}

#[test]
fn fields_of_documents_are_joined(rt: HostRuntime) -> Result<(), Fail> {
    let alloc = rt.alloc();
    let docs = [document(
        alloc,
        Row {
            stored: 1,
            indexed: 1,
            ..GOOD
        },
    )?];
    let mut table = table_of(alloc, &docs)?;
    assert_eq!(rt; table.len(), 2);
    assert_eq!(rt; table.iter().map(|field| field.bits).max(), Some(0x3f));
    join_field(alloc, &mut table, "aa", 0x41)?;
    join_field(alloc, &mut table, "b", 0x01)?;
    let mut joined = JoinedTable::new(alloc);
    for (name, bits, number) in [
        ("a", 0x10, 0),
        ("aa", 0x1f, 1),
        ("a", 0x3f, 0),
        ("aa", 0x41, 1),
        ("b", 0x01, 2),
    ] {
        assert_eq!(rt; joined.join(name, bits)?, number);
        assert_eq!(rt; joined.find(name), Some(number));
    }
    assert_eq!(rt; joined.count(), 3);
    let infos = joined.to_infos(alloc)?;
    for (number, info) in table.iter().enumerate() {
        let field = joined.field(number).ok_or("three fields")?;
        assert_eq!(rt; field.bits, info.bits);
        assert_eq!(rt; field.name, info.name.as_str());
        assert_eq!(rt;
            infos.as_slice().get(number).map(|other| other.bits),
            Some(info.bits)
        );
    }
    Ok(())
}

#[test]
fn lists_and_texts_are_given_back(rt: HostRuntime) -> Result<(), Fail> {
    let text = Text::from_str(rt.alloc(), "aa")?;
    assert_eq!(rt; text.as_str(), "aa");
    assert_eq!(rt; text.into_string(rt.alloc())?.as_str(), "aa");
    let long = letters(rt.alloc(), 17)?;
    let text = Text::from_str(rt.alloc(), long.as_str())?;
    assert_eq!(rt; text.as_str(), long.as_str());
    assert_eq!(rt; text.into_string(rt.alloc())?.as_str(), long.as_str());
    let fitted = Text::fitted(letters(rt.alloc(), 2)?);
    assert_eq!(rt; fitted.as_str(), "aa");
    let payload = Payload::new(rt.alloc(), letters(rt.alloc(), 2)?.into_bytes())?;
    assert_eq!(rt; payload.as_slice(), b"aa".as_slice());
    assert_eq!(rt; payload.into_vec(rt.alloc()).as_slice(), b"aa".as_slice());
    assert_eq!(rt; Payload::none().into_vec(rt.alloc()).len(), 0);
    let stored = Stored::Binary(Bytes::new(letters(rt.alloc(), 2)?.into_bytes()));
    assert_eq!(rt; stored.as_bytes(), b"aa".as_slice());
    let bytes = Bytes::fitted(letters(rt.alloc(), 3)?.into_bytes());
    assert_eq!(rt; bytes.as_slice().len(), 3);
    assert_eq!(rt; bytes.into_vec().as_slice(), b"aaa".as_slice());
    Ok(())
}
