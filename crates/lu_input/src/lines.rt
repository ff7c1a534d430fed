//! The lines of an input, and their documents (format page, "Input").
ghost use Rattle.std.specs.Prelude.{◌≡◌, ◌⊎◌, ◌<◌, ◌^◌, length, Ok, Err, All, IfOk, IfErr, OnOk, option_map};
ghost use Rattle.serde_json.specs.View.{view};
ghost use Rattle.lu_types.specs.Documents.{IsDocument};
ghost use Rattle.lu_input.specs.Answers.{Appends, JudgesLine};
ghost use Rattle.lu_input.specs.Lengths.{HasShortTexts, HasShortTextsIfAny};
ghost use Rattle.lu_input.specs.Lines.{input_documents, json_of, line_document, line_found, shaped, sound};
ghost use Rattle.lu_input.specs.Shapes.{document_of};

use crate::fault::{InputFault, LineFault, Misread};
use crate::objects;
use lu_prims::OutOfMemory;
use lu_types::{Document, Limits, first_fault};
use serde_json::{Category, Value};
use std::alloc::Global;

/// Where a line ends.
const LINE_FEED: u8 = b'\n';

/// The documents of the lines of an input of fewer than 2^31 bytes, in order, or the first faulty line, counted from 1, with its
/// fault (format page, "Input"). Empty lines have no document. `OutOfMemory` says only that there was no memory.
pub fn read_documents(
    alloc: Global,
    bytes: &[u8],
    limits: &Limits,
) -> Result<Vec<Document>, InputFault>
    requires { length bytes.now < 2 ^ 31 }
    ensures ok { IfOk result (λ documents. input_documents limits.now bytes.now ≡ Ok documents.items) }
    ensures err { IfErr result (λ fault. (fault ≡ InputFault.OutOfMemory) ⊎ (input_documents limits.now bytes.now ≡ Err fault)) }
    ensures texts { IfOk result (λ documents. All IsDocument documents.items) }
{
    let mut documents = Vec::new(alloc);
    let mut start = 0;
    let mut number = 1;
    for (place, byte) in bytes.iter().enumerate() {
        if *byte == LINE_FEED {
            match read_line(alloc, &bytes[start..place], number, limits, &mut documents) {
                Ok(()) => {}
                Err(fault) => return Err(fault),
            }
            start = place + 1;
            number += 1;
        }
    }
    match read_line(alloc, &bytes[start..], number, limits, &mut documents) {
        Ok(()) => Ok(documents),
        Err(fault) => Err(fault),
    }
}

/// Appends the document of the line with a number, none where the line is empty; or answers its fault.
#[tactic(auto, unfolding(crate::specs::Lines::line_found))]
fn read_line(
    alloc: Global,
    line: &[u8],
    number: u32,
    limits: &Limits,
    documents: &mut Vec<Document>,
) -> Result<(), InputFault>
    requires { length line.now < 2 ^ 31 }
    ensures appends { Appends (line_found limits.now number line.now) documents.old.items documents.new.items result }
    ensures texts { All IsDocument documents.old.items → OnOk result (All IsDocument documents.new.items) }
{
    if line.is_empty() {
        return Ok(());
    }
    match line_document(alloc, line, number, limits) {
        Ok(document) => match documents.push(document) {
            Ok(()) => Ok(()),
            Err(_) => Err(InputFault::OutOfMemory),
        },
        Err(fault) => Err(fault),
    }
}

/// The document of the line with a number, or its fault. What was read of its JSON is dropped.
#[tactic(auto, unfolding(crate::specs::Lines::line_document))]
fn line_document(
    alloc: Global,
    line: &[u8],
    number: u32,
    limits: &Limits,
) -> Result<Document, InputFault>
    requires { length line.now < 2 ^ 31 }
    ensures judges { JudgesLine number (line_document limits.now line.now) result }
    ensures texts { IfOk result IsDocument }
{
    let found = match json(alloc, line) {
        Ok(found) => found,
        Err(_) => return Err(InputFault::OutOfMemory),
    };
    match found {
        Some(value) => shaped(alloc, &value, number, limits),
        None => Err(InputFault::Line(number, LineFault::NotJson)),
    }
}

/// The JSON value that a line is, where it is one.
fn json(alloc: Global, line: &[u8]) -> Result<Option<Value>, OutOfMemory>
    requires { length line.now < 2 ^ 31 }
    ensures found { IfOk result (λ found. json_of line.now ≡ option_map view found) }
    ensures short { IfOk result (λ found. HasShortTextsIfAny (option_map view found)) }
{
    match Value::from_slice(alloc, line) {
        Ok(value) => Ok(Some(value)),
        Err(error) => match error.classify() {
            Category::Memory => Err(OutOfMemory),
            _ => Ok(None),
        },
    }
}

/// The document that the value of the line with a number is, or its fault.
fn shaped(
    alloc: Global,
    value: &Value,
    number: u32,
    limits: &Limits,
) -> Result<Document, InputFault>
    requires { HasShortTexts (view value.now) }
    ensures judges { JudgesLine number (shaped limits.now (document_of (view value.now))) result }
    ensures texts { IfOk result IsDocument }
{
    match objects::document(alloc, value) {
        Ok(document) => sound(alloc, document, number, limits),
        Err(Misread::BadShape) => Err(InputFault::Line(number, LineFault::BadShape)),
        Err(Misread::OutOfMemory) => Err(InputFault::OutOfMemory),
    }
}

/// The document of the line with a number, where it has no fault.
fn sound(
    alloc: Global,
    document: Document,
    number: u32,
    limits: &Limits,
) -> Result<Document, InputFault>
    ensures judges { JudgesLine number (sound limits.now document) result }
    ensures texts { IfOk result IsDocument }
{
    let first = match first_fault(alloc, &document, limits) {
        Ok(first) => first,
        Err(_) => return Err(InputFault::OutOfMemory),
    };
    match first {
        None => Ok(document),
        Some(fault) => Err(InputFault::Line(number, LineFault::Doc(fault))),
    }
}
