//! The objects of a line: documents, stored values, indexed fields and tokens (format page, "Input").
ghost use Rattle.std.specs.Prelude.{◌≡◌, ◌<◌, ◌^◌, [], Some, option_map, map, codes};
ghost use Rattle.serde_json.specs.Find.{as_str, get};
ghost use Rattle.serde_json.specs.View.{view};
ghost use Rattle.lu_input.specs.Answers.{AnswersShape};
ghost use Rattle.lu_input.specs.Lengths.{HasShortTexts, HasShortTextsIfAny};
ghost use Rattle.lu_input.specs.Shapes.{or_absent, list_of, one_of, stored_of, token_of, indexed_of, document_of, stored_value_in, tokens_in};

use crate::fault::Misread;
use crate::members;
use crate::members::has_only;
use crate::words::tokens_of;
use lu_types::{Document, IndexedField, Items, Stored, StoredValue, Token};
use serde_json::Value;
use std::alloc::Global;

/// The document that a value is, whose texts are shorter than 2^31 bytes.
pub fn document(alloc: Global, value: &Value) -> Result<Document, Misread>
    requires { HasShortTexts (view value.now) }
    ensures { AnswersShape (document_of (view value.now)) result }
{
    if !has_only(value, &["stored", "indexed"]) {
        return Err(Misread::BadShape);
    }
    let stored = stored_values(alloc, value.get("stored"))?;
    let indexed = indexed_fields(alloc, value.get("indexed"))?;
    Ok(Document { stored, indexed })
}

/// The stored values of a list, none where it is absent.
fn stored_values(alloc: Global, member: Option<&Value>) -> Result<Items<StoredValue>, Misread>
    ensures { AnswersShape (or_absent [] (list_of stored_of) (option_map (λ v. view v.now) member.entry)) result }
{
    let Some(value) = member else {
        return Ok(Items::new(Vec::new(alloc)));
    };
    let Some(items) = value.as_array() else {
        return Err(Misread::BadShape);
    };
    let mut values = Vec::with_capacity(alloc, items.len())?;
    for item in items {
        match stored_value(alloc, item) {
            Ok(value) => values.push(value)?,
            Err(fault) => return Err(fault),
        }
    }
    Ok(Items::new(values))
}

/// The indexed fields of a list, none where it is absent.
fn indexed_fields(alloc: Global, member: Option<&Value>) -> Result<Items<IndexedField>, Misread>
    requires { HasShortTextsIfAny (option_map (λ v. view v.now) member) }
    ensures { AnswersShape (or_absent [] (list_of indexed_of) (option_map (λ v. view v.now) member.entry)) result }
{
    let Some(value) = member else {
        return Ok(Items::new(Vec::new(alloc)));
    };
    let Some(items) = value.as_array() else {
        return Err(Misread::BadShape);
    };
    let mut fields = Vec::with_capacity(alloc, items.len())?;
    for item in items {
        match indexed_field(alloc, item) {
            Ok(field) => fields.push(field)?,
            Err(fault) => return Err(fault),
        }
    }
    Ok(Items::new(fields))
}

/// The stored value that an object is.
fn stored_value(alloc: Global, value: &Value) -> Result<StoredValue, Misread>
    ensures { AnswersShape (stored_of (view value.now)) result }
{
    if !has_only(value, &["field", "tokenized", "text", "binary"]) {
        return Err(Misread::BadShape);
    }
    let field = members::text(alloc, value.get("field"))?;
    let tokenized = members::flag(value.get("tokenized"))?;
    let value = stored(alloc, value.get("text"), value.get("binary"))?;
    Ok(StoredValue {
        field,
        tokenized,
        value,
    })
}

/// What is stored: exactly one of a text and of bytes.
fn stored(alloc: Global, text: Option<&Value>, binary: Option<&Value>) -> Result<Stored, Misread>
    ensures { AnswersShape (stored_value_in (option_map (λ v. view v.now) text.entry) (option_map (λ v. view v.now) binary.entry)) result }
{
    match (text, binary) {
        (Some(_), None) => Ok(Stored::Text(members::text(alloc, text)?)),
        (None, Some(value)) => Ok(Stored::Binary(members::bytes(alloc, value)?)),
        _ => Err(Misread::BadShape),
    }
}

/// The indexed field that an object is.
fn indexed_field(alloc: Global, value: &Value) -> Result<IndexedField, Misread>
    requires { HasShortTexts (view value.now) }
    ensures { AnswersShape (indexed_of (view value.now)) result }
{
    if !has_only(
        value,
        &["field", "norm", "omitTf", "vector", "text", "tokens"],
    ) {
        return Err(Misread::BadShape);
    }
    let field = members::text(alloc, value.get("field"))?;
    let norm = members::norm(value.get("norm"))?;
    let omit_tf = members::flag(value.get("omitTf"))?;
    let vector = members::vector(value.get("vector"))?;
    let tokens = tokens(alloc, value.get("text"), value.get("tokens"))?;
    Ok(IndexedField {
        field,
        norm,
        omit_tf,
        vector,
        tokens,
    })
}

/// The tokens: exactly one of a text and of a list of them.
fn tokens(
    alloc: Global,
    text: Option<&Value>,
    list: Option<&Value>,
) -> Result<Items<Token>, Misread>
    requires { HasShortTextsIfAny (option_map (λ v. view v.now) text) }
    ensures { AnswersShape (tokens_in (option_map (λ v. view v.now) text.entry) (option_map (λ v. view v.now) list.entry)) result }
{
    match (text, list) {
        (Some(value), None) => match value.as_str() {
            Some(text) => Ok(Items::new(tokens_of(alloc, text)?)),
            None => Err(Misread::BadShape),
        },
        (None, Some(value)) => token_list(alloc, value),
        _ => Err(Misread::BadShape),
    }
}

/// The tokens of a list.
fn token_list(alloc: Global, value: &Value) -> Result<Items<Token>, Misread>
    ensures { AnswersShape (list_of token_of (view value.now)) result }
{
    let Some(items) = value.as_array() else {
        return Err(Misread::BadShape);
    };
    let mut tokens = Vec::with_capacity(alloc, items.len())?;
    for item in items {
        match token(alloc, item) {
            Ok(token) => tokens.push(token)?,
            Err(fault) => return Err(fault),
        }
    }
    Ok(Items::new(tokens))
}

/// The token that an object is.
fn token(alloc: Global, value: &Value) -> Result<Token, Misread>
    ensures { AnswersShape (token_of (view value.now)) result }
{
    if !has_only(value, &["text", "position", "start", "end", "payload"]) {
        return Err(Misread::BadShape);
    }
    let text = members::text(alloc, value.get("text"))?;
    let position = members::whole(value.get("position"))?;
    let start = members::whole(value.get("start"))?;
    let end = members::whole(value.get("end"))?;
    let payload = members::payload(alloc, value.get("payload"))?;
    Ok(Token {
        text,
        position,
        start,
        end,
        payload,
    })
}
