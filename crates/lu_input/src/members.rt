//! The members of objects, and the values that are no objects (format page, "Input").
ghost use Rattle.std.specs.Prelude.{◌≡◌, ◌≤◌, false, [], Some, option_map, map, nat_le};
ghost use Rattle.std.specs.List.{list_any};
ghost use Rattle.std.specs.Str.{bytes_eq};
ghost use Rattle.serde_json.specs.Find.{as_str, as_bool};
ghost use Rattle.serde_json.specs.View.{view, members_view};
ghost use Rattle.lu_types.specs.declared.document.Vector.TheVariants.{Off};
ghost use Rattle.lu_input.specs.Answers.{AnswersShape};
ghost use Rattle.lu_input.specs.Shapes.{are_among, has_only, required, or_absent, whole_of, bytes_of_hex, norm_of, vector_kind_of, vector_named, greatest};

use crate::fault::Misread;
use hex::FromHexError;
use lu_types::{Bytes, Payload, Text, Vector};
use serde_json::{Map, Value};
use std::alloc::Global;

/// Whether the value is an object that has no other members than these.
pub fn has_only(value: &Value, names: &[&str]) -> bool
    ensures { result ≡ has_only (map (λ name. name.now) names.now) (view value.now) }
{
    match value.as_object() {
        Some(members) => are_among(members, names),
        None => false,
    }
}

/// Whether each member has one of these names.
fn are_among(members: &Map<String, Value>, names: &[&str]) -> bool
    ensures { result ≡ are_among (map (λ name. name.now) names.now) (members_view members.now.entries) }
{
    for name in members.keys() {
        if !is_among(name.as_str(), names) {
            return false;
        }
    }
    true
}

/// Whether the name is one of these.
fn is_among(name: &str, names: &[&str]) -> bool
    ensures { result ≡ list_any (bytes_eq name.now) (map (λ known. known.now) names.now) }
{
    for known in names {
        if name == *known {
            return true;
        }
    }
    false
}

/// The text that a member is.
pub fn text(alloc: Global, member: Option<&Value>) -> Result<Text, Misread>
    ensures { AnswersShape (required as_str (option_map (λ v. view v.now) member.entry)) result }
{
    match member.and_then(Value::as_str) {
        Some(text) => Ok(Text::from_str(alloc, text)?),
        None => Err(Misread::BadShape),
    }
}

/// True or false, and false where the member is absent.
pub fn flag(member: Option<&Value>) -> Result<bool, Misread>
    ensures { AnswersShape (or_absent false as_bool (option_map (λ v. view v.now) member.entry)) result }
{
    match member {
        Some(value) => value.as_bool().ok_or(Misread::BadShape),
        None => Ok(false),
    }
}

/// A whole number that fits 32 bits.
pub fn whole(member: Option<&Value>) -> Result<u32, Misread>
    ensures { AnswersShape (required (whole_of greatest) (option_map (λ v. view v.now) member.entry)) result }
{
    match member.and_then(Value::as_u64) {
        Some(number) if number <= u32::MAX as u64 => Ok(number as u32),
        _ => Err(Misread::BadShape),
    }
}

/// The bytes of hexadecimal text.
pub fn bytes(alloc: Global, value: &Value) -> Result<Bytes, Misread>
    ensures { AnswersShape (bytes_of_hex (view value.now)) result }
{
    let Some(digits) = value.as_str() else {
        return Err(Misread::BadShape);
    };
    match hex::decode(alloc, digits.as_bytes()) {
        Ok(bytes) => Ok(Bytes::new(bytes)),
        Err(FromHexError::OutOfMemory) => Err(Misread::OutOfMemory),
        Err(_) => Err(Misread::BadShape),
    }
}

/// The bytes that a member stands for, none where it is absent.
pub fn payload(alloc: Global, member: Option<&Value>) -> Result<Payload, Misread>
    ensures { AnswersShape (or_absent [] bytes_of_hex (option_map (λ v. view v.now) member.entry)) result }
{
    match member {
        Some(value) => Ok(Payload::new(alloc, bytes(alloc, value)?.into_vec())?),
        None => Ok(Payload::none()),
    }
}

/// The norm of a document that tells none.
const DEFAULT_NORM: u8 = 124;

/// The norm: null omits norms.
pub fn norm(member: Option<&Value>) -> Result<Option<u8>, Misread>
    ensures { AnswersShape (or_absent (Some 124) norm_of (option_map (λ v. view v.now) member.entry)) result }
{
    let Some(value) = member else {
        return Ok(Some(DEFAULT_NORM));
    };
    if value.is_null() {
        return Ok(None);
    }
    match value.as_u64() {
        Some(number) if number <= u8::MAX as u64 => Ok(Some(number as u8)),
        _ => Err(Misread::BadShape),
    }
}

/// What the vector keeps.
pub fn vector(member: Option<&Value>) -> Result<Vector, Misread>
    ensures { AnswersShape (or_absent Off vector_kind_of (option_map (λ v. view v.now) member.entry)) result }
{
    let Some(value) = member else {
        return Ok(Vector::Off);
    };
    value
        .as_str()
        .and_then(vector_named)
        .ok_or(Misread::BadShape)
}

/// What the vector of this name keeps.
fn vector_named(name: &str) -> Option<Vector>
    ensures { result ≡ vector_named name.now }
{
    match name {
        "off" => Some(Vector::Off),
        "plain" => Some(Vector::Plain),
        "positions" => Some(Vector::Positions),
        "offsets" => Some(Vector::Offsets),
        "both" => Some(Vector::Both),
        _ => None,
    }
}
