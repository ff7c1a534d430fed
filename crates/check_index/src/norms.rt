//! The norms of a segment: those in one file, and those in files of their own (format page, "Norms").
ghost use Rattle.std.specs.Prelude.{◌≡◌, ◌<◌, ℕ, List, [], length, map, Option, Some, None, IfOk, option_copied, slice_get, slice_set, unwrap_or};
ghost use Rattle.lu_types.specs.FilePlans.{Judges};
ghost use Rattle.lu_types.specs.Tables.{bits_at};
ghost use Rattle.lu_model.specs.Contents.{has_norms as keeps_norms};
ghost use Rattle.check_index.specs.Files.{file_at};
ghost use Rattle.check_index.specs.Norms.{count_with_norms, norms_from, column_files, is_of_file, is_separate as is_separate_field, needed_file, separate_files, norm_files};

use crate::needed::needed;
use crate::parts::SepFiles;
use doc_marks::{Norms, check_separate};
use lu_prims::OutOfMemory;
use lu_types::bits::{INDEXED, OMIT_NORMS, has_bit};
use lu_types::{CodecFault, FieldTable, FileKind};
use segment_infos::SegInfo;
use std::alloc::Global;
use std::marker::Model;

/// The norms of each field by number, as slices of their files: a byte for each document, or `None` where the field has no norms.
#[derive(Drop)]
pub struct FieldNorms<'a> {
    columns: Vec<Option<&'a [u8]>>,
}

impl<'a> Model for FieldNorms<'a> {
    ghost use Rattle.std.specs.Prelude.{ℕ, List, Option, map, option_copied};

    ghost Value = { List (Option (List ℕ)) };

    ghost view = { λ n. map option_copied n.columns.items };
}

impl<'a> FieldNorms<'a> {
    /// The norms of the field with a number; `None` exactly where there is no such field, or it has no norms.
    pub fn column(&self, number: u32) -> Option<&'a [u8]>
        ensures { option_copied result ≡ file_at self.now number }
    {
        match self.columns.get(number as usize) {
            Some(column) => *column,
            None => None,
        }
    }

    /// Gives the field with a number these norms.
    fn set(&mut self, number: u32, column: &'a [u8])
        requires { number < length self.old }
        ensures { self.new ≡ slice_set self.old number (Some column.entry.now) }
    {
        self.columns[number as usize] = Some(column);
    }
}

/// Whether the field with this number has norms.
fn has_norms(fields: &FieldTable<'_>, number: u32) -> bool
    ensures { result ≡ keeps_norms (bits_at fields.now number) }
{
    match fields.field(number) {
        Some(field) => has_bit(INDEXED, field.bits) && !has_bit(OMIT_NORMS, field.bits),
        None => false,
    }
}

/// How many fields have norms.
fn count_norms(fields: &FieldTable<'_>) -> u32
    ensures { result ≡ count_with_norms fields.now }
{
    let mut count = 0;
    for number in 0..fields.count() {
        if has_norms(fields, number) {
            count += 1;
        }
    }
    count
}

/// No norms for each of the fields.
fn no_norms<'a>(alloc: Global, fields: &FieldTable<'_>) -> Result<FieldNorms<'a>, OutOfMemory>
    ensures { IfOk result (λ norms. norms ≡ map (λ _. None) fields.now) }
{
    let mut columns = Vec::new(alloc);
    for _number in 0..fields.count() {
        columns.push(None)?;
    }
    Ok(FieldNorms { columns })
}

/// The columns of `.nrm`, given in turn to the fields that have norms.
fn by_field<'a>(
    alloc: Global,
    norms: &Norms<'a>,
    fields: &FieldTable<'_>,
) -> Result<FieldNorms<'a>, OutOfMemory>
    requires { length norms.now ≡ count_with_norms fields.now }
    ensures { IfOk result (λ found. found ≡ norms_from 0 norms.now fields.now) }
{
    let mut columns = Vec::new(alloc);
    let mut column = 0;
    for number in 0..fields.count() {
        if has_norms(fields, number) {
            columns.push(Some(norms.column(column)))?;
            column += 1;
        } else {
            columns.push(None)?;
        }
    }
    Ok(FieldNorms { columns })
}

/// The norms of all fields in one file, which is needed where a field has norms.
fn open_columns<'a>(
    alloc: Global,
    nrm: Option<&'a [u8]>,
    size: u32,
    fields: &FieldTable<'_>,
) -> Result<FieldNorms<'a>, CodecFault>
    ensures judged { Judges (λ norms. norms) (column_files (option_copied nrm.entry) size fields.now) result }
    ensures count { IfOk result (λ norms. length norms ≡ length fields.now) }
{
    let count = count_norms(fields);
    if count == 0 {
        return Ok(no_norms(alloc, fields)?);
    }
    let bytes = match needed(nrm, FileKind::Nrm) {
        Err(fault) => return Err(fault),
        Ok(bytes) => bytes,
    };
    match Norms::check_norms(bytes, count, size) {
        Err(spot) => Err(CodecFault::Spot(spot)),
        Ok(norms) => Ok(by_field(alloc, &norms, fields)?),
    }
}

/// Whether the line has a generation of a file for the norms of the field with this number.
fn has_generation(info: &SegInfo, number: u32) -> bool
    ensures { result ≡ is_of_file (slice_get (unwrap_or info.now.norm_gens []) number) }
{
    let Some(generations) = &info.norm_gens else {
        return false;
    };
    match generations.as_slice().get(number as usize) {
        Some(generation) => *generation > 0,
        None => false,
    }
}

/// Whether the norms of the field with this number stand in a file of their own.
fn is_separate(info: &SegInfo, fields: &FieldTable<'_>, number: u32) -> bool
    ensures { result ≡ is_separate_field info.now.norm_gens fields.now number }
{
    has_norms(fields, number) && has_generation(info, number)
}

/// The norms of the field with this number, whose file is needed.
fn open_file<'a>(files: &SepFiles<'a>, number: u32, size: u32) -> Result<&'a [u8], CodecFault>
    ensures judged { (norms : List (Option (List ℕ))) → Judges (λ column. slice_set norms number (Some column.now)) (needed_file size files.now number norms) result }
{
    match needed(files.file(number), FileKind::Sep(number)) {
        Err(fault) => Err(fault),
        Ok(bytes) => match check_separate(bytes, number, size) {
            Err(spot) => Err(CodecFault::Spot(spot)),
            Ok(column) => Ok(column),
        },
    }
}

/// These norms, with those of each field whose norms stand in a file of their own in place of its column.
fn open_separate<'a>(
    mut norms: FieldNorms<'a>,
    files: &SepFiles<'a>,
    info: &SegInfo,
    fields: &FieldTable<'_>,
) -> Result<FieldNorms<'a>, CodecFault>
    requires { length norms ≡ length fields.now }
    ensures judged { Judges (λ found. found) (separate_files info.now.norm_gens fields.now info.now.size files.now (length fields.now) norms.entry) result }
    ensures count { IfOk result (λ found. length found ≡ length fields.now) }
{
    for number in 0..fields.count() {
        if is_separate(info, fields, number) {
            match open_file(files, number, info.size) {
                Err(fault) => return Err(fault),
                Ok(column) => norms.set(number, column),
            }
        }
    }
    Ok(norms)
}

/// The norms of the fields.
pub fn open_norms<'a>(
    alloc: Global,
    nrm: Option<&'a [u8]>,
    files: &SepFiles<'a>,
    info: &SegInfo,
    fields: &FieldTable<'_>,
) -> Result<FieldNorms<'a>, CodecFault>
    ensures judged { Judges (λ norms. norms) (norm_files (option_copied nrm.entry) files.now info.now fields.now) result }
    ensures count { IfOk result (λ norms. length norms ≡ length fields.now) }
{
    match open_columns(alloc, nrm, info.size, fields) {
        Err(fault) => Err(fault),
        Ok(norms) => open_separate(norms, files, info, fields),
    }
}
