//! The names of the files of an index (format page, "Names of files").
ghost use Rattle.std.specs.Prelude.{◌≡◌, ℕ, ◌<◌, ◌≤◌, ◌^◌, ◌↔◌, IsTrue, IfOk, MatchOption, string_bytes};
ghost use Rattle.lu_prims.specs.Base36.{base36};
ghost use Rattle.lu_types.specs.declared.kind.FileKind.TheVariants.{Sep as sep_kind};
ghost use Rattle.lu_types.specs.Kinds.{extension as extension_of};
ghost use Rattle.lu_types.specs.Names.{IsPart, greatest_segment, part_name as name_of_part};
ghost use Rattle.segment_infos.specs.LuceneNames.{IsGenerationNumber, IsName, SpellsName, IsLuceneName, name_spelling, with_generation};
ghost use Rattle.segment_infos.specs.Parsing.{HasNoDot, HasNeither, file_text, generation_text, TellsName, IsDecimal, IsFile};

use lu_prims::{OutOfMemory, base36_text, base36_value};
use lu_types::{FileKind, GREATEST_SEGMENT, part_name, segment_name};
use std::alloc::Global;

/// The numbers of fields are below this one.
const FIELD_LIMIT: u32 = 1 << 31;

/// What the name of a file of an index says (format page, "Names of files"). A segment's number is at most 2^31 - 2, a generation
/// is from 1 to 2^63 - 1, and a field's number is below 2^31.
#[derive(Clone, Copy, Debug, PartialEq, Eq, PartialOrd, Ord)]
pub enum LuceneName {
    /// `segments_N`: the commit of this generation.
    Commit(u64),
    /// `_X.E`: the file of this segment of a kind of which it has one that is named by its extension.
    Part(u32, FileKind),
    /// `_X_g.del`: the deleted documents of this segment, of this generation.
    Del(u32, u64),
    /// `_X_g.sN`: the norms of a field of this segment, of this generation; the field's number stands last.
    Sep(u32, u64, u32),
}

/// The name of a segment, `_` and a generation.
fn with_generation(alloc: Global, segment: u32, generation: u64) -> Result<String, OutOfMemory>
    requires { generation < 2 ^ 63 }
    ensures { IfOk result (λ stem. string_bytes stem ≡ with_generation segment generation) }
{
    let segment = segment_name(alloc, segment)?;
    let digits = base36_text(alloc, generation)?;
    let stem = format!(in alloc; "{segment}_{digits}")?;
    Ok(stem)
}

/// The name of a file of a segment and a generation, of a kind that is named so.
fn generation_name(
    alloc: Global,
    segment: u32,
    generation: u64,
    kind: FileKind,
) -> Result<String, OutOfMemory>
    requires { generation < 2 ^ 63 }
    ensures { IfOk result (λ name. string_bytes name ≡ name_of_part (with_generation segment generation) kind) }
{
    let stem = with_generation(alloc, segment, generation)?;
    let name = format!(in alloc; "{stem}.{kind}")?;
    Ok(name)
}

/// The spelling of a name (format page, "Names of files"). An `Err` is want of memory.
pub fn name_text(alloc: Global, name: &LuceneName) -> Result<String, OutOfMemory>
    requires { IsName name.now }
    ensures { IfOk result (λ text. string_bytes text ≡ name_spelling name.now) }
{
    match *name {
        LuceneName::Commit(generation) => {
            let digits = base36_text(alloc, generation)?;
            let text = format!(in alloc; "segments_{digits}")?;
            Ok(text)
        }
        LuceneName::Part(segment, kind) => {
            let stem = segment_name(alloc, segment)?;
            part_name(alloc, stem.as_str(), kind)
        }
        LuceneName::Del(segment, generation) => {
            generation_name(alloc, segment, generation, FileKind::Del)
        }
        LuceneName::Sep(segment, generation, field) => {
            generation_name(alloc, segment, generation, FileKind::Sep(field))
        }
    }
}

/// The generation that digits spell; `None` where they spell none.
fn generation_number(digits: &str) -> Option<u64>
    ensures { MatchOption result
        ((generation : ℕ) → IsGenerationNumber generation → digits.now ≡ base36 generation → ⊥)
        (λ generation. IsGenerationNumber generation × (digits.now ≡ base36 generation)) }
{
    let generation = base36_value(digits)?;
    if generation == 0 {
        return None;
    }
    Some(generation)
}

/// The number of a segment that digits spell; `None` where they spell none.
fn segment_digits(digits: &str) -> Option<u32>
    ensures { MatchOption result
        ((segment : ℕ) → segment ≤ greatest_segment → digits.now ≡ base36 segment → ⊥)
        (λ segment. (segment ≤ greatest_segment) × (digits.now ≡ base36 segment)) }
{
    let number = base36_value(digits)?;
    if number <= GREATEST_SEGMENT as u64 {
        Some(number as u32)
    } else {
        None
    }
}

/// The kind of a part that has the extension; `None` where no part has it.
fn part_kind(text: &str) -> Option<FileKind>
    ensures { MatchOption result
        ((kind : FileKind) → IsPart kind → text.now ≡ extension_of kind → ⊥)
        (λ kind. IsPart kind × (text.now ≡ extension_of kind)) }
{
    match text {
        "cfs" => Some(FileKind::Cfs),
        "cfx" => Some(FileKind::Cfx),
        "fnm" => Some(FileKind::Fnm),
        "fdx" => Some(FileKind::Fdx),
        "fdt" => Some(FileKind::Fdt),
        "tis" => Some(FileKind::Tis),
        "tii" => Some(FileKind::Tii),
        "frq" => Some(FileKind::Frq),
        "prx" => Some(FileKind::Prx),
        "nrm" => Some(FileKind::Nrm),
        "tvx" => Some(FileKind::Tvx),
        "tvd" => Some(FileKind::Tvd),
        "tvf" => Some(FileKind::Tvf),
        _ => None,
    }
}

/// The number of the field whose norms have the extension in a file of their own; `None` where it is no such extension.
fn field_number(text: &str) -> Option<u32>
    ensures { MatchOption result
        ((field : ℕ) → field < 2 ^ 31 → text.now ≡ extension_of (sep_kind field) → ⊥)
        (λ field. (field < 2 ^ 31) × (text.now ≡ extension_of (sep_kind field))) }
{
    let digits = text.strip_prefix('s')?;
    if !is_decimal(digits) {
        return None;
    }
    let Ok(field) = digits.parse::<u32>() else {
        return None;
    };
    if field < FIELD_LIMIT {
        Some(field)
    } else {
        None
    }
}

/// Whether the text has decimal digits alone, and no zero before another.
fn is_decimal(text: &str) -> bool
    ensures { IsTrue result ↔ IsDecimal text.now }
{
    let bytes = text.as_bytes();
    let leads_zero = bytes.len() > 1 && bytes[0] == b'0';
    !leads_zero && bytes.iter().all(|byte| matches!(byte, b'0'..=b'9'))
}

/// The part of a segment that has these digits and this extension; `None` where there is none.
fn part_value(digits: &str, extension: &str) -> Option<LuceneName>
    requires { HasNeither digits.now }
    ensures { TellsName (file_text digits.now extension.now) result }
{
    let segment = segment_digits(digits)?;
    let kind = part_kind(extension)?;
    Some(LuceneName::Part(segment, kind))
}

/// The file of a segment and a generation that have these digits and this extension; `None` where there is none.
fn generation_value(segment: &str, generation: &str, extension: &str) -> Option<LuceneName>
    requires segment { HasNeither segment.now }
    requires generation { HasNoDot generation.now }
    ensures { TellsName (generation_text segment.now generation.now extension.now) result }
{
    let segment = segment_digits(segment)?;
    let generation = generation_number(generation)?;
    if extension == "del" {
        return Some(LuceneName::Del(segment, generation));
    }
    let field = field_number(extension)?;
    Some(LuceneName::Sep(segment, generation, field))
}

/// The file of a segment whose name the text is; `None` where it is that of none.
fn file_value(text: &str) -> Option<LuceneName>
    ensures { MatchOption result ((name : LuceneName) → IsFile name → SpellsName text.now name → ⊥) (SpellsName text.now) }
{
    let (stem, extension) = text.split_once('.')?;
    let digits = stem.strip_prefix('_')?;
    match digits.split_once('_') {
        None => part_value(digits, extension),
        Some((segment, generation)) => generation_value(segment, generation, extension),
    }
}

/// The name that a text spells; `None` exactly where it spells none (format page, "Names of files"). Takes no memory.
pub fn name_value(text: &str) -> Option<LuceneName>
    ensures { MatchOption result (¬ IsLuceneName text.now) (SpellsName text.now) }
{
    match text.strip_prefix("segments_") {
        None => file_value(text),
        Some(digits) => Some(LuceneName::Commit(generation_number(digits)?)),
    }
}
