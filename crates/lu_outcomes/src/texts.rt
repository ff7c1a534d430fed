//! The texts of answers (format page, "Printed texts").
ghost use Rattle.std.specs.Prelude.{◌≡◌, IfOk, string_bytes};
ghost use Rattle.lu_types.specs.Names.{IsPart};
ghost use Rattle.lu_outcomes.specs.Texts.{spot_text, fault_text, stands_text, too_large_text};

use lu_prims::OutOfMemory;
use lu_types::rules::rule_name;
use lu_types::{FileKind, Spot, part_name};
use std::alloc::Global;

/// The line that follows the text where names without use may be left.
pub const LEFT_BEHIND: &str = "left behind\n";

/// The line of a folder without commits.
pub const NO_INDEX: &str = "no index\n";

/// The line of a fault of the file with this name.
pub fn spot_text(alloc: Global, file: &str, spot: &Spot) -> Result<String, OutOfMemory>
    ensures { IfOk result (λ text. string_bytes text ≡ spot_text file.now spot.now) }
{
    let offset = spot.offset;
    let rule = spot.rule;
    let name = rule_name(rule).unwrap_or("");
    Ok(format!(in alloc; "fault {file} {offset} {rule} {name}\n")?)
}

/// The line of a fault of a file of the segment.
pub fn fault_text(alloc: Global, segment: &str, spot: &Spot) -> Result<String, OutOfMemory>
    requires { IsPart spot.now.kind }
    ensures { IfOk result (λ text. string_bytes text ≡ fault_text segment.now spot.now) }
{
    let file = part_name(alloc, segment, spot.kind)?;
    spot_text(alloc, file.as_str(), spot)
}

/// The line of a commit that stands.
pub fn stands_text(
    alloc: Global,
    name: &str,
    segments: usize,
    documents: u64,
    deleted: u64,
) -> Result<String, OutOfMemory>
    ensures { IfOk result (λ text. string_bytes text ≡ stands_text name.now segments documents deleted) }
{
    let text = format!(in alloc;
        "{name} stands: {segments} segments, {documents} documents, {deleted} deleted\n"
    )?;
    Ok(text)
}

/// The line of a file that is too long.
pub fn too_large_text(alloc: Global, kind: FileKind) -> Result<String, OutOfMemory>
    ensures { IfOk result (λ text. string_bytes text ≡ too_large_text kind) }
{
    Ok(format!(in alloc; "refused: FileTooLarge {kind}\n")?)
}
