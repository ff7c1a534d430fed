//! Why a command is refused, as it is printed.
ghost use Rattle.std.specs.Prelude.{◌≡◌, IfOk, string_bytes};
ghost use Rattle.lu_outcomes.specs.Refusing.{doc_fault_name as name_of_doc_fault, line_fault_name as name_of_line_fault, refusal_text as text_of_refusal, refused_outcome};

use crate::outcome::Outcome;
use crate::status::{Refusal, Status};
use lu_input::LineFault;
use lu_prims::OutOfMemory;
use lu_types::DocFault;
use std::alloc::Global;

/// The name of a fault of a document.
fn doc_fault_name(fault: DocFault) -> &'static str
    ensures { result.now ≡ name_of_doc_fault fault }
{
    match fault {
        DocFault::NameLong => "NameLong",
        DocFault::TextLong => "TextLong",
        DocFault::PositionOrder => "PositionOrder",
        DocFault::OffsetOrder => "OffsetOrder",
        DocFault::PayloadLong => "PayloadLong",
        DocFault::FieldTwice => "FieldTwice",
        DocFault::TokensMany => "TokensMany",
    }
}

/// The name of a fault of a line.
fn line_fault_name(fault: LineFault) -> &'static str
    ensures { result.now ≡ name_of_line_fault fault }
{
    match fault {
        LineFault::NotJson => "NotJson",
        LineFault::BadShape => "BadShape",
        LineFault::Doc(fault) => doc_fault_name(fault),
    }
}

/// The line of the refusal of a line of the input.
fn line_text(alloc: Global, number: u32, fault: LineFault) -> Result<String, OutOfMemory>
    ensures { IfOk result (λ text. string_bytes text ≡ text_of_refusal (Refusal.Line number fault)) }
{
    let name = line_fault_name(fault);
    let text = format!(in alloc; "refused: line {number} {name}\n")?;
    Ok(text)
}

/// The line of a refusal.
fn refusal_text(alloc: Global, refusal: Refusal) -> Result<String, OutOfMemory>
    ensures { IfOk result (λ text. string_bytes text ≡ text_of_refusal refusal) }
{
    match refusal {
        Refusal::FileTooLarge(kind) => Ok(format!(in alloc; "refused: FileTooLarge {kind}\n")?),
        Refusal::Line(number, fault) => line_text(alloc, number, fault),
        Refusal::InputTooLarge => Ok(String::from_str(alloc, "refused: InputTooLarge\n")?),
        Refusal::TooLarge(kind) => Ok(format!(in alloc; "refused: TooLarge {kind}\n")?),
        Refusal::TooMany => Ok(String::from_str(alloc, "refused: TooMany\n")?),
        Refusal::GenerationFull => Ok(String::from_str(alloc, "refused: GenerationFull\n")?),
        Refusal::VersionFull => Ok(String::from_str(alloc, "refused: VersionFull\n")?),
        Refusal::CounterFull => Ok(String::from_str(alloc, "refused: CounterFull\n")?),
        Refusal::DelGenFull(_) => Ok(String::from_str(alloc, "refused: DelGenFull\n")?),
    }
}

/// The outcome of a refusal.
pub fn refused(alloc: Global, refusal: Refusal) -> Result<Outcome, OutOfMemory>
    ensures { IfOk result (λ outcome. outcome ≡ refused_outcome refusal) }
{
    let text = refusal_text(alloc, refusal)?;
    Ok(Outcome::without_effect(Status::Refused(refusal), text.into_bytes()))
}
