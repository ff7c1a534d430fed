//! Documents are judged before anything is written.
ghost use Rattle.std.specs.Prelude.{◌<◌, ◌^◌, length};
ghost use Rattle.seg_writer.specs.Answers.{JudgesDocuments};

use crate::fault::WriteFault;
use lu_types::{Document, Limits, first_fault};
use std::alloc::Global;

/// That no document has a fault, or the first that does.
pub(crate) fn check_documents(
    alloc: Global,
    docs: &[Document],
    limits: &Limits,
) -> Result<(), WriteFault>
    requires { length docs.now < 2 ^ 31 }
    ensures { JudgesDocuments docs.now limits.now result }
{
    for (number, doc) in docs.iter().enumerate() {
        match first_fault(alloc, doc, limits) {
            Ok(None) => {}
            Ok(Some(fault)) => return Err(WriteFault::Doc(number as u32, fault)),
            Err(error) => return Err(WriteFault::from(error)),
        }
    }
    Ok(())
}
