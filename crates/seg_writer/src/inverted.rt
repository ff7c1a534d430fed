//! The terms of a column: its texts in UTF-16 order, each with the tokens that have it.
ghost use Rattle.std.specs.Prelude.{◌≡◌, [], IfOk, IsPermutation, IsSortedByKey};
ghost use Rattle.lu_prims.specs.Order.{text_cmp};
ghost use Rattle.seg_writer.specs.SortedUses.{AreGrouped, AreSortedUses, has_text, lead_length};
ghost use Rattle.seg_writer.specs.Texts.{AreInverted};

use crate::appearance::Appearance;
use crate::heads::is_whole;
use crate::sorted_uses::text_of;
use lu_prims::{OutOfMemory, utf16_cmp};
use std::alloc::Global;

/// A token of a column: the head of its text, the number of its field in the column, and its own there; and, so that its entry can
/// be written without a look at the token, the number of the document and the position.
#[derive(Clone, Copy, Debug, PartialEq, Eq)]
pub(crate) struct Use {
    pub(crate) head: u64,
    pub(crate) entry: u32,
    pub(crate) token: u32,
    pub(crate) doc: u32,
    pub(crate) position: u32,
}

/// A text of a column, and the tokens that have it, in order.
#[derive(Drop)]
pub(crate) struct Inverted<'a, 'u> {
    pub(crate) text: &'a str,
    pub(crate) uses: &'u [Use],
}

// Whether a use has this text, which has this head.
fn has_text(column: &[Appearance<'_>], head: u64, text: &str, here: &Use) -> bool
    ensures { result ≡ has_text column.now head text.now here.now }
{
    if here.head != head {
        return false;
    }
    if is_whole(head) {
        return true;
    }
    text == text_of(column, here)
}

// How many of the first uses have this text, which has this head.
fn run_len(column: &[Appearance<'_>], head: u64, text: &str, uses: &[Use]) -> usize
    ensures { result ≡ lead_length (has_text column.now head text.now) uses.now }
{
    for (count, here) in uses.iter().enumerate() {
        if !has_text(column, head, text, here) {
            return count;
        }
    }
    uses.len()
}

// The texts of sorted uses, each with its uses.
fn grouped<'a, 'u>(
    alloc: Global,
    column: &[Appearance<'a>],
    uses: &'u [Use],
) -> Result<Vec<Inverted<'a, 'u>>, OutOfMemory>
    requires { AreSortedUses column.now uses.now }
    ensures { IfOk result (λ terms. AreGrouped column.now uses.now terms.items []) }
{
    let mut terms = Vec::new(alloc);
    let mut rest = uses;
    while let [first, ..] = rest {
        let text = text_of(column, first);
        let (run, behind) = rest.split_at(run_len(column, first.head, text, rest));
        terms.push(Inverted { text, uses: run })?;
        rest = behind;
    }
    Ok(terms)
}

// Sorts texts in UTF-16 order.
fn sort_terms(terms: &mut Vec<Inverted<'_, '_>>)
    ensures permutation { IsPermutation terms.old.items terms.new.items }
    ensures sorted { IsSortedByKey (λ (t : Inverted). t.text.now) text_cmp terms.new.items }
{
    terms.sort_unstable_by(|a, b| utf16_cmp(a.text, b.text));
}

/// The texts of a column in UTF-16 order, each with the tokens that have it, out of the sorted tokens of the column.
pub(crate) fn invert<'a, 'u>(
    alloc: Global,
    column: &[Appearance<'a>],
    uses: &'u [Use],
) -> Result<Vec<Inverted<'a, 'u>>, OutOfMemory>
    requires { AreSortedUses column.now uses.now }
    ensures { IfOk result (λ terms. AreInverted column.now terms.items) }
{
    let mut terms = grouped(alloc, column, uses)?;
    sort_terms(&mut terms);
    Ok(terms)
}
