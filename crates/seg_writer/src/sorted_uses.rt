//! The tokens of a column, sorted so that those of one text come one after another.
ghost use Rattle.std.specs.Prelude.{◌≡◌, ◌<◌, ◌++◌, ◌^◌, length, All, IfOk, OnOk, IsPermutation, IsUtf8};
ghost use Rattle.std.specs.List.Sorted.{IsSorted};
ghost use Rattle.seg_writer.specs.Columns.{IsNumberable, all_uses, token_uses, tokens_in_field};
ghost use Rattle.seg_writer.specs.SortedUses.{AreSortedUses, place_cmp, text_at, untold_cmp, use_cmp};

use crate::appearance::Appearance;
use crate::heads::{head_of, is_whole};
use crate::inverted::Use;
use lu_prims::OutOfMemory;
use lu_types::Token;
use std::alloc::Global;
use std::cmp::Ordering;

/// The text of the token that a use is, empty where the column has no such token.
pub(crate) fn text_of<'a>(column: &[Appearance<'a>], here: &Use) -> &'a str
    ensures { result.now ≡ text_at column.now here.now }
{
    match column.get(here.entry as usize) {
        Some(place) => match place.tokens.get(here.token as usize) {
            Some(token) => token.text.as_str(),
            None => "",
        },
        None => "",
    }
}

// Compares two uses by their numbers.
fn compare_places(a: &Use, b: &Use) -> Ordering
    ensures { result ≡ place_cmp a.now b.now }
{
    match a.entry.cmp(&b.entry) {
        Ordering::Equal => a.token.cmp(&b.token),
        order => order,
    }
}

// Compares two uses whose heads are the same: by their texts where the head does not tell them, then by their numbers.
fn compare_untold(column: &[Appearance<'_>], a: &Use, b: &Use) -> Ordering
    requires { a.now.head ≡ b.now.head }
    ensures { result ≡ untold_cmp column.now a.now b.now }
{
    if is_whole(a.head) {
        return compare_places(a, b);
    }
    match text_of(column, a).cmp(text_of(column, b)) {
        Ordering::Equal => compare_places(a, b),
        order => order,
    }
}

// Compares two uses: by their heads, then by their texts, then by their numbers.
fn compare(column: &[Appearance<'_>], a: &Use, b: &Use) -> Ordering
    ensures { result ≡ use_cmp column.now a.now b.now }
{
    match a.head.cmp(&b.head) {
        Ordering::Equal => compare_untold(column, a, b),
        order => order,
    }
}

// Adds the tokens of a field of a document.
fn push_uses(uses: &mut Vec<Use>, doc: u32, entry: u32, tokens: &[Token]) -> Result<(), OutOfMemory>
    requires { length tokens.now < 2 ^ 32 }
    ensures uses { OnOk result (uses.new.items ≡ uses.old.items ++ token_uses doc entry 0 tokens.now) }
    ensures utf8 { OnOk result (All (λ token. IsUtf8 token.text) tokens.now) }
{
    for (number, token) in tokens.iter().enumerate() {
        let head = head_of(token.text.as_str());
        let position = token.position;
        let token = number as u32;
        uses.push(Use {
            head,
            entry,
            token,
            doc,
            position,
        })?;
    }
    Ok(())
}

// How many tokens a column has, as far as they can be counted.
fn token_count(column: &[Appearance<'_>]) -> usize {
    let mut count = 0usize;
    for here in column {
        count = count.saturating_add(here.tokens.len());
    }
    count
}

// The tokens of a column, in their order there.
fn uses_in(alloc: Global, column: &[Appearance<'_>]) -> Result<Vec<Use>, OutOfMemory>
    requires { IsNumberable column.now }
    ensures uses { IfOk result (λ uses. uses.items ≡ all_uses column.now) }
    ensures utf8 { IfOk result (λ _. All (λ a. All (λ token. IsUtf8 token.text) (tokens_in_field a)) column.now) }
{
    let mut uses = Vec::with_capacity(alloc, token_count(column))?;
    for (entry, here) in column.iter().enumerate() {
        push_uses(&mut uses, here.doc, entry as u32, here.tokens)?;
    }
    Ok(uses)
}

// Sorts uses.
fn sort(column: &[Appearance<'_>], uses: &mut Vec<Use>)
    ensures permutation { IsPermutation uses.old.items uses.new.items }
    ensures sorted { IsSorted (use_cmp column.now) uses.new.items }
{
    uses.sort_unstable_by(|a, b| compare(column, a, b));
}

/// The tokens of a column, those of one text one after another and in their order in the column. With n tokens it takes time by
/// n times the logarithm of n, and 24 bytes for each token.
pub(crate) fn sorted_uses(alloc: Global, column: &[Appearance<'_>]) -> Result<Vec<Use>, OutOfMemory>
    requires { IsNumberable column.now }
    ensures { IfOk result (λ uses. AreSortedUses column.now uses.items) }
{
    let mut uses = uses_in(alloc, column)?;
    sort(column, &mut uses);
    Ok(uses)
}
