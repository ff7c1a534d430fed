//! The segment whose first term comes first, in a tree: node 1 is the root, nodes 2j and 2j + 1 are below node j, and the last nodes
//! are the segments.
ghost use Rattle.std.specs.Prelude.{◌≡◌, ◌⊎◌, ◌<◌, ◌^◌, length, option_map, IfOk};
ghost use Rattle.lu_model.specs.Index.{term_cmp};
ghost use Rattle.seg_merger.specs.TermHeads.{IsBefore, IsBuilt, IsNearly, IsTournament, head_order};
ghost use Rattle.seg_merger.specs.TermRests.{rest_heads};
ghost use Rattle.seg_merger.specs.TermSources.{term_named};

use crate::terms::slot::{Slot, TermName};
use lu_prims::{OutOfMemory, utf16_cmp};
use std::alloc::Global;
use std::cmp::Ordering;

// How two terms stand to each other.
fn name_cmp(a: TermName<'_>, b: TermName<'_>) -> Ordering
    ensures { result ≡ term_cmp (term_named a.entry) (term_named b.entry) }
{
    match utf16_cmp(a.field, b.field) {
        Ordering::Equal => utf16_cmp(a.text, b.text),
        order => order,
    }
}

// How two heads stand to each other: a term comes before none.
fn head_cmp(a: Option<TermName<'_>>, b: Option<TermName<'_>>) -> Ordering
    ensures { result ≡ head_order (option_map term_named a.entry) (option_map term_named b.entry) }
{
    match (a, b) {
        (Some(a), Some(b)) => name_cmp(a, b),
        (Some(_), None) => Ordering::Less,
        (None, Some(_)) => Ordering::Greater,
        (None, None) => Ordering::Equal,
    }
}

// Which of two segments comes first.
fn first_of(slots: &[Slot<'_, '_>], a: u32, b: u32) -> u32
    requires { (a < length slots.now) × (b < length slots.now) }
    ensures either { (result ≡ a) ⊎ (result ≡ b) }
    ensures left { IsBefore (rest_heads slots.now) result a }
    ensures right { IsBefore (rest_heads slots.now) result b }
{
    let left = slots[a as usize].head();
    let right = slots[b as usize].head();
    match head_cmp(left, right).then(a.cmp(&b)) {
        Ordering::Greater => b,
        _ => a,
    }
}

/// Brings the tree in order again where the first term of one segment has changed; the node is the one above that segment.
pub(crate) fn replay(slots: &[Slot<'_, '_>], tree: &mut [u32], above: usize)
    requires nearly { IsNearly (rest_heads slots.now) tree.old above }
    requires inner { above < length slots.now }
    requires few { length slots.now < 2 ^ 32 }
    ensures { IsTournament (rest_heads slots.now) tree.new }
{
    let mut node = above;
    while node > 0 {
        tree[node] = first_of(slots, tree[2 * node], tree[2 * node + 1]);
        node /= 2;
    }
}

/// The tree of these segments.
pub(crate) fn tournament(alloc: Global, slots: &[Slot<'_, '_>]) -> Result<Vec<u32>, OutOfMemory>
    requires { (0 < length slots.now) × (length slots.now < 2 ^ 32) }
    ensures { IfOk result (λ tree. IsTournament (rest_heads slots.now) tree.items) }
{
    let count = slots.len();
    let mut tree = Vec::new(alloc);
    for _ in 0..count {
        tree.push(0)?;
    }
    for number in 0..count {
        tree.push(number as u32)?;
    }
    build(slots, tree.as_mut_slice());
    Ok(tree)
}

// Fills the inner nodes, from the last one on.
fn build(slots: &[Slot<'_, '_>], tree: &mut [u32])
    requires leaves { IsBuilt (rest_heads slots.now) tree.old (length slots.now) }
    requires some { 0 < length slots.now }
    requires few { length slots.now < 2 ^ 32 }
    ensures { IsTournament (rest_heads slots.now) tree.new }
{
    let mut node = slots.len();
    while node > 1 {
        node -= 1;
        tree[node] = first_of(slots, tree[2 * node], tree[2 * node + 1]);
    }
}
