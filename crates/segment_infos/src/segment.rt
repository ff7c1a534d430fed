//! What a good line says of its segment.
ghost use Rattle.std.specs.Prelude.{◌≡◌, unwrap_or};
ghost use Rattle.segment_infos.specs.Numbers.{segment_number_in};
ghost use Rattle.segment_infos.specs.Format.{store_of, norm_gens_of, segment_of_line};

use crate::infos::SegInfo;
use crate::lists::NormGens;
use crate::numbers::{count_or_zero, given, is_negative, segment_number_in};
use crate::record::{NormPart, PACKED, SegmentLine, SharedStorePart};
use lu_types::SharedStore;

/// The number that a name spells, and 0 where it is no segment name.
fn number_or_zero(name: &str) -> u32
    ensures { result ≡ unwrap_or (segment_number_in name.now) 0 }
{
    segment_number_in(name).unwrap_or(0)
}

/// The shared store from its place on.
fn store(offset: i32, store: Option<SharedStorePart<'_>>) -> Option<SharedStore>
    ensures { result ≡ store_of offset store.entry }
{
    match store {
        None => None,
        Some(store) => Some(SharedStore {
            offset: count_or_zero(offset),
            number: number_or_zero(store.name.as_str()),
            compound: store.flag == PACKED,
        }),
    }
}

/// The norm generations, where they are counted.
fn norm_gens(norms: NormPart) -> Option<NormGens>
    ensures { result ≡ norm_gens_of norms }
{
    if is_negative(norms.count) {
        return None;
    }
    Some(norms.gens)
}

/// The segment that a line says.
#[tactic(auto, unfolding(crate::specs::Format::segment_of_line))]
pub fn segment(line: SegmentLine<'_>) -> SegInfo
    ensures { result ≡ segment_of_line line.entry }
{
    SegInfo {
        number: number_or_zero(line.front.name.as_str()),
        size: count_or_zero(line.front.size),
        del_gen: given(line.front.del_gen),
        store: store(line.front.offset, line.front.store),
        norm_gens: norm_gens(line.norms),
        compound: line.flags.compound == PACKED,
        deleted: count_or_zero(line.flags.deleted),
        has_prox: line.flags.prox == 1,
        diagnostics: line.map.pairs,
    }
}
