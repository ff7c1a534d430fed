//! Which rule a record of `segments_N` breaks first (format page, "segments_N").
ghost use Rattle.std.specs.Prelude.{◌≡◌, not};
ghost use Rattle.std.specs.List.{list_any};
ghost use Rattle.std.specs.Ordering.{int_eq};
ghost use Rattle.lu_grammar.specs.Records.{first_broken};
ghost use Rattle.segment_infos.specs.declared.record.TheConstants.{FORMAT_NUMBER};
ghost use Rattle.segment_infos.specs.Numbers.{is_no_generation};
ghost use Rattle.segment_infos.specs.Conditions.{heading_conditions, name_conditions, is_no_size, size_conditions, has_other_store, has_other_flag, store_conditions, norm_conditions, is_no_flag, is_no_deletion, flag_conditions, map_conditions, line_conditions};

use crate::numbers::{
    count_or_zero, is_below_none, is_long_negative, is_negative, is_no_generation,
    segment_number_in,
};
use crate::record::{
    FORMAT_NUMBER, FlagPart, FrontPart, Heading, MOST_DOCUMENTS, MapPart, NOT_PACKED, NormPart,
    PACKED, SegmentLine, SharedStorePart,
};
use crate::taking::Taking;
use lu_types::rules::{
    COMPOUND_FLAG, DEL_GEN, DELETION_COUNT, FORMAT, MAP_COUNT, NAME_COUNTER, NUM_FIELD, OLD_NORMS,
    PROX_FLAG, SEG_COUNT, SEG_NAME, SEG_SIZE, SEG_TWICE, SEPARATE_NORMS, SHARED_STORE, SIZE_SUM,
    STORE_FLAG, STORE_NAME, VERSION,
};

/// Whether the number is not that of the format.
fn is_other_format(number: i32) -> bool
    ensures { result ≡ not (int_eq number FORMAT_NUMBER) }
{
    number != FORMAT_NUMBER
}

/// The first rule that a header breaks.
pub fn heading_broken(heading: &Heading) -> Option<u16>
    ensures { result ≡ first_broken (heading_conditions heading.now) }
{
    if is_other_format(heading.format) {
        return Some(FORMAT);
    }
    if is_long_negative(heading.version) {
        return Some(VERSION);
    }
    if is_negative(heading.counter) {
        return Some(NAME_COUNTER);
    }
    if is_negative(heading.count) {
        return Some(SEG_COUNT);
    }
    None
}

/// The first rule that the name of a segment breaks after the segments before it.
fn name_broken(front: &FrontPart<'_>, taking: &Taking) -> Option<u16>
    ensures { result ≡ first_broken (name_conditions taking.now front.now) }
{
    match segment_number_in(front.name.as_str()) {
        None => Some(SEG_NAME),
        Some(number) => {
            if taking.has(number) {
                return Some(SEG_TWICE);
            }
            None
        }
    }
}

/// Whether the number is below 0, or there are more documents than may be.
fn is_no_size(size: i32) -> bool
    ensures { result ≡ is_no_size size }
{
    is_negative(size) || count_or_zero(size) > MOST_DOCUMENTS
}

/// The first rule that the size of a segment breaks after the segments before it.
fn size_broken(front: &FrontPart<'_>, taking: &Taking) -> Option<u16>
    ensures { result ≡ first_broken (size_conditions taking.now front.now) }
{
    if is_no_size(front.size) {
        return Some(SEG_SIZE);
    }
    if taking.total() + count_or_zero(front.size) > MOST_DOCUMENTS {
        return Some(SIZE_SUM);
    }
    None
}

/// Whether a store is there whose name is no segment name.
fn has_other_store(store: &Option<SharedStorePart<'_>>) -> bool
    ensures { result ≡ has_other_store store.now }
{
    match store {
        None => false,
        Some(store) => segment_number_in(store.name.as_str()).is_none(),
    }
}

/// Whether a store is there whose flag is neither 0 nor 1.
fn has_other_flag(store: &Option<SharedStorePart<'_>>) -> bool
    ensures { result ≡ has_other_flag store.now }
{
    match store {
        None => false,
        Some(store) => store.flag > PACKED,
    }
}

/// The first rule that the generation and the store of a segment break.
fn store_broken(front: &FrontPart<'_>) -> Option<u16>
    ensures { result ≡ first_broken (store_conditions front.now) }
{
    if is_no_generation(front.del_gen) {
        return Some(DEL_GEN);
    }
    if is_below_none(front.offset) {
        return Some(SHARED_STORE);
    }
    if has_other_store(&front.store) {
        return Some(STORE_NAME);
    }
    if has_other_flag(&front.store) {
        return Some(STORE_FLAG);
    }
    None
}

/// Whether one of the numbers is neither -1 nor at least 1.
fn has_no_generation(gens: &[i64]) -> bool
    ensures { result ≡ list_any is_no_generation gens.now }
{
    gens.iter().any(|generation| is_no_generation(*generation))
}

/// The first rule that what is said of the norms breaks.
fn norm_broken(norms: &NormPart) -> Option<u16>
    ensures { result ≡ first_broken (norm_conditions norms.now) }
{
    if norms.single != 1 {
        return Some(OLD_NORMS);
    }
    if is_below_none(norms.count) {
        return Some(NUM_FIELD);
    }
    if has_no_generation(norms.gens.as_slice()) {
        return Some(SEPARATE_NORMS);
    }
    None
}

/// Whether the flag is neither 01 nor FF.
fn is_no_flag(flag: u8) -> bool
    ensures { result ≡ is_no_flag flag }
{
    flag != PACKED && flag != NOT_PACKED
}

/// Whether the number is below 0, or over the size, or not 0 where there is no file of deleted documents.
fn is_no_deletion(front: &FrontPart<'_>, deleted: i32) -> bool
    ensures { result ≡ is_no_deletion front.now deleted }
{
    is_negative(deleted)
        || count_or_zero(front.size) < count_or_zero(deleted)
        || (is_long_negative(front.del_gen) && count_or_zero(deleted) != 0)
}

/// The first rule that the flags of a segment break.
fn flag_broken(front: &FrontPart<'_>, flags: &FlagPart) -> Option<u16>
    ensures { result ≡ first_broken (flag_conditions front.now flags.now) }
{
    if is_no_flag(flags.compound) {
        return Some(COMPOUND_FLAG);
    }
    if is_no_deletion(front, flags.deleted) {
        return Some(DELETION_COUNT);
    }
    if flags.prox > 1 {
        return Some(PROX_FLAG);
    }
    None
}

/// The rule that a Map breaks.
pub fn map_broken(map: &MapPart) -> Option<u16>
    ensures { result ≡ first_broken (map_conditions map.now) }
{
    if is_negative(map.count) {
        return Some(MAP_COUNT);
    }
    None
}

/// The first rule that a segment breaks after the segments before it.
pub fn line_broken(line: &SegmentLine<'_>, taking: &Taking) -> Option<u16>
    ensures { result ≡ first_broken (line_conditions taking.now line.now) }
{
    name_broken(&line.front, taking)
        .or(size_broken(&line.front, taking))
        .or(store_broken(&line.front))
        .or(norm_broken(&line.norms))
        .or(flag_broken(&line.front, &line.flags))
        .or(map_broken(&line.map))
}
