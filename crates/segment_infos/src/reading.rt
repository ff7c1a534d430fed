//! Reading a `segments_N` file, record by record.
ghost use Rattle.std.specs.Prelude.{◌≡◌, not, pos, [], None, IfOk};
ghost use Rattle.std.specs.Ordering.{int_eq};
ghost use Rattle.lu_prims.specs.Checksum.{checksum};
ghost use Rattle.lu_grammar.specs.Records.{first_broken, record_at};
ghost use Rattle.lu_grammar.specs.Plans.{times, read_plan};
ghost use Rattle.segment_infos.specs.Records.{heading as heading_of, line as line_of, user as user_of, heading_record, line_record, user_record};
ghost use Rattle.segment_infos.specs.Conditions.{line_conditions};
ghost use Rattle.segment_infos.specs.Format.{of_heading, of_line, of_user, lines_kind, front_plan, commit_plan};
ghost use Rattle.lu_grammar.specs.Answers.{Gives};
ghost use Rattle.lu_types.specs.Judging.{GivesIn, Checks};
ghost use Rattle.segment_infos.specs.Answers.{GivesOr};
ghost use Rattle.segment_infos.specs.Unsealed.{unsealed_value, fault_of_stop, rule_of_stop, Seals};

use crate::commit::Commit;
use crate::judging::{heading_broken, line_broken, map_broken};
use crate::lists::{MapPairs, Segments};
use crate::numbers::{count_or_zero, long_count_or_zero};
use crate::parts::{heading_parts, line_parts, map_parts};
use crate::record::{Heading, MapPart, SegmentLine};
use crate::segment::segment;
use crate::stop::Stop;
use crate::taking::Taking;
use lu_prims::{Bad, Cur, crc32};
use lu_types::rules::{CHECKSUM, TRAILING, rule_of};
use lu_types::{CodecFault, FileKind, Spot};
use std::alloc::Global;

/// All that a commit says, before its checksum was read.
#[derive(Drop)]
pub struct Unsealed {
    pub version: u64,
    pub counter: u32,
    pub segments: Segments,
    pub user: MapPairs,
}

/// The fault of a commit that breaks the rule at a place.
fn fault(place: usize, rule: u16) -> CodecFault
    ensures { result ≡ CodecFault.Spot (record { kind = FileKind.Commit; offset = place; rule = rule }) }
{
    CodecFault::Spot(Spot::at(FileKind::Commit, place, rule))
}

/// The same where there may have been no memory.
fn stopped(place: usize, stop: Stop<u16>) -> CodecFault
    ensures { result ≡ fault_of_stop place stop }
{
    match stop {
        Stop::Wrong(rule) => fault(place, rule),
        Stop::OutOfMemory => CodecFault::OutOfMemory,
    }
}

/// The rule that an unread part breaks, or that there was no memory.
fn unread(stop: Stop<Bad>) -> Stop<u16>
    ensures { result ≡ rule_of_stop stop }
{
    match stop {
        Stop::Wrong(bad) => Stop::Wrong(rule_of(bad)),
        Stop::OutOfMemory => Stop::OutOfMemory,
    }
}

/// The header at the cursor, or the rule that it breaks.
fn heading(cur: &mut Cur<'_>) -> Result<Heading, u16>
    ensures { Gives heading_of (record_at heading_record of_heading cur.old) cur.new result }
{
    let heading = match heading_parts(cur) {
        Err(bad) => return Err(rule_of(bad)),
        Ok(heading) => heading,
    };
    match heading_broken(&heading) {
        Some(rule) => Err(rule),
        None => Ok(heading),
    }
}

/// The segment at the cursor after those before it, or the rule that it breaks.
fn line<'a>(alloc: Global, cur: &mut Cur<'a>, taking: &Taking) -> Result<SegmentLine<'a>, Stop<u16>>
    ensures gives { GivesOr line_of (record_at line_record (of_line taking.now) cur.old) cur.new result }
    ensures good { IfOk result (λ line. first_broken (line_conditions taking.now line) ≡ None) }
{
    let line = match line_parts(alloc, cur) {
        Err(stop) => return Err(unread(stop)),
        Ok(line) => line,
    };
    match line_broken(&line, taking) {
        Some(rule) => Err(Stop::Wrong(rule)),
        None => Ok(line),
    }
}

/// So many segments from the cursor on.
fn lines(alloc: Global, cur: &mut Cur<'_>, count: u32) -> Result<Segments, CodecFault>
    ensures { GivesIn FileKind.Commit (λ segments. segments) (read_plan (times lines_kind count []) cur.old) cur.new result }
{
    let mut taking = Taking::new(alloc);
    for _ in 0..count {
        let place = cur.place();
        match line(alloc, cur, &taking) {
            Err(stop) => return Err(stopped(place, stop)),
            Ok(found) => taking.push(segment(found))?,
        }
    }
    Ok(taking.into_segments())
}

/// The user data at the cursor, or the rule that they break.
fn user(alloc: Global, cur: &mut Cur<'_>) -> Result<MapPart, Stop<u16>>
    ensures { GivesOr user_of (record_at user_record of_user cur.old) cur.new result }
{
    let map = match map_parts(alloc, cur) {
        Err(stop) => return Err(unread(stop)),
        Ok(map) => map,
    };
    match map_broken(&map) {
        Some(rule) => Err(Stop::Wrong(rule)),
        None => Ok(map),
    }
}

/// Whether the number is not the checksum of the bytes.
fn is_other_sum(sum: i64, before: &[u8]) -> bool
    ensures { result ≡ not (int_eq sum (pos (checksum before.now))) }
{
    sum != i64::from(crc32(before))
}

/// Passes the checksum at the cursor, which must be that of the bytes before it, or answers the rule that it breaks.
fn pass_seal(cur: &mut Cur<'_>, before: &[u8]) -> Result<(), u16>
    ensures { Seals before.now cur.old cur.new result }
{
    let sum = match cur.i64() {
        Err(bad) => return Err(rule_of(bad)),
        Ok(sum) => sum,
    };
    if is_other_sum(sum, before) {
        return Err(CHECKSUM);
    }
    Ok(())
}

/// All but the checksum.
fn all_but_seal(alloc: Global, cur: &mut Cur<'_>) -> Result<Unsealed, CodecFault>
    ensures { GivesIn FileKind.Commit unsealed_value (read_plan front_plan cur.old) cur.new result }
{
    let start = cur.place();
    let heading = match heading(cur) {
        Err(rule) => return Err(fault(start, rule)),
        Ok(heading) => heading,
    };
    let segments = match lines(alloc, cur, count_or_zero(heading.count)) {
        Err(found) => return Err(found),
        Ok(segments) => segments,
    };
    let place = cur.place();
    let user = match user(alloc, cur) {
        Err(stop) => return Err(stopped(place, stop)),
        Ok(user) => user,
    };
    Ok(Unsealed {
        version: long_count_or_zero(heading.version),
        counter: count_or_zero(heading.counter),
        segments,
        user: user.pairs,
    })
}

/// The commit that a `segments_N` file spells (format page, "segments_N"). An `Err` is the first fault of the file, or want of
/// memory. Takes time by the length of the bytes and the logarithm of the number of segments.
pub fn read(alloc: Global, bytes: &[u8]) -> Result<Commit, CodecFault>
    ensures { Checks (λ commit. commit) FileKind.Commit (commit_plan bytes.now) bytes.now result }
{
    let mut cur = Cur::at(bytes, 0);
    let found = match all_but_seal(alloc, &mut cur) {
        Err(found) => return Err(found),
        Ok(found) => found,
    };
    let place = cur.place();
    if let Err(rule) = pass_seal(&mut cur, bytes.split_at(place).0) {
        return Err(fault(place, rule));
    }
    if cur.left() > 0 {
        return Err(fault(cur.place(), TRAILING));
    }
    Ok(Commit {
        version: found.version,
        counter: found.counter,
        segments: found.segments,
        user: found.user,
    })
}
