//! What `postings` prints: the documents of a term, from one on, in each segment of the current commit.
ghost use Rattle.std.specs.Prelude.{◌≡◌, ◌≢◌, ◌<◌, ◌^◌, List, ℕ, length, All};
ghost use Rattle.std.specs.Option.{ForSome};
ghost use Rattle.lu_dir.specs.Faults.{Rose, IsCaused};
ghost use Rattle.lu_dir.specs.Files.{AreMadeOfBytes};
ghost use Rattle.segment_infos.specs.Values.{AreLines};
ghost use Rattle.lu_listing.specs.Printing.{page, Prints};
ghost use Rattle.lu_listing.specs.Reached.{IsReachedText};
ghost use Rattle.lu_outcomes.specs.Answers.{IsDirFault, Answers};
ghost use Rattle.lu_reads.specs.Holding.{IsMade};
ghost use Rattle.lu_reads.specs.Segments.{SegmentsGive};
ghost use Rattle.lu_reads.specs.Reaching.{AreReachedTexts, Reaches, PostingsDue};
ghost use Rattle.lu_outcomes.specs.Telling.{Tells};

use crate::holding::{held_segments, standing_segments};
use crate::stopping::{stopped, stopped_by};
use check_index::Standing;
use lu_dir::{Dir, Sink};
use lu_folder::current;
use lu_listing::{PostingsCounts, PostingsQuery, Printer, postings_text};
use lu_outcomes::finishing::given_up;
use lu_outcomes::status::{Status, Which};
use lu_outcomes::telling::tell_rest;
use lu_prims::Steps;
use seg_reader::SegReader;
use segment_infos::SegInfo;
use std::alloc::Global;

/// The label of the steps that are printed.
struct Reached;

/// A term, by the name of its field and its text, and the first document that is asked for.
#[derive(Clone, Copy)]
pub struct Wanted<'a> {
    pub field: &'a str,
    pub text: &'a str,
    pub from: u32,
}

/// The segments of the commit of a generation.
#[derive(Clone, Copy)]
struct Lines<'a> {
    generation: u64,
    segments: &'a [SegInfo],
}

/// Hands the documents of the term in the segment with this place to the printer.
fn reach_segment<K: Sink>(
    printer: &mut Printer,
    out: &mut K,
    reader: &mut SegReader<'_>,
    place: u32,
    wanted: Wanted<'_>,
)
    requires { wanted.from < 2 ^ 31 }
    ensures { (lines : List ℕ) × IsReachedText reader.old place wanted.entry.field.now wanted.entry.text.now wanted.entry.from lines
        × Prints (page printer.old (K.taken out.old) (K.faults out.old)) (page printer.new (K.taken out.new) (K.faults out.new)) lines }
{
    let mut counts: PostingsCounts<Reached> = PostingsCounts {
        seek: Steps::new(),
        walk: Steps::new(),
    };
    let query = PostingsQuery {
        place,
        field: wanted.field,
        text: wanted.text,
        from: wanted.from,
    };
    postings_text(printer, out, reader, &query, &mut counts);
}

/// Hands the documents of the term in each segment to the printer, which keeps that memory ended, if it did.
fn reach_segments<K: Sink>(
    alloc: Global,
    printer: &mut Printer,
    out: &mut K,
    segments: Vec<Standing<'_>>,
    wanted: Wanted<'_>,
)
    requires stand { All IsMade segments.items }
    requires count { length segments.items < 2 ^ 31 }
    requires from { wanted.from < 2 ^ 31 }
    ensures { (lines : List ℕ) × AreReachedTexts wanted.entry.field.now wanted.entry.text.now wanted.entry.from 0 segments.entry.items lines
        × Prints (page printer.old (K.taken out.old) (K.faults out.old)) (page printer.new (K.taken out.new) (K.faults out.new)) lines }
{
    let mut place = 0;
    for standing in segments {
        if printer.has_failed() {
            return;
        }
        let Ok(mut reader) = SegReader::new(alloc, standing) else {
            printer.give_up();
            return;
        };
        reach_segment(printer, out, &mut reader, place, wanted);
        place += 1;
    }
}

/// Prints the documents of the term in each segment, and answers how it went.
fn reach<K: Sink>(
    alloc: Global,
    segments: Vec<Standing<'_>>,
    wanted: Wanted<'_>,
    out: &mut K,
) -> Status
    requires stand { All IsMade segments.items }
    requires count { length segments.items < 2 ^ 31 }
    requires from { wanted.from < 2 ^ 31 }
    ensures tells { (lines : List ℕ) × AreReachedTexts wanted.entry.field.now wanted.entry.text.now wanted.entry.from 0 segments.entry.items lines
        × Tells Status.Ok lines (K.taken out.old) (K.taken out.new) result }
    ensures folder { ¬ IsDirFault result }
    ensures input { result ≢ Status.Device Which.Source }
    ensures cause { IsCaused (K.faults out.old) (K.faults out.new) (result ≡ Status.Device Which.Sink) }
{
    let Ok(mut printer) = Printer::new(alloc) else {
        return Status::NoMemory;
    };
    reach_segments(alloc, &mut printer, out, segments, wanted);
    tell_rest(printer, out)
}

/// Answers by these segments of the current commit: all of their files are loaded and checked before anything is printed.
fn reach_lines<D: Dir, K: Sink>(
    alloc: Global,
    lines: Lines<'_>,
    wanted: Wanted<'_>,
    dir: &mut D,
    out: &mut K,
) -> Status
    requires lines { AreLines lines.segments.now }
    requires count { length lines.segments.now < 2 ^ 31 }
    requires from { wanted.from < 2 ^ 31 }
    ensures answers { Answers
        (SegmentsGive (D.files dir.old) lines.entry.generation lines.entry.segments.now (Reaches wanted.entry.field.now wanted.entry.text.now wanted.entry.from))
        (Rose (D.faults dir.old) (D.faults dir.new))
        (record { files = D.files dir.old; taken = K.taken out.old }) (record { files = D.files dir.new; taken = K.taken out.new }) result }
    ensures asked { D.asked dir.new ≡ D.asked dir.old }
    ensures folder { IsCaused (D.faults dir.old) (D.faults dir.new) (IsDirFault result) }
    ensures input { result ≢ Status.Device Which.Source }
    ensures output { IsCaused (K.faults out.old) (K.faults out.new) (result ≡ Status.Device Which.Sink) }
{
    let held = match held_segments(alloc, dir, lines.segments) {
        Ok(held) => held,
        Err(fail) => return given_up(fail),
    };
    match standing_segments(alloc, lines.generation, &held) {
        Ok(all) => reach(alloc, all, wanted, out),
        Err(stop) => stopped(alloc, &stop, dir, out),
    }
}

/// Prints, for each segment of the current commit, the documents of the term that are live and not below the first that is asked
/// for, with the steps that it took to reach them, where all segments stand; and answers how it went.
pub fn postings<D: Dir, K: Sink>(
    alloc: Global,
    wanted: Wanted<'_>,
    dir: &mut D,
    out: &mut K,
) -> Status
    requires made { ForSome (D.files dir.old) AreMadeOfBytes }
    requires from { wanted.from < 2 ^ 31 }
    ensures answers { Answers (PostingsDue wanted.entry.field.now wanted.entry.text.now wanted.entry.from (D.files dir.old))
        (Rose (D.faults dir.old) (D.faults dir.new))
        (record { files = D.files dir.old; taken = K.taken out.old }) (record { files = D.files dir.new; taken = K.taken out.new }) result }
    ensures asked { D.asked dir.new ≡ D.asked dir.old }
    ensures folder { IsCaused (D.faults dir.old) (D.faults dir.new) (IsDirFault result) }
    ensures input { result ≢ Status.Device Which.Source }
    ensures output { IsCaused (K.faults out.old) (K.faults out.new) (result ≡ Status.Device Which.Sink) }
{
    let names = match dir.list(alloc) {
        Ok(names) => names,
        Err(fail) => return given_up(fail),
    };
    match current(alloc, dir, &names) {
        Ok(chosen) => {
            let lines = Lines {
                generation: chosen.generation,
                segments: chosen.commit.segments.as_slice(),
            };
            reach_lines(alloc, lines, wanted, dir, out)
        }
        Err(fault) => {
            let stop = stopped_by(alloc, fault);
            stopped(alloc, &stop, dir, out)
        }
    }
}
