//! What `show` prints: the listing of the segments of the current commit.
ghost use Rattle.std.specs.Prelude.{◌≡◌, ◌≢◌, ◌<◌, ◌^◌, length};
ghost use Rattle.std.specs.Option.{ForSome};
ghost use Rattle.lu_dir.specs.Faults.{Rose, IsCaused};
ghost use Rattle.lu_dir.specs.Files.{AreMadeOfBytes};
ghost use Rattle.segment_infos.specs.Values.{AreLines};
ghost use Rattle.lu_listing.specs.Printing.{page, Prints};
ghost use Rattle.lu_outcomes.specs.Answers.{IsDirFault, Answers};
ghost use Rattle.lu_reads.specs.Segments.{SegmentsGive};
ghost use Rattle.lu_reads.specs.Showing.{listing_of, Lists, ShowDue};
ghost use Rattle.lu_outcomes.specs.Telling.{Tells};

use crate::holding::{held_segments, standing_segments};
use crate::stopping::{stopped, stopped_by};
use check_index::Standing;
use lu_dir::{Dir, Sink};
use lu_folder::current;
use lu_listing::{Printer, segment_text};
use lu_outcomes::finishing::given_up;
use lu_outcomes::status::{Status, Which};
use lu_outcomes::telling::tell_rest;
use lu_prims::Steps;
use seg_reader::SegReader;
use segment_infos::SegInfo;
use std::alloc::Global;

/// The label of the steps of the walks over the terms of a segment. Nobody asks for their count.
struct Walked;

/// Hands the listing of the segments to the printer, which keeps that memory ended, if it did.
fn list_segments<K: Sink>(
    alloc: Global,
    printer: &mut Printer,
    out: &mut K,
    segments: Vec<Standing<'_>>,
)
    requires { length segments.items < 2 ^ 31 }
    ensures { Prints (page printer.old (K.taken out.old) (K.faults out.old)) (page printer.new (K.taken out.new) (K.faults out.new))
        (listing_of segments.entry.items) }
{
    let mut place = 0;
    for standing in segments {
        if printer.has_failed() {
            return;
        }
        let Ok(reader) = SegReader::new(alloc, standing) else {
            printer.give_up();
            return;
        };
        let mut steps: Steps<Walked> = Steps::new();
        segment_text(printer, out, place, &reader, &mut steps);
        place += 1;
    }
}

/// Prints the listing of the segments, and answers how it went.
fn list<K: Sink>(alloc: Global, segments: Vec<Standing<'_>>, out: &mut K) -> Status
    requires { length segments.items < 2 ^ 31 }
    ensures tells { Tells Status.Ok (listing_of segments.entry.items) (K.taken out.old) (K.taken out.new) result }
    ensures folder { ¬ IsDirFault result }
    ensures input { result ≢ Status.Device Which.Source }
    ensures cause { IsCaused (K.faults out.old) (K.faults out.new) (result ≡ Status.Device Which.Sink) }
{
    let Ok(mut printer) = Printer::new(alloc) else {
        return Status::NoMemory;
    };
    list_segments(alloc, &mut printer, out, segments);
    tell_rest(printer, out)
}

/// Answers by the segments of the commit of this generation: all of their files are loaded and checked before anything is printed.
fn show_segments<D: Dir, K: Sink>(
    alloc: Global,
    generation: u64,
    segments: &[SegInfo],
    dir: &mut D,
    out: &mut K,
) -> Status
    requires lines { AreLines segments.now }
    requires count { length segments.now < 2 ^ 31 }
    ensures answers { Answers (SegmentsGive (D.files dir.old) generation segments.now Lists) (Rose (D.faults dir.old) (D.faults dir.new))
        (record { files = D.files dir.old; taken = K.taken out.old }) (record { files = D.files dir.new; taken = K.taken out.new }) result }
    ensures asked { D.asked dir.new ≡ D.asked dir.old }
    ensures folder { IsCaused (D.faults dir.old) (D.faults dir.new) (IsDirFault result) }
    ensures input { result ≢ Status.Device Which.Source }
    ensures output { IsCaused (K.faults out.old) (K.faults out.new) (result ≡ Status.Device Which.Sink) }
{
    let held = match held_segments(alloc, dir, segments) {
        Ok(held) => held,
        Err(fail) => return given_up(fail),
    };
    match standing_segments(alloc, generation, &held) {
        Ok(all) => list(alloc, all, out),
        Err(stop) => stopped(alloc, &stop, dir, out),
    }
}

/// Prints what the segments of the current commit mean, where all of them stand, and answers how it went.
pub fn show<D: Dir, K: Sink>(alloc: Global, dir: &mut D, out: &mut K) -> Status
    requires { ForSome (D.files dir.old) AreMadeOfBytes }
    ensures answers { Answers (ShowDue (D.files dir.old)) (Rose (D.faults dir.old) (D.faults dir.new))
        (record { files = D.files dir.old; taken = K.taken out.old }) (record { files = D.files dir.new; taken = K.taken out.new }) result }
    ensures asked { D.asked dir.new ≡ D.asked dir.old }
    ensures folder { IsCaused (D.faults dir.old) (D.faults dir.new) (IsDirFault result) }
    ensures input { result ≢ Status.Device Which.Source }
    ensures output { IsCaused (K.faults out.old) (K.faults out.new) (result ≡ Status.Device Which.Sink) }
{
    let names = match dir.list(alloc) {
        Ok(names) => names,
        Err(fail) => return given_up(fail),
    };
    match current(alloc, dir, &names) {
        Ok(chosen) => show_segments(
            alloc,
            chosen.generation,
            chosen.commit.segments.as_slice(),
            dir,
            out,
        ),
        Err(fault) => {
            let stop = stopped_by(alloc, fault);
            stopped(alloc, &stop, dir, out)
        }
    }
}
