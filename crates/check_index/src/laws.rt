//! The laws of the files of a segment: each stands on a function that does nothing.
ghost use Rattle.std.specs.Prelude.{◌≡◌, ◌⊎◌, ◌↔◌};
ghost use Rattle.lu_types.specs.FilePlans.{StandFor, IsFaultAmong};
ghost use Rattle.lu_types.specs.declared.fault.Spot.{Spot};
ghost use Rattle.segment_infos.specs.declared.infos.SegInfo.{SegInfo};
ghost use Rattle.check_index.specs.Files.{FolderFiles, AreBytes};
ghost use Rattle.check_index.specs.Segments.{SegmentValue, segment_files};
ghost use Rattle.check_index.specs.Stands.{SegmentStands};

/// For given files and a given line there is at most one index that they stand for, and at most one first fault; they have no fault
/// where they stand, and there is one of both.
pub fn segments_are_judged()
    ensures one_index { (folder : FolderFiles) (line : SegInfo) (x y : SegmentValue) → StandFor (segment_files folder line) x → StandFor (segment_files folder line) y → x ≡ y }
    ensures no_fault { (folder : FolderFiles) (line : SegInfo) (x : SegmentValue) (spot : Spot) → StandFor (segment_files folder line) x → ¬ IsFaultAmong (segment_files folder line) spot }
    ensures one_fault { (folder : FolderFiles) (line : SegInfo) (a b : Spot) → AreBytes folder → IsFaultAmong (segment_files folder line) a → IsFaultAmong (segment_files folder line) b → a ≡ b }
    ensures one_of_both { (folder : FolderFiles) (line : SegInfo) → AreBytes folder
        → ((x : SegmentValue) × StandFor (segment_files folder line) x) ⊎ ((spot : Spot) × IsFaultAmong (segment_files folder line) spot) }
{}

/// The files of a segment stand for an index exactly where they do so file by file: each needed file is there, all of its bytes are the
/// good records of its plan, and their values are the parts of the index.
pub fn segments_stand_by_files()
    ensures { (folder : FolderFiles) (line : SegInfo) (x : SegmentValue) → StandFor (segment_files folder line) x ↔ SegmentStands folder line x }
{}
