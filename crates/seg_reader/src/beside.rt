//! The occurrences of a term beside its entries: their cursor jumps only when one is asked for.
ghost use Rattle.std.specs.Prelude.{◌≡◌, ◌+◌, ◌<◌, ◌≤◌, ℕ, false, [], None, slice_index_or};
ghost use Rattle.freq_skips.specs.declared.rules.RuledTerm.{RuledTerm};
ghost use Rattle.freq_skips.specs.Terms.{TermData};
ghost use Rattle.positions.specs.Occurrences.{count_at};
ghost use Rattle.positions.specs.Cursors.{posted_term, IsAmong};
ghost use Rattle.check_index.specs.Positions.{TermOccurrences};
ghost use Rattle.seg_reader.specs.InnerBeside.{LeadsTo, IsBeside, CanJump};

use freq_skips::SkipPoint;
use positions::Occurrences;

/// The occurrences of a term, and the point to which their cursor has yet to jump.
#[derive(Drop)]
pub struct Beside<'a> {
    pub occurrences: Occurrences<'a>,
    pub ahead: Option<SkipPoint>,
}

impl<'a> Beside<'a> {
    /// Jumps to the point that was noted, where there is one.
    fn settle(&mut self)
        requires { CanJump self.old.ahead self.old.occurrences }
        ensures settled { self.new.ahead ≡ None }
        ensures leads { (t : RuledTerm) (value : TermData) (all : TermOccurrences) (passed : ℕ)
            → LeadsTo t value all passed self.old.ahead self.old.occurrences
            → LeadsTo t value all passed None self.new.occurrences }
    {
        if let Some(point) = self.ahead {
            self.occurrences.jump(&point);
            self.ahead = None;
        }
    }

    /// Opens the document of the entry that was read last, which has this frequency: so many occurrences are passed up to its end.
    pub fn open(&mut self, between: u64, freq: u32)
        requires jump { CanJump self.old.ahead self.old.occurrences }
        requires counted { freq ≤ between }
        ensures settled { self.new.ahead ≡ None }
        ensures open { (t : RuledTerm) (value : TermData) (all : TermOccurrences) (entry : ℕ)
            → IsBeside t value all entry (entry + 1) between self.old → t.rules.omit_tf ≡ false → entry < t.info.doc_freq
            → freq ≡ count_at (posted_term t value) entry
            → IsAmong t value all (entry + 1) (slice_index_or all entry []) self.new.occurrences }
    {
        self.settle();
        self.occurrences.open_doc(between - u64::from(freq), freq);
    }
}
