//! A place among the occurrences of a term is found again.
ghost use Rattle.std.specs.Prelude.{◌≡◌, ◌≤◌, ◌<◌, ℕ, Bool, true, false, length, Ok, Err, OnOk};
ghost use Rattle.lu_grammar.specs.Bytes.{IsBytes, Cursor, place_in};
ghost use Rattle.lu_grammar.specs.Parts.{vint};
ghost use Rattle.lu_grammar.specs.Reading.{read_part};
ghost use Rattle.freq_skips.specs.Records.{is_odd as is_odd_number};
ghost use Rattle.positions.specs.Standing.{Skims, PassesOver};
ghost use Rattle.positions.specs.Cursors.{IsPointIn, Agrees, StatesLength};

use crate::reading::Reading;
use crate::record::is_odd;
use freq_skips::{RuledTerm, SkipPoint};
use lu_prims::Cur;

impl<'a> Reading<'a> {
    /// Passes over so many occurrences.
    pub fn pass(&mut self, count: u64)
        ensures payloads { self.new.payloads ≡ self.old.payloads }
        ensures passes { PassesOver self.old.payloads count self.old.force self.old.cur self.new.force self.new.cur }
    {
        for _turn in 0..count {
            match self.take() {
                Err(_bad) => return,
                Ok(_parts) => {}
            }
        }
    }
}

/// The payload length in force at a place of a term that starts at another.
fn force_before(prx: &[u8], start: usize, payloads: bool, place: usize) -> u32
    requires { start ≤ length prx.now }
    ensures { (count force : ℕ) → Skims payloads (place_in prx.now start) count force (place_in prx.now place) → result ≡ force }
{
    let mut reading = Reading {
        cur: Cur::at(prx, start),
        payloads,
        force: 0,
        position: 0,
    };
    while reading.cur.place() < place {
        match reading.take() {
            Err(_bad) => return 0,
            Ok(_parts) => {}
        }
    }
    reading.force
}

/// Whether the occurrence that stands at a place states its payload length, in a field with payloads.
fn states_length(prx: &[u8], place: usize) -> bool
    requires { place ≤ length prx.now }
    ensures { result ≡ true → StatesLength true (place_in prx.now place) }
{
    let mut cur = Cur::at(prx, place);
    match cur.vint() {
        Err(_bad) => false,
        Ok(delta) => is_odd(delta),
    }
}

/// The payload length in force at a place of a term, or any where the occurrence there states its own.
fn force_at(prx: &[u8], term: &RuledTerm, place: usize) -> u32
    requires start_within { term.now.info.prox ≤ length prx.now }
    requires within { place ≤ length prx.now }
    ensures { (count force : ℕ) → Skims term.now.rules.payloads (place_in prx.now term.now.info.prox) count force (place_in prx.now place)
        → Agrees term.now.rules.payloads result force (place_in prx.now place) }
{
    if !term.rules.payloads {
        return 0;
    }
    if states_length(prx, place) {
        return 0;
    }
    force_before(prx, term.info.prox as usize, true, place)
}

/// The place where the occurrences of the entry stand that a point of a term leads to. Of a field without positions, whose place
/// is not looked at, it is the start of the bytes.
pub fn reading_at<'a>(prx: &'a [u8], term: &RuledTerm, point: &SkipPoint) -> Reading<'a>
    requires { IsPointIn term.now prx.now point.now }
    ensures payloads { result.payloads ≡ term.now.rules.payloads }
    ensures place { term.now.rules.omit_tf ≡ false → result.cur ≡ place_in prx.entry.now point.now.prox }
    ensures force { term.now.rules.omit_tf ≡ false → (count force : ℕ) → Skims term.now.rules.payloads (place_in prx.entry.now term.now.info.prox) count force (place_in prx.entry.now point.now.prox)
        → Agrees term.now.rules.payloads result.force force (place_in prx.entry.now point.now.prox) }
{
    if term.rules.omit_tf {
        return Reading {
            cur: Cur::at(prx, 0),
            payloads: term.rules.payloads,
            force: 0,
            position: 0,
        };
    }
    let place = point.prox as usize;
    let cur = Cur::at(prx, place);
    let force = force_at(prx, term, place);
    Reading {
        cur,
        payloads: term.rules.payloads,
        force,
        position: 0,
    }
}
