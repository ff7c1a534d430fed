//! One occurrence: its parts.
ghost use Rattle.std.specs.Prelude.{◌≡◌, ◌/◌, ◌^◌, ◌<◌, IfOk, IfSome, if◌then◌else◌};
ghost use Rattle.lu_grammar.specs.Answers.{Gives};
ghost use Rattle.lu_grammar.specs.Records.{read_shape};
ghost use Rattle.freq_skips.specs.Records.{is_odd as is_odd_number};
ghost use Rattle.freq_skips.specs.Levels.{number_or};
ghost use Rattle.positions.specs.Records.{occurrence_shape, position_gap as gap_of, states_length, GivesLength};
ghost use Rattle.positions.specs.Views.{occurrence_record_of};

use lu_prims::{Bad, Cur};

/// An occurrence as it stands: its delta, the length of its payload where that is stated, and the payload.
#[derive(Clone, Copy, Debug, PartialEq, Eq)]
pub struct OccurrenceParts<'a> {
    pub delta: u32,
    pub stated: Option<u32>,
    pub payload: &'a [u8],
}

/// Whether a number is odd.
pub fn is_odd(n: u32) -> bool
    ensures { result ≡ is_odd_number n }
{
    n % 2 == 1
}

/// How far the position of an occurrence is above the one before.
pub fn position_gap(payloads: bool, delta: u32) -> u32
    ensures { result ≡ gap_of payloads delta }
{
    if payloads { delta / 2 } else { delta }
}

/// The payload length in force after an occurrence: the stated one, or else the one before.
pub fn length_or(force: u32, stated: Option<u32>) -> u32
    ensures { result ≡ number_or force stated }
{
    match stated {
        None => force,
        Some(length) => length,
    }
}

/// The payload length that follows a delta, where one does.
fn stated_length(cur: &mut Cur<'_>, payloads: bool, delta: u32) -> Result<Option<u32>, Bad>
    ensures gives { GivesLength (states_length payloads delta) cur.old cur.new result }
    ensures below { IfOk result (λ found. IfSome found (λ n. n < 2 ^ 31)) }
{
    if !(payloads && is_odd(delta)) {
        return Ok(None);
    }
    match cur.num() {
        Err(bad) => Err(bad),
        Ok(found) => Ok(Some(found)),
    }
}

/// The parts of the occurrence that stands here, where this payload length is in force.
pub fn occurrence_parts<'a>(
    cur: &mut Cur<'a>,
    payloads: bool,
    force: u32,
) -> Result<OccurrenceParts<'a>, Bad>
    ensures { Gives occurrence_record_of (read_shape (occurrence_shape payloads force) cur.old) cur.new result }
{
    let delta = match cur.vint() {
        Err(bad) => return Err(bad),
        Ok(delta) => delta,
    };
    let stated = match stated_length(cur, payloads, delta) {
        Err(bad) => return Err(bad),
        Ok(stated) => stated,
    };
    match cur.bytes(length_or(force, stated) as usize) {
        Err(bad) => Err(bad),
        Ok(payload) => Ok(OccurrenceParts {
            delta,
            stated,
            payload,
        }),
    }
}
