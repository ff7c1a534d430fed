//! Heads of texts: numbers that tell most texts apart without a look at them, and short texts whole.
ghost use Rattle.std.specs.Prelude.{◌≡◌};
ghost use Rattle.seg_writer.specs.Heads.{byte_at, is_whole, text_head, told_length};

/// How many bytes of a text its head tells.
const HEAD_BYTES: usize = 7;

/// What a byte of a head is below.
const BYTE_RANGE: u64 = 256;

// The byte at a place, 0 where there is none.
fn byte_at(bytes: &[u8], place: usize) -> u8
    ensures { result ≡ byte_at bytes.now place }
{
    match bytes.get(place) {
        Some(byte) => *byte,
        None => 0,
    }
}

// How many bytes there are, 8 where there are more than 7.
fn told_length(bytes: &[u8]) -> u8
    ensures { result ≡ told_length bytes.now }
{
    if bytes.len() <= HEAD_BYTES {
        bytes.len() as u8
    } else {
        HEAD_BYTES as u8 + 1
    }
}

/// The head of a text: its first seven bytes, and how many it has, 8 where it has more than 7, as one number.
#[tactic(auto, unfolding(crate::specs::Heads::text_head))]
pub(crate) fn head_of(text: &str) -> u64
    ensures { result ≡ text_head text.now }
{
    let bytes = text.as_bytes();
    u64::from_be_bytes([
        byte_at(bytes, 0),
        byte_at(bytes, 1),
        byte_at(bytes, 2),
        byte_at(bytes, 3),
        byte_at(bytes, 4),
        byte_at(bytes, 5),
        byte_at(bytes, 6),
        told_length(bytes),
    ])
}

/// Whether a text with this head has no more bytes than the head tells.
pub(crate) fn is_whole(head: u64) -> bool
    ensures { result ≡ is_whole head }
{
    head % BYTE_RANGE <= HEAD_BYTES as u64
}
