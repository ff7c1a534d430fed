ghost use Rattle.std.specs.Prelude.{◌≡◌, ◌<◌, List, ℕ};
ghost use Rattle.std.specs.Cmp.{IsTotalOrder};
ghost use Rattle.std.specs.Str.{IsUtf8};
ghost use Rattle.lu_prims.specs.Order.{byte_rank, bytes_cmp, text_cmp, units};

use std::cmp::Ordering;

/// Compares two texts by their UTF-16 units, unit by unit, a prefix first (format page, "Numbers and texts").
///
/// It walks the bytes and makes no units: the first bytes that differ decide, by their rank. It takes no memory.
pub fn utf16_cmp(a: &str, b: &str) -> Ordering
    ensures { result ≡ text_cmp a.now b.now }
{
    tail_cmp(a.as_bytes(), b.as_bytes())
}

/// Compares the bytes that follow what two texts share, in the order of `utf16_cmp`. It takes no memory.
pub fn tail_cmp(a: &[u8], b: &[u8]) -> Ordering
    ensures { result ≡ bytes_cmp a.now b.now }
{
    let shared = a.len().min(b.len());
    for place in 0..shared {
        if a[place] != b[place] {
            return byte_rank(a[place]).cmp(&byte_rank(b[place]));
        }
    }
    a.len().cmp(&b.len())
}

/// `utf16_cmp` is a total order of texts: texts with the same units, and texts that it calls equal, are the same.
pub fn utf16_order()
    ensures total { IsTotalOrder text_cmp }
    ensures apart { (s t : List ℕ) → IsUtf8 s → IsUtf8 t → units s ≡ units t → s ≡ t }
    ensures level { (s t : List ℕ) → IsUtf8 s → IsUtf8 t → text_cmp s t ≡ Ordering.Equal → s ≡ t }
{}

// The rank of a byte of UTF-8 in the order of UTF-16 units: the lead bytes EE and EF, of U+E000 to U+FFFF, come after all others.
#[tactic(auto, unfolding(crate::specs::Order::byte_rank))]
fn byte_rank(byte: u8) -> u8
    ensures { result ≡ byte_rank byte }
{
    match byte {
        0xEE | 0xEF => byte + 0x10,
        0xF0.. => byte - 2,
        _ => byte,
    }
}

#[cfg(test)]
mod tests {
    use super::*;

    #[test]
    fn orders(rt: HostRuntime) {
        let texts = [
            "",
            "a",
            "aa",
            "b",
            "é",
            "\u{d7ff}",
            "\u{10000}",
            "\u{10ffff}",
            "\u{e000}",
            "\u{ff61}",
            "\u{ffff}",
        ];
        for (place, text) in texts.iter().enumerate() {
            for (other, later) in texts.iter().enumerate() {
                assert_eq!(rt; utf16_cmp(text, later), place.cmp(&other));
            }
        }
    }
}
