ghost use Rattle.std.specs.Prelude.{◌≡◌};

use lu_types::TermInfo;

/// A place in a term from which its entries can be read on: how many are passed, the document of the last of them (0 where
/// there is none), and the places where the next one starts in `.frq` and in `.prx`.
#[derive(Clone, Copy, Debug, PartialEq, Eq)]
pub struct SkipPoint {
    pub passed: u32,
    pub doc: u32,
    pub freq: u32,
    pub prox: u32,
}

impl SkipPoint {
    /// The start of a term.
    pub fn start(info: &TermInfo) -> SkipPoint
        ensures { result ≡ record { passed = 0; doc = 0; freq = info.now.freq; prox = info.now.prox } }
    {
        SkipPoint {
            passed: 0,
            doc: 0,
            freq: info.freq,
            prox: info.prox,
        }
    }
}
