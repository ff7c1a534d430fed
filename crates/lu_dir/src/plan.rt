//! Failures on demand: which calls fail, and what each leaves.
ghost use Rattle.std.specs.Prelude.{◌≡◌};
ghost use Rattle.lu_dir.specs.Planned.{failure_of};

/// What a failed `create`, `patch` or `remove` leaves.
#[derive(Clone, Copy, Debug, PartialEq, Eq)]
pub enum Left {
    /// The file as before.
    Before,
    /// No file; for a `patch`, the file as before.
    Absent,
    /// So many of the bytes, or all of them where there are fewer; for a `remove`, the file as before.
    Prefix(u64),
}

/// A call that is to fail, counted from 1, and what it leaves.
#[derive(Clone, Copy, Debug, PartialEq, Eq)]
pub struct Fail {
    pub call: u64,
    pub left: Left,
}

/// What a call leaves, where it is to fail: by the first entry that names it, else by `stop`.
pub(crate) fn failure_of_call(fails: &[Fail], stop: Option<u64>, call: u64) -> Option<Left>
    ensures { result ≡ failure_of fails.now stop call }
{
    for fail in fails {
        if fail.call == call {
            return Some(fail.left);
        }
    }
    match stop {
        Some(first) if first <= call => Some(Left::Before),
        _ => None,
    }
}
