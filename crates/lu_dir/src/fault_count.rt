//! How often a device failed.
ghost use Rattle.std.specs.Prelude.{◌≡◌};
ghost use Rattle.lu_dir.specs.Faults.{Rose, IsCaused};
ghost use Rattle.lu_dir.specs.Planned.{next_count};
ghost use Rattle.lu_dir.specs.Host.{fail_of};
ghost use Rattle.std.specs.IoError.{error_kind};

use crate::fail::DirFail;
use std::io;
use std::marker::Model;

/// How often a device failed, seen as that number. It stays at the last value of u64 once there.
#[derive(Drop)]
pub struct FaultCount {
    count: u64,
}

impl Model for FaultCount {
    ghost use Rattle.std.specs.Prelude.{ℕ};

    ghost Value = { ℕ };

    ghost view = { λ a. a.count };
}

impl FaultCount {
    pub fn new() -> FaultCount
        ensures { result ≡ 0 }
    {
        FaultCount { count: 0 }
    }

    /// Counts a failure.
    pub fn rise(&mut self) -> DirFail
        ensures answer { result ≡ DirFail.Failed }
        ensures counted { self.new ≡ next_count self.old }
        ensures rose { Rose self.old self.new }
    {
        self.count = self.count.saturating_add(1);
        DirFail::Failed
    }

    /// What an error of the system is to its caller: want of memory, or else a failure, which is counted.
    pub fn answer(&mut self, error: &io::Error) -> DirFail
        ensures answer { result ≡ fail_of (error_kind error.now) }
        ensures failed { result ≡ DirFail.Failed → self.new ≡ next_count self.old }
        ensures memory { result ≡ DirFail.OutOfMemory → self.new ≡ self.old }
        ensures cause { IsCaused self.old self.new (result ≡ DirFail.Failed) }
    {
        if error.kind() == io::ErrorKind::OutOfMemory {
            DirFail::OutOfMemory
        } else {
            self.rise()
        }
    }
}
