//! The standard input and output.
ghost use Rattle.std.specs.Prelude.{◌≡◌, ◌<◌, ◌≤◌, length, None, IfOk, IsOkUnless, IsErrOf};
ghost use Rattle.lu_dir.specs.Faults.{IsCaused};

use crate::fail::DirFail;
use crate::fault_count::FaultCount;
use crate::stream::{Sink, Source};
use std::alloc::Global;
use std::io::{self, Read, Write};
use std::marker::Model;
use std::rt::Runtime;

/// The standard input, seen as the count of its faults. It does not tell its bytes.
#[derive(Drop)]
pub struct HostSource<'r, R: Runtime + AllocGlobal> {
    rt: &'r R,
    faults: FaultCount,
}

impl<'r, R: Runtime + AllocGlobal> Model for HostSource<'r, R> {
    ghost use Rattle.std.specs.Prelude.{ℕ};

    ghost Value = { ℕ };

    ghost view = { λ a. a.faults };
}

impl<'r, R: Runtime + AllocGlobal> HostSource<'r, R> {
    /// The standard input of a runtime.
    pub fn new(rt: &'r R) -> HostSource<'r, R>
        ensures { result ≡ 0 }
    {
        HostSource {
            rt,
            faults: FaultCount::new(),
        }
    }
}

impl<R: Runtime + AllocGlobal> Source for HostSource<'_, R> {
    ghost left = { λ _. None };

    ghost faults = { λ count. count };

    fn read(&mut self, alloc: Global, buf: &mut [u8]) -> Result<usize, DirFail> {
        let mut bytes = vec![in alloc; 0; buf.len()]?;
        match self.rt.reader().read(bytes.as_mut_slice()) {
            Ok(count) => {
                buf[..count].copy_from_slice(&bytes[..count]);
                Ok(count)
            }
            Err(error) => Err(self.faults.answer(&error)),
        }
    }
}

/// The standard output, seen as the count of its faults. It does not tell its bytes.
#[derive(Drop)]
pub struct HostSink<'r, R: Runtime + AllocGlobal> {
    rt: &'r R,
    faults: FaultCount,
}

impl<'r, R: Runtime + AllocGlobal> Model for HostSink<'r, R> {
    ghost use Rattle.std.specs.Prelude.{ℕ};

    ghost Value = { ℕ };

    ghost view = { λ a. a.faults };
}

impl<'r, R: Runtime + AllocGlobal> HostSink<'r, R> {
    /// The standard output of a runtime.
    pub fn new(rt: &'r R) -> HostSink<'r, R>
        ensures { result ≡ 0 }
    {
        HostSink {
            rt,
            faults: FaultCount::new(),
        }
    }
}

/// Writes some of the bytes to the standard output, past its buffers.
fn write_out<R: Runtime + AllocGlobal>(rt: &R, bytes: &[u8]) -> io::Result<usize>
    ensures { IfOk result (λ count. count ≤ length bytes.now) }
{
    let mut out = io::writer(rt);
    let count = out.write(bytes)?;
    out.flush()?;
    Ok(count)
}

impl<R: Runtime + AllocGlobal> Sink for HostSink<'_, R> {
    ghost taken = { λ _. None };

    ghost faults = { λ count. count };

    /// Flushes before it answers. It takes no memory.
    fn write(&mut self, _alloc: Global, bytes: &[u8]) -> Result<usize, DirFail>
        ensures within { IfOk result (λ count. count ≤ length bytes.now) }
        ensures some { IfOk result (λ count. 0 < length bytes.now → 0 < count) }
        ensures answer { IsOkUnless result DirFail.Failed }
        ensures cause { IsCaused self.old self.new (IsErrOf result DirFail.Failed) }
    {
        match write_out(self.rt, bytes) {
            Ok(0) if !bytes.is_empty() => Err(self.faults.rise()),
            Ok(count) => Ok(count),
            Err(_) => Err(self.faults.rise()),
        }
    }
}
