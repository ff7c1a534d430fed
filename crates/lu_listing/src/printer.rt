//! A text that goes out in pieces while it is made.
ghost use Rattle.std.specs.Prelude.{◌≡◌, ◌+◌, ◌<◌, ◌≤◌, ℕ, List, [], ◌∷◌, length, Option, IfOk, is_some, true, IsErrOf};
ghost use Rattle.std.specs.Fmt.{decimal};
ghost use Rattle.lu_dir.specs.Faults.{IsCaused};
ghost use Rattle.lu_dir.specs.Files.{written_over};
ghost use Rattle.lu_listing.specs.Printing.{Start, empty_printer, page, HasPrinted, Prints, IsToldTo};

use crate::digits::digits;
use itoa::write_digits;
use lu_dir::{DirFail, Sink, write_all};
use lu_prims::OutOfMemory;
use std::alloc::Global;
use std::marker::Model;

/// How many bytes wait at most.
const PIECE_BYTES: usize = 65_536;

/// How many decimal digits a number has at most.
const MOST_DIGITS: usize = 20;

/// Writes bytes over those that stand from a place on.
fn write_over(room: &mut Vec<u8>, place: usize, bytes: &[u8])
    requires { place + length bytes.now ≤ length room.old.items }
    ensures { room.new.items ≡ written_over place bytes.now room.old.items }
{
    room[place..place + bytes.len()].copy_from_slice(bytes);
}

/// A text on its way to an output, which gets it in pieces of some 64 KiB while it is made. Where the output fails, or memory ends,
/// the printer keeps that for `finish`, and what is handed to it after that goes nowhere. Contracts see what waits, and the
/// failure.
#[derive(Drop)]
pub struct Printer {
    alloc: Global,
    /// Room for a piece: what waits, and behind it any bytes.
    room: Vec<u8>,
    /// How many bytes wait.
    used: usize,
    failed: Option<DirFail>,
}

impl Model for Printer {
    ghost use Rattle.std.specs.Prelude.{◌≡◌, ◌≤◌, length, take};
    ghost use Rattle.lu_listing.specs.Printing.{PrinterState};

    ghost Value = { PrinterState };

    ghost view = { λ p. record { waiting = take p.used p.room.items; failed = p.failed } };

    ghost invariant = { λ p. record {
      whole : length p.room.items ≡ 65536;
      within : p.used ≤ 65536;
    } };
}

impl Printer {
    /// A printer of no text yet. It takes the memory that its pieces need, and no more later.
    pub fn new(alloc: Global) -> Result<Printer, OutOfMemory>
        ensures { IfOk result (λ printer. printer ≡ empty_printer) }
    {
        let room = vec![in alloc; 0; PIECE_BYTES]?;
        Ok(Printer {
            alloc,
            room,
            used: 0,
            failed: None,
        })
    }

    /// Where memory is taken.
    pub(crate) fn alloc(&self) -> Global {
        self.alloc
    }

    /// Whether the output failed, or memory ended. What is handed over after that goes nowhere, so it need not be made.
    pub fn has_failed(&self) -> bool
        ensures failed { result ≡ is_some self.now.failed }
    {
        self.failed.is_some()
    }

    /// Hands over some bytes.
    pub fn put<K: Sink>(&mut self, out: &mut K, bytes: &[u8])
        ensures { Prints (page self.old (K.taken out.old) (K.faults out.old)) (page self.new (K.taken out.new) (K.faults out.new)) bytes.now }
    {
        if bytes.len() <= PIECE_BYTES - self.used {
            self.wait(bytes);
        } else {
            self.send(out);
            self.add(out, bytes);
        }
    }

    /// Hands over one byte.
    pub fn put_byte<K: Sink>(&mut self, out: &mut K, byte: u8)
        ensures { Prints (page self.old (K.taken out.old) (K.faults out.old)) (page self.new (K.taken out.new) (K.faults out.new)) (byte ∷ []) }
    {
        self.make_room(out, 1);
        self.wait_byte(byte);
    }

    /// Hands over the decimal digits of a number.
    pub fn put_number<K: Sink>(&mut self, out: &mut K, number: u64)
        ensures { Prints (page self.old (K.taken out.old) (K.faults out.old)) (page self.new (K.taken out.new) (K.faults out.new)) (decimal number) }
    {
        self.make_room(out, MOST_DIGITS);
        self.wait_number(number);
    }

    /// Says that memory ended, so that no more text comes.
    pub fn give_up(&mut self)
        ensures gave_up { is_some self.new.failed ≡ true }
        ensures printed { (taken : Option (List ℕ)) (faults : ℕ) (text : List ℕ) → Prints (page self.old taken faults) (page self.new taken faults) text }
    {
        if self.failed.is_none() {
            self.failed = Some(DirFail::OutOfMemory);
        }
    }

    /// Hands what waits to the output, and answers how the whole text was told.
    pub fn finish<K: Sink>(self, out: &mut K) -> Result<(), DirFail>
        ensures told { (start : Start) (text : List ℕ) → HasPrinted start text (page self (K.taken out.old) (K.faults out.old))
            → IsToldTo start text (K.taken out.new) (K.faults out.new) result }
        ensures later { (start : Start) (text : List ℕ) → HasPrinted start text (page self (K.taken out.old) (K.faults out.old))
            → IsCaused start.faults (K.faults out.new) (IsErrOf result DirFail.Failed) }
    {
        let mut printer = self;
        printer.send(out);
        match printer.failed {
            None => Ok(()),
            Some(fail) => Err(fail),
        }
    }

    /// Hands what waits to the output.
    fn send<K: Sink>(&mut self, out: &mut K)
        ensures printed { Prints (page self.old (K.taken out.old) (K.faults out.old)) (page self.new (K.taken out.new) (K.faults out.new)) [] }
        ensures sent { self.new.waiting ≡ [] }
    {
        if self.failed.is_none() {
            self.failed = write_all(self.alloc, out, &self.room[..self.used]).err();
        }
        self.used = 0;
    }

    /// Hands what waits to the output, where it leaves no room for so many bytes.
    fn make_room<K: Sink>(&mut self, out: &mut K, count: usize)
        requires { count ≤ 65536 }
        ensures printed { Prints (page self.old (K.taken out.old) (K.faults out.old)) (page self.new (K.taken out.new) (K.faults out.new)) [] }
        ensures room { length self.new.waiting + count ≤ 65536 }
    {
        if count > PIECE_BYTES - self.used {
            self.send(out);
        }
    }

    /// Hands some bytes to the output.
    fn pass<K: Sink>(&mut self, out: &mut K, bytes: &[u8])
        requires { self.old.waiting ≡ [] }
        ensures { Prints (page self.old (K.taken out.old) (K.faults out.old)) (page self.new (K.taken out.new) (K.faults out.new)) bytes.now }
    {
        if self.failed.is_none() {
            self.failed = write_all(self.alloc, out, bytes).err();
        }
    }

    /// Lets some bytes wait, for which there is room.
    fn wait(&mut self, bytes: &[u8])
        requires { length self.old.waiting + length bytes.now ≤ 65536 }
        ensures { (taken : Option (List ℕ)) (faults : ℕ) → Prints (page self.old taken faults) (page self.new taken faults) bytes.now }
    {
        write_over(&mut self.room, self.used, bytes);
        self.used += bytes.len();
    }

    /// Lets a byte wait, for which there is room.
    fn wait_byte(&mut self, byte: u8)
        requires { length self.old.waiting + 1 ≤ 65536 }
        ensures { (taken : Option (List ℕ)) (faults : ℕ) → Prints (page self.old taken faults) (page self.new taken faults) (byte ∷ []) }
    {
        let place = self.used;
        self.room[place] = byte;
        self.used = place + 1;
    }

    /// Lets the decimal digits of a number wait, for which there is room.
    fn wait_number(&mut self, number: u64)
        requires { length self.old.waiting + 20 ≤ 65536 }
        ensures { (taken : Option (List ℕ)) (faults : ℕ) → Prints (page self.old taken faults) (page self.new taken faults) (decimal number) }
    {
        let end = self.used + digits(number);
        let _start = write_digits(number, self.room.as_mut_slice(), end);
        self.used = end;
    }

    /// Hands over some bytes where nothing waits.
    fn add<K: Sink>(&mut self, out: &mut K, bytes: &[u8])
        requires { self.old.waiting ≡ [] }
        ensures { Prints (page self.old (K.taken out.old) (K.faults out.old)) (page self.new (K.taken out.new) (K.faults out.new)) bytes.now }
    {
        if bytes.len() <= PIECE_BYTES {
            self.wait(bytes);
        } else {
            self.pass(out, bytes);
        }
    }
}
