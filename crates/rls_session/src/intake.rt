//! What was taken of the input and isn't used yet.

ghost use Rattle.std.specs.Prelude.{◌≡◌, is_ok, ◌+◌, ◌<◌, ◌≤◌, length, drop, [], true, false, Ok, Err, IfOk, OnErr, IsTrue, IsFalse};
ghost use Rattle.std.specs.List.{position_or_len};
ghost use Rattle.rls_ident.specs.declared.limits.TheConstants.{INPUT_BYTES};
ghost use Rattle.rls_io.specs.Device.{Rose, Keeps};
ghost use Rattle.rls_io.specs.declared.reading.ReadError.TheVariants as read;
ghost use Rattle.rls_script.specs.Scripts.{is_line_feed};
ghost use Rattle.rls_session.specs.AsTold.{Given, Took};
ghost use Rattle.rls_session.specs.Intake.{taken, to_come, TellsEnd, KeepsEnd, Grows};

use rls_ident::limits::INPUT_BYTES;
use rls_ident::rely;
use rls_io::{ReadError, Source};
use rls_script::line_end;
use std::alloc::Global;
use std::marker::Model;

/// How many bytes one call asks the source for, at most.
const STEP: usize = 4096;

/// What was taken of the input and isn't used yet.
#[derive(Drop)]
pub(crate) struct Intake {
    bytes: Vec<u8>,
    // How many of the bytes are used.
    at: usize,
    // How many bytes of the input are used.
    used: u64,
    // Whether the input came to its end.
    ended: bool,
}

impl Model for Intake {
    ghost use Rattle.std.specs.Prelude.{◌≤◌, ◌+◌, length, drop, IsTrue};
    ghost use Rattle.rls_ident.specs.declared.limits.TheConstants.{INPUT_BYTES};
    ghost use Rattle.rls_session.specs.Intake.{IntakeSeen};

    ghost Value = { IntakeSeen };

    ghost view = { λ a. record { waiting = drop a.at a.bytes.items; used = a.used; ended = a.ended } };

    ghost invariant = { λ a. (a.at ≤ length a.bytes.items) × (a.used + length (drop a.at a.bytes.items) ≤ INPUT_BYTES + 1) × (IsTrue a.ended → a.used + length (drop a.at a.bytes.items) ≤ INPUT_BYTES) };
}

impl Intake {
    /// Nothing was taken yet.
    pub(crate) fn new(alloc: Global) -> Intake
        ensures new { result ≡ record { waiting = []; used = 0; ended = false } }
    {
        Intake {
            bytes: Vec::new(alloc),
            at: 0,
            used: 0,
            ended: false,
        }
    }

    /// What waits.
    pub(crate) fn waiting(&self) -> &[u8]
        ensures waiting { result.now ≡ self.now.waiting }
        ensures few { taken self.now ≤ INPUT_BYTES + 1 }
    {
        let (_, waiting) = self.bytes.split_at(self.at);
        waiting
    }

    /// The next `n` bytes of what waits are used.
    pub(crate) fn use_up(&mut self, n: usize)
        requires there { n ≤ length self.old.waiting }
        ensures waiting { self.new.waiting ≡ drop n self.old.waiting }
        ensures used { self.new.used ≡ self.old.used + n }
        ensures ended { self.new.ended ≡ self.old.ended }
    {
        self.at += n;
        self.used += n as u64;
    }

    /// The count of what is used begins anew.
    pub(crate) fn restart(&mut self)
        ensures waiting { self.new.waiting ≡ self.old.waiting }
        ensures used { self.new.used ≡ 0 }
        ensures ended { self.new.ended ≡ self.old.ended }
    {
        self.used = 0;
    }

    // Lets go of the bytes that are used.
    fn forget(&mut self)
        ensures same { self.new ≡ self.old }
    {
        self.bytes.drain(..self.at);
        self.at = 0;
    }

    // Takes at most `STEP` bytes more of the input, and answers whether there were any. After the end of the input, and after one
    // byte more than a session goes through, which is `TooLarge`, the source isn't asked.
    fn take_more<S: Source>(&mut self, source: &mut S) -> Result<bool, ReadError>
        ensures same { Keeps (to_come self.old (S.left source.old)) (to_come self.new (S.left source.new)) }
        ensures grows { Grows self.old self.new }
        ensures more { result ≡ Ok true → length self.old.waiting < length self.new.waiting }
        ensures few_at_end { result ≡ Ok false → taken self.new ≤ INPUT_BYTES }
        ensures end { result ≡ Ok false → (self.new.waiting ≡ self.old.waiting) × TellsEnd self.old (S.left source.old) (S.left source.new) }
        ensures err { OnErr result (self.new ≡ self.old) }
        ensures ended { result ≡ Ok false → IsTrue self.new.ended }
        ensures open { OnErr result (IsFalse self.new.ended) }
        ensures stays_ended { IsTrue self.old.ended → IsTrue self.new.ended }
        ensures step { length self.new.waiting ≤ length self.old.waiting + 4096 }
        ensures known { KeepsEnd self.old (S.left source.old) self.new (S.left source.new) }
        ensures few { taken self.new ≤ INPUT_BYTES + 1 }
        ensures too_large { result ≡ Err read.TooLarge → taken self.old ≡ INPUT_BYTES + 1 }
        ensures fault { result ≡ Err read.Fault → Rose (S.faults source.old) (S.faults source.new) }
        ensures never_falls { S.faults source.old ≤ S.faults source.new }
        ensures given { Given S.read_gives self.old.ended (is_ok result) self.new.ended source.old source.new (Took self.old self.new) }
    {
        if self.ended {
            return Ok(false);
        }
        let taken = self.used + self.waiting().len() as u64;
        if taken > INPUT_BYTES {
            return Err(ReadError::TooLarge);
        }
        self.forget();
        let step = (INPUT_BYTES + 1 - taken).min(STEP as u64) as usize;
        self.bytes.reserve(step)?;
        let mut buffer = [0; STEP];
        let n = source.read(&mut buffer[..step])?;
        self.bytes.extend_from_slice(&buffer[..n]).unwrap();
        self.ended = n == 0;
        Ok(n > 0)
    }

    /// Takes bytes until a line feed waits or the input ends, and answers how many bytes are before it, or wait. Nothing is
    /// taken if a line feed waits already. Each byte is looked at once.
    pub(crate) fn find_line<S: Source>(&mut self, source: &mut S) -> Result<usize, ReadError>
        ensures same { Keeps (to_come self.old (S.left source.old)) (to_come self.new (S.left source.new)) }
        ensures used { self.new.used ≡ self.old.used }
        ensures known { KeepsEnd self.old (S.left source.old) self.new (S.left source.new) }
        ensures line { IfOk result (λ n. n ≡ position_or_len is_line_feed self.new.waiting) }
        ensures none { OnErr result (position_or_len is_line_feed self.new.waiting ≡ length self.new.waiting) }
        ensures ended { IfOk result (λ n. n ≡ length self.new.waiting → IsTrue self.new.ended) }
        ensures open { OnErr result (IsFalse self.new.ended) }
        ensures stays_ended { IsTrue self.old.ended → IsTrue self.new.ended }
        ensures ahead { length self.old.waiting ≤ 4096 → length self.new.waiting ≤ position_or_len is_line_feed self.new.waiting + 4096 }
        ensures few { taken self.new ≤ INPUT_BYTES + 1 }
        ensures few_at_end { IfOk result (λ n. n ≡ length self.new.waiting → taken self.new ≤ INPUT_BYTES) }
        ensures end { IfOk result (λ n. n ≡ length self.new.waiting → TellsEnd self.old (S.left source.old) (S.left source.new)) }
        ensures too_large { result ≡ Err read.TooLarge → (taken self.new ≡ INPUT_BYTES + 1) × (position_or_len is_line_feed self.new.waiting ≡ length self.new.waiting) }
        ensures fault { result ≡ Err read.Fault → Rose (S.faults source.old) (S.faults source.new) }
        ensures never_falls { S.faults source.old ≤ S.faults source.new }
        ensures given { Given S.read_gives self.old.ended (is_ok result) self.new.ended source.old source.new (Took self.old self.new) }
    {
        rely!(let _ = &self.bytes);
        let mut clear = 0;
        loop {
            let (_, fresh) = self.waiting().split_at(clear);
            let len = fresh.len();
            let n = line_end(fresh);
            clear += n;
            if n < len {
                return Ok(clear);
            }
            match self.take_more(source) {
                Err(error) => return Err(error),
                Ok(false) => return Ok(clear),
                Ok(true) => {}
            }
        }
    }

    /// Takes bytes until `n` wait, and answers whether they do. Nothing is taken if they wait already.
    pub(crate) fn find_bytes<S: Source>(
        &mut self,
        n: u64,
        source: &mut S,
    ) -> Result<bool, ReadError>
        ensures same { Keeps (to_come self.old (S.left source.old)) (to_come self.new (S.left source.new)) }
        ensures used { self.new.used ≡ self.old.used }
        ensures known { KeepsEnd self.old (S.left source.old) self.new (S.left source.new) }
        ensures few { taken self.new ≤ INPUT_BYTES + 1 }
        ensures there { result ≡ Ok true → n ≤ length self.new.waiting }
        ensures short { OnErr result (length self.new.waiting < n) }
        ensures ended { result ≡ Ok false → IsTrue self.new.ended }
        ensures open { OnErr result (IsFalse self.new.ended) }
        ensures stays_ended { IsTrue self.old.ended → IsTrue self.new.ended }
        ensures ahead { length self.old.waiting ≤ 4096 → length self.new.waiting ≤ n + 4096 }
        ensures end { result ≡ Ok false → (length self.new.waiting < n) × TellsEnd self.old (S.left source.old) (S.left source.new) }
        ensures too_large { result ≡ Err read.TooLarge → (taken self.new ≡ INPUT_BYTES + 1) × (length self.new.waiting < n) }
        ensures fault { result ≡ Err read.Fault → Rose (S.faults source.old) (S.faults source.new) }
        ensures never_falls { S.faults source.old ≤ S.faults source.new }
        ensures given { Given S.read_gives self.old.ended (is_ok result) self.new.ended source.old source.new (Took self.old self.new) }
    {
        rely!(let _ = &self.bytes);
        while (self.waiting().len() as u64) < n {
            match self.take_more(source) {
                Err(error) => return Err(error),
                Ok(false) => return Ok(false),
                Ok(true) => {}
            }
        }
        Ok(true)
    }
}
