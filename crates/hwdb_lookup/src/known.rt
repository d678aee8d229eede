//! The bytes of a file of which some blocks were read.
ghost use Rattle.std.specs.Prelude.{◌≡◌, ◌≤◌, ◌<◌, ◌+◌, ◌-◌, ℕ, List, length, take, IfOk, OnOk, IfErr};
ghost use Rattle.hwdb_spec.specs.Format.{text_at};
ghost use Rattle.hwdb_reader.specs.Passes.Views.{IsPart};
ghost use Rattle.hwdb_lookup.specs.Views.{IsOf, Stops};
ghost use Rattle.hwdb_lookup.specs.Internal.Agreement.{AgreeIn};

use crate::stop::Stop;
use hwdb_reader::{text, text_front};

/// How many bytes a block has. The last block of a file may have fewer.
pub const BLOCK: usize = 4096;

/// A file's bytes, as far as they were read.
#[derive(Clone, Copy)]
pub struct Known<'a> {
    /// As many bytes as the file has. In a block that wasn't read they may be any: a string is searched for its end
    /// there, and nothing else is made of them.
    pub buffer: &'a [u8],
    /// 1 for each block that was read.
    pub present: &'a [u8],
}

impl<'a> Known<'a> {
    /// Stops if a block of the bytes from `from` to `to` wasn't read.
    pub fn need(self, from: usize, to: usize) -> Result<(), Stop>
        requires { to ≤ length self.buffer.now }
        ensures read { OnOk result ((file : List ℕ) → IsOf self.entry file
            → AgreeIn file self.entry.buffer.now from to) }
        ensures stop { IfErr result (λ s. Stops self.entry (λ _. Unit {0}) s) }
    {
        if to <= from {
            return Ok(());
        }
        for block in from / BLOCK..(to - 1) / BLOCK + 1 {
            if block >= self.present.len() || self.present[block] != 1 {
                return Err(Stop::Missing(block));
            }
        }
        Ok(())
    }

    /// The bytes from `from` to `to`.
    pub fn part(self, from: usize, to: usize) -> Result<&'a [u8], Stop>
        requires ordered { from ≤ to }
        requires inside { to ≤ length self.buffer.now }
        ensures long { IfOk result (λ p. length p.now ≡ to - from) }
        ensures read { IfOk result (λ p. (file : List ℕ) → IsOf self.entry file
            → IsPart file from p.now) }
        ensures stop { IfErr result (λ s. Stops self.entry (λ _. Unit {0}) s) }
    {
        self.need(from, to)?;
        Ok(&self.buffer[from..to])
    }

    /// The string at `i`: up to the next byte 0.
    pub fn text(self, i: usize) -> Result<&'a [u8], Stop>
        requires { i < length self.buffer.now }
        ensures read { IfOk result (λ s. (file : List ℕ) → IsOf self.entry file
            → s.now ≡ text_at file i) }
        ensures stop { IfErr result (λ s. Stops self.entry (λ _. Unit {0}) s) }
    {
        let string = text(self.buffer, i);
        let end = (i + string.len()).saturating_add(1).min(self.buffer.len());
        self.need(i, end)?;
        Ok(string)
    }

    /// The first bytes of the string at `i`, at most so many.
    pub fn text_front(self, i: usize, most: usize) -> Result<&'a [u8], Stop>
        requires { i ≤ length self.buffer.now }
        ensures read { IfOk result (λ s. (file : List ℕ) → IsOf self.entry file
            → s.now ≡ take most (text_at file i)) }
        ensures within { IfOk result (λ s. i + length s.now ≤ length self.entry.buffer.now) }
        ensures stop { IfErr result (λ s. Stops self.entry (λ _. Unit {0}) s) }
    {
        let end = i.saturating_add(most).min(self.buffer.len());
        self.need(i, end)?;
        Ok(text_front(self.buffer, i, most))
    }
}
