//! The bytes of a file of which some parts were read.
ghost use Rattle.std.specs.Prelude.{◌≡◌, ◌≤◌, ◌<◌, ◌+◌, ◌-◌, ℕ, List, length, take, IfOk, IfErr};
ghost use Rattle.hwdb_spec.specs.Format.{text_at};
ghost use Rattle.hwdb_reader.specs.Passes.Views.{IsPart};
ghost use Rattle.hwdb_lookup.specs.Internal.Parts.{MayBeOf, Halts, size_of};

use crate::known::Known;
use crate::seen::Seen;
use crate::stop::Stop;

/// A file's bytes, as far as they were read.
#[derive(Clone, Copy)]
pub enum Parts<'a> {
    /// Blocks of it, in a buffer of its length.
    Blocks(Known<'a>),
    /// Its strings, and windows of its nodes.
    Windows(Seen<'a>),
}

impl<'a> Parts<'a> {
    /// How many bytes the file has.
    pub fn len(self) -> usize
        ensures { result ≡ size_of self.entry }
    {
        match self {
            Parts::Blocks(known) => known.buffer.len(),
            Parts::Windows(seen) => seen.size,
        }
    }

    /// The bytes from `from` to `to`.
    #[tactic(auto, using(crate::proofs::PartsLemmas::blocks_back, crate::proofs::PartsLemmas::windows_back))]
    pub fn part(self, from: usize, to: usize) -> Result<&'a [u8], Stop>
        requires ordered { from ≤ to }
        requires inside { to ≤ size_of self }
        ensures long { IfOk result (λ p. length p.now ≡ to - from) }
        ensures read { IfOk result (λ p. (file : List ℕ) → MayBeOf self.entry file
            → IsPart file from p.now) }
        ensures stop { IfErr result (λ s. Halts self.entry (λ _. Unit {0}) s) }
    {
        match self {
            Parts::Blocks(known) => known.part(from, to),
            Parts::Windows(seen) => seen.part(from, to),
        }
    }

    /// The string at `i`: up to the next byte 0.
    #[tactic(auto, using(crate::proofs::PartsLemmas::blocks_back, crate::proofs::PartsLemmas::windows_back))]
    pub fn text(self, i: usize) -> Result<&'a [u8], Stop>
        requires { i < size_of self }
        ensures read { IfOk result (λ s. (file : List ℕ) → MayBeOf self.entry file
            → s.now ≡ text_at file i) }
        ensures stop { IfErr result (λ s. Halts self.entry (λ _. Unit {0}) s) }
    {
        match self {
            Parts::Blocks(known) => known.text(i),
            Parts::Windows(seen) => seen.text(i),
        }
    }

    /// The first bytes of the string at `i`, at most so many.
    #[tactic(auto, using(crate::proofs::PartsLemmas::blocks_back, crate::proofs::PartsLemmas::windows_back))]
    pub fn text_front(self, i: usize, most: usize) -> Result<&'a [u8], Stop>
        requires { i ≤ size_of self }
        ensures read { IfOk result (λ s. (file : List ℕ) → MayBeOf self.entry file
            → s.now ≡ take most (text_at file i)) }
        ensures within { IfOk result (λ s. i + length s.now ≤ size_of self.entry) }
        ensures stop { IfErr result (λ s. Halts self.entry (λ _. Unit {0}) s) }
    {
        match self {
            Parts::Blocks(known) => known.text_front(i, most),
            Parts::Windows(seen) => seen.text_front(i, most),
        }
    }
}
