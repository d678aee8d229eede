//! Match lines that their record has already.
ghost use Rattle.std.specs.Prelude.{◌≡◌, ℕ, List, [], ◌∷◌, true, IfOk, OnOk};
ghost use Rattle.std.specs.List.{list_any};
ghost use Rattle.std.specs.Ordering.{nat_cmp};
ghost use Rattle.std.specs.BTreeSet as tree;
ghost use Rattle.hwdb_spec.specs.Lines;
ghost use Rattle.hwdb_spec.specs.Lines.{Line};
ghost use Rattle.hwdb_spec_commands.specs.Warnings.{repeated_lines};
ghost use Rattle.hwdb_check.specs.Internal.{AreAlike, above_texts, calm, calm_on, found_with, line_of, texts, IsSetOf};

use hwdb_text::{Content, content_of, end_of};
use std::alloc::{AllocError, Global};
use std::collections::BTreeSet;

/// What was read of the lines so far.
#[derive(Drop)]
pub struct Run<'b> {
    /// The match lines directly above, but for the last one.
    pub above: BTreeSet<&'b [u8]>,
    /// The last one. Most records have one match line, for which no set is needed.
    pub last: Option<&'b [u8]>,
    /// The numbers of those that repeat one of their run.
    pub numbers: Vec<u64>,
}

impl<'b> Run<'b> {
    /// Puts the last match line into the set. The only error, here and below, is `AllocError`.
    fn settle(&mut self) -> Result<(), AllocError>
        ensures above { OnOk result (AreAlike (texts self.new.above.keys) (above_texts self.old)) }
        ensures numbers { OnOk result (self.new.numbers ≡ self.old.numbers) }
    {
        if let Some(last) = self.last {
            self.above.insert(last)?;
        }
        Ok(())
    }

    /// Nothing is above the next line.
    fn clear(&mut self)
        ensures above { above_texts self.new ≡ [] }
        ensures numbers { self.new.numbers ≡ self.old.numbers }
    {
        self.above.clear();
        self.last = None;
    }

    /// Reads a clean match line.
    fn put(&mut self, number: u64, clean: &'b [u8]) -> Result<(), AllocError>
        requires { Lines.is_match (line_of number clean.now) ≡ true }
        ensures { OnOk result ((more : List Line) → found_with self.new more
            ≡ found_with self.old (line_of number clean.now ∷ more)) }
    {
        self.settle()?;
        let is_there = self.above.contains(&clean);
        self.last = Some(clean);
        if is_there {
            self.numbers.push(number)?;
        }
        Ok(())
    }

    /// Reads a line.
    fn line(&mut self, number: u64, text: &'b [u8]) -> Result<(), AllocError>
        ensures { OnOk result ((more : List Line) → found_with self.new (Lines.clean more)
            ≡ found_with self.old (Lines.clean (line_of number text.now ∷ more))) }
    {
        match content_of(text) {
            Content::Comment => Ok(()),
            Content::ZeroByte => Ok(()),
            Content::Empty => {
                self.clear();
                Ok(())
            }
            Content::Property(_) => {
                self.clear();
                Ok(())
            }
            Content::Match(clean) => self.put(number, clean),
        }
    }
}

/// The numbers of the match lines of a file that their record has already, ascending. It takes a look among the match
/// lines of a record for each of these, and else a pass over the bytes.
#[tactic(auto, unfolding(hwdb_spec::specs::Lines::numbered))]
fn repeated_numbers(alloc: Global, bytes: &[u8]) -> Result<Vec<u64>, AllocError>
    ensures { IfOk result (λ numbers. numbers.items ≡ repeated_lines bytes.now) }
{
    let mut run = Run {
        above: BTreeSet::new(alloc),
        last: None,
        numbers: Vec::new(alloc),
    };
    let mut number = 1;
    for text in hwdb_text::Lines::new(bytes) {
        run.line(number, text)?;
        number += 1;
    }
    Ok(run.numbers)
}

/// Some numbers as a set.
pub fn set_of(alloc: Global, numbers: &[u64]) -> Result<BTreeSet<u64>, AllocError>
    ensures { IfOk result (λ set. IsSetOf numbers.now set) }
{
    let mut set = BTreeSet::new(alloc);
    for number in numbers {
        set.insert(*number)?;
    }
    Ok(set)
}

/// Whether a text has a byte 0.
fn holds_zero(text: &[u8]) -> bool
    ensures { result ≡ Lines.has 0 text.now }
{
    end_of(0, text) < text.len()
}

/// Whether a line may be a match line, if the line before it, of which `after` says this, isn't one above it. Nothing if it may
/// be one below another one, or if that isn't seen.
fn next_calm(after: bool, text: &[u8]) -> Option<bool>
    ensures { (more : List (List ℕ)) → calm_on result more ≡ calm after (text.now ∷ more) }
{
    if text.is_empty() {
        return Some(false);
    }
    if text[0] == b'#' {
        return Some(after);
    }
    if text[0] == b' ' {
        if holds_zero(text) {
            return None;
        }
        return Some(false);
    }
    if after {
        return None;
    }
    Some(true)
}

/// Whether it is seen by the first bytes of its lines that in a file no match line is directly below another one, as in
/// most large files.
fn is_calm(bytes: &[u8]) -> bool
    ensures { result ≡ true → repeated_lines bytes.now ≡ [] }
{
    let mut after = false;
    for text in hwdb_text::Lines::new(bytes) {
        match next_calm(after, text) {
            Some(next) => after = next,
            None => return false,
        }
    }
    true
}

/// The set of the numbers of the match lines of a file that their record has already.
pub fn repeated_lines(alloc: Global, bytes: &[u8]) -> Result<BTreeSet<u64>, AllocError>
    ensures { IfOk result (λ set. IsSetOf (repeated_lines bytes.now) set) }
{
    if is_calm(bytes) {
        return Ok(BTreeSet::new(alloc));
    }
    let numbers = repeated_numbers(alloc, bytes)?;
    set_of(alloc, &numbers)
}
