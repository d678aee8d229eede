//! The lines of events whose bytes come in any pieces.
ghost use Rattle.std.specs.Prelude.{◌≡◌, ◌≤◌, ◌++◌, Option, OnOk, length, ℕ};
ghost use Rattle.hwdb_spec_commands.specs.Scans as spec;
ghost use Rattle.hwdb_scan.specs.Views.{after_byte, after_bytes, after_event, byte_text, bytes_text, event_view, fewer, is_over, joined, scanning_of, start, told_lines};

use crate::events::{EVENT_SIZE, Event, code_after, event_of, is_press};
use crate::keys::push_pressed;
use std::alloc::{AllocError, Global};

/// Reads events of an input device, and tells each key that is pressed. The bytes are records of `struct input_event` of linux/input.h, for
/// 64 bits. They may come in any pieces: those of a record that has begun are kept until its rest comes.
#[derive(Drop)]
pub struct Scanner {
    /// The bytes of a record that has begun.
    begun: Vec<u8>,
    /// The scan code of the next key in this report.
    known: Option<u32>,
    /// How many lines are still asked for; all without a number.
    wanted: Option<u64>,
}

/// How many lines are still asked for after one.
fn one_less(wanted: Option<u64>) -> Option<u64>
    ensures { result ≡ fewer wanted 1 }
{
    match wanted {
        Some(n) => Some(n.saturating_sub(1)),
        None => None,
    }
}

/// Whether no more line is asked for.
fn is_enough(wanted: Option<u64>) -> bool
    ensures { result ≡ is_over wanted }
{
    match wanted {
        Some(n) => n == 0,
        None => false,
    }
}

/// Adds what an event tells, if this scan code is known and so many lines are asked for. The only error, here and below, is
/// `AllocError`.
fn push_event(
    alloc: Global,
    text: &mut Vec<u8>,
    known: Option<u32>,
    wanted: Option<u64>,
    event: Event,
) -> Result<(), AllocError>
    ensures { OnOk result (text.new.items ≡ text.old.items
        ++ joined (spec.counted wanted (spec.lines_of known (event_view event)))) }
{
    if is_press(event) && !is_enough(wanted) {
        push_pressed(alloc, text, known, event.code)?;
    }
    Ok(())
}

/// How many lines are still asked for after an event.
fn wanted_after(wanted: Option<u64>, event: Event) -> Option<u64>
    ensures { (known : Option ℕ)
        → result ≡ fewer wanted (length (spec.lines_of known (event_view event))) }
{
    if is_press(event) {
        one_less(wanted)
    } else {
        wanted
    }
}

impl Scanner {
    /// A scanner that tells so many keys, or all of them.
    pub fn new(alloc: Global, count: Option<u64>) -> Scanner
        ensures { scanning_of result ≡ start count }
    {
        Scanner {
            begun: Vec::new(alloc),
            known: None,
            wanted: count,
        }
    }

    /// Whether as many keys were told as are asked for.
    pub fn is_done(&self) -> bool
        ensures { result ≡ is_over self.now.wanted }
    {
        is_enough(self.wanted)
    }

    /// Takes a whole record.
    fn take_record(&mut self, alloc: Global, text: &mut Vec<u8>) -> Result<(), AllocError>
        requires { 24 ≤ length self.old.begun.items }
        ensures held { OnOk result (scanning_of self.new
            ≡ after_event (scanning_of self.old) (spec.event_of self.old.begun.items)) }
        ensures told { OnOk result (text.new.items ≡ text.old.items
            ++ joined (told_lines (scanning_of self.old) (spec.event_of self.old.begun.items))) }
    {
        let event = event_of(&self.begun);
        push_event(alloc, text, self.known, self.wanted, event)?;
        self.wanted = wanted_after(self.wanted, event);
        self.known = code_after(self.known, event);
        self.begun.clear();
        Ok(())
    }

    /// Takes one byte more.
    fn take_byte(&mut self, alloc: Global, byte: u8, text: &mut Vec<u8>) -> Result<(), AllocError>
        ensures held { OnOk result
            (scanning_of self.new ≡ after_byte (scanning_of self.old) byte) }
        ensures told { OnOk result
            (text.new.items ≡ text.old.items ++ byte_text (scanning_of self.old) byte) }
    {
        let is_last = self.begun.len() == EVENT_SIZE - 1;
        self.begun.push(byte)?;
        if is_last {
            return self.take_record(alloc, text);
        }
        Ok(())
    }

    /// Takes more bytes, and adds the lines of the keys that they tell. The laws `law_in_pieces` and `law_at_once` say what that is of all
    /// bytes.
    ///
    /// The only error is want of memory; after it the scanner is of no use. Takes time in proportion to the bytes, and for each key that
    /// is told to all names of keys.
    #[tactic(auto, unfolding(crate::specs::Views::after_bytes, crate::specs::Views::bytes_text))]
    pub fn take(
        &mut self,
        alloc: Global,
        bytes: &[u8],
        text: &mut Vec<u8>,
    ) -> Result<(), AllocError>
        ensures held { OnOk result
            (scanning_of self.new ≡ after_bytes (scanning_of self.old) bytes.now) }
        ensures told { OnOk result
            (text.new.items ≡ text.old.items ++ bytes_text (scanning_of self.old) bytes.now) }
    {
        for byte in bytes {
            self.take_byte(alloc, *byte, text)?;
        }
        Ok(())
    }
}
