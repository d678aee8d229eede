//! A record of an event, in the form of linux/input.h for 64 bits.
ghost use Rattle.std.specs.Prelude.{◌≡◌, ◌≤◌, ◌+◌, length};
ghost use Rattle.hwdb_spec.specs.Format.{number_at};
ghost use Rattle.hwdb_spec_commands.specs.Scans as spec;
ghost use Rattle.hwdb_scan.specs.Views.{event_view};

use byteorder::{ByteOrder, LittleEndian};

/// How many bytes a record has.
pub const EVENT_SIZE: usize = 24;

/// The types of events and the codes that are looked at (linux/input-event-codes.h).
const EV_SYN: u16 = 0;

const SYN_REPORT: u16 = 0;

const EV_KEY: u16 = 1;

const EV_MSC: u16 = 4;

const MSC_SCAN: u16 = 4;

/// The value of a key that is pressed: 0 is one that is let go, and 2 one that is repeated.
const PRESSED: u32 = 1;

/// An event without its time.
#[derive(Clone, Copy)]
pub struct Event {
    /// Its type.
    pub kind: u16,
    pub code: u16,
    /// Its value, as a number without a sign.
    pub value: u32,
}

/// The number in the two bytes at `i`.
#[tactic(auto, unfolding(hwdb_spec::specs::Format::number_at))]
fn u16_at(b: &[u8], i: usize) -> u16
    requires { i + 2 ≤ length b.now }
    ensures { result ≡ number_at 2 i b.now }
{
    LittleEndian::read_u16(&b[i..])
}

/// The number in the four bytes at `i`.
#[tactic(auto, unfolding(hwdb_spec::specs::Format::number_at))]
fn u32_at(b: &[u8], i: usize) -> u32
    requires { i + 4 ≤ length b.now }
    ensures { result ≡ number_at 4 i b.now }
{
    LittleEndian::read_u32(&b[i..])
}

/// The event of a record.
pub fn event_of(bytes: &[u8]) -> Event
    requires { 24 ≤ length bytes.now }
    ensures { event_view result ≡ spec.event_of bytes.now }
{
    Event {
        kind: u16_at(bytes, 16),
        code: u16_at(bytes, 18),
        value: u32_at(bytes, 20),
    }
}

/// Whether a report ends.
fn ends_report(event: Event) -> bool
    ensures { result ≡ spec.ends_report (event_view event) }
{
    event.kind == EV_SYN && event.code == SYN_REPORT
}

/// Whether it tells the scan code of the key that comes next.
fn is_scan_code(event: Event) -> bool
    ensures { result ≡ spec.is_scan_code (event_view event) }
{
    event.kind == EV_MSC && event.code == MSC_SCAN
}

/// Whether it is of a key.
fn is_of_key(event: Event) -> bool
    ensures { result ≡ spec.is_of_key (event_view event) }
{
    event.kind == EV_KEY
}

/// Whether a key is pressed.
pub fn is_press(event: Event) -> bool
    ensures { result ≡ spec.is_press (event_view event) }
{
    is_of_key(event) && event.value == PRESSED
}

/// The scan code that is known after an event, if this one is known before.
pub fn code_after(known: Option<u32>, event: Event) -> Option<u32>
    ensures { result ≡ spec.code_after known (event_view event) }
{
    if is_scan_code(event) {
        return Some(event.value);
    }
    if is_of_key(event) || ends_report(event) {
        return None;
    }
    known
}
