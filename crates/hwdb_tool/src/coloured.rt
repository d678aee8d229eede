//! Standard output and error for people: a sink before another one, to which it hands on what it takes, in colour and as a
//! terminal is shown it, or as it is.
ghost use Rattle.std.specs.Prelude.{◌≡◌, ◌<◌, ◌≤◌, ℕ, IfOk, List, OnErr, OnOk, false, length, true};
ghost use Rattle.std.specs.Io.KnownBytes.{WriteAppends};
ghost use Rattle.hex.specs.Hex.{IsBytes};
ghost use Rattle.hwdb_spec_commands.specs.Colours.{without_sequences};
ghost use Rattle.hwdb_spec.specs.Failures.{CountsFailures};
ghost use Rattle.hwdb_spec.specs.Outputs.{CutShortOne, TookOne};
ghost use Rattle.hwdb_spec.specs.Visible.{are_kept, visible};
ghost use Rattle.hwdb_tool.specs.Colours.{IsColoured, IsShown, told_through};

use crate::outlet::Outlet;
use hwdb_cli::{DiffArgs, Task};
use hwdb_io::{Cause, DeviceFailed, Sink, write_text};
use hwdb_show::{
    colours_are_taken_out, painted, push_visible, shown_has_no_control, write_visible,
};
use hwdb_spec_commands::{Layout, TextKind};
use std::alloc::Global;

/// A sink that hands on what it takes to another one. For a terminal each text that one call takes is made visible. Then it's
/// coloured, unless its kind is `Plain`.
#[derive(Drop)]
pub struct Coloured<W> {
    /// Where it goes.
    pub inner: W,
    /// What the texts are.
    pub kind: TextKind,
    /// Whether a terminal gets them.
    pub at_terminal: bool,
    /// What gives memory.
    pub alloc: Global,
}

impl<W> Coloured<W> {
    /// A sink before this one, for texts of this kind.
    pub fn new(alloc: Global, inner: W, kind: TextKind, at_terminal: bool) -> Coloured<W>
        ensures inner { result.inner ≡ inner }
        ensures kind { result.kind ≡ kind }
        ensures at_terminal { result.at_terminal ≡ at_terminal }
    {
        Coloured {
            inner,
            kind,
            at_terminal,
            alloc,
        }
    }
}

/// Writes all of the text in colour; if there is no memory, as it is.
fn write_painted<W: Sink>(
    alloc: Global,
    kind: TextKind,
    sink: &mut W,
    text: &[u8],
) -> Result<(), DeviceFailed>
    ensures took { OnOk result (TookOne (IsColoured kind text.now)
        (W.taken sink.old) (W.taken sink.new) (W.failures sink.old) (W.failures sink.new)) }
    ensures cut_short { OnErr result (CutShortOne (IsColoured kind text.now)
        (W.taken sink.old) (W.taken sink.new) (W.failures sink.old) (W.failures sink.new)) }
{
    match painted(alloc, kind, text) {
        Ok(shown) => write_text(sink, &shown),
        Err(_) => write_text(sink, text),
    }
}

/// Writes all of the text as a terminal is shown it, in colour; if there is no memory, without colours.
fn write_seen<W: Sink>(
    alloc: Global,
    kind: TextKind,
    sink: &mut W,
    text: &[u8],
) -> Result<(), DeviceFailed>
    ensures took { OnOk result (TookOne (IsColoured kind (visible text.now))
        (W.taken sink.old) (W.taken sink.new) (W.failures sink.old) (W.failures sink.new)) }
    ensures cut_short { OnErr result (CutShortOne (IsColoured kind (visible text.now))
        (W.taken sink.old) (W.taken sink.new) (W.failures sink.old) (W.failures sink.new)) }
{
    let mut seen = Vec::new(alloc);
    match push_visible(&mut seen, false, text) {
        Ok(()) => write_painted(alloc, kind, sink, &seen),
        Err(_) => write_visible(sink, false, text),
    }
}

/// Writes all of the text in colour, and for a terminal as it is shown one. If there is no memory, it has no colours.
pub fn write_shown<W: Sink>(
    alloc: Global,
    kind: TextKind,
    at_terminal: bool,
    sink: &mut W,
    text: &[u8],
) -> Result<(), DeviceFailed>
    ensures took { OnOk result (TookOne (IsShown kind at_terminal text.now)
        (W.taken sink.old) (W.taken sink.new) (W.failures sink.old) (W.failures sink.new)) }
    ensures cut_short { OnErr result (CutShortOne (IsShown kind at_terminal text.now)
        (W.taken sink.old) (W.taken sink.new) (W.failures sink.old) (W.failures sink.new)) }
{
    if at_terminal {
        write_seen(alloc, kind, sink, text)
    } else {
        write_painted(alloc, kind, sink, text)
    }
}

/// A terminal gets no character for control but those of our colours, newlines and tabs: without the sequences of colours what
/// it's shown of any bytes has none.
pub fn terminals_get_no_control()
    ensures no_control { (kind : TextKind) (text shown : List ℕ) → IsBytes text
        → IsShown kind true text shown
        → are_kept false (without_sequences false shown) ≡ true }
{
    colours_are_taken_out();
    shown_has_no_control();
}

impl<W: Sink> Sink for Coloured<W> {
    ghost taken = { λ s. told_through s.kind s.at_terminal (W.taken s.inner) };

    ghost is_flushed = { λ s. W.is_flushed s.inner };

    ghost failures = { λ s. W.failures s.inner };

    fn write(&mut self, buf: &[u8]) -> Result<usize, DeviceFailed>
        ensures bound { IfOk result (λ n. n ≤ length buf.now) }
        ensures progress { IfOk result (λ n. 0 < length buf.now → 0 < n) }
        ensures bytes { WriteAppends
            (told_through self.old.kind self.old.at_terminal (W.taken self.old.inner))
            (told_through self.new.kind self.new.at_terminal (W.taken self.new.inner))
            result buf.now }
        ensures cause { CountsFailures
            (W.failures self.old.inner) (W.failures self.new.inner) result }
        ensures seen { self.old.at_terminal ≡ true
            → OnOk result (TookOne (IsShown self.old.kind true buf.now)
            (W.taken self.old.inner) (W.taken self.new.inner)
            (W.failures self.old.inner) (W.failures self.new.inner)) }
        ensures seen_short { self.old.at_terminal ≡ true
            → OnErr result (CutShortOne (IsShown self.old.kind true buf.now)
            (W.taken self.old.inner) (W.taken self.new.inner)
            (W.failures self.old.inner) (W.failures self.new.inner)) }
    {
        match (self.kind, self.at_terminal) {
            (TextKind::Plain, false) => self.inner.write(buf),
            (kind, at_terminal) => {
                write_shown(self.alloc, kind, at_terminal, &mut self.inner, buf)?;
                Ok(buf.len())
            }
        }
    }

    fn flush(&mut self) -> Result<(), DeviceFailed> {
        self.inner.flush()
    }

    fn cause(&self) -> Option<Cause> {
        self.inner.cause()
    }
}

impl<W: Outlet> Outlet for Coloured<W> {
    ghost reader_gone = { λ s. W.reader_gone s.inner };

    fn is_reader_gone(&self) -> bool {
        self.inner.is_reader_gone()
    }
}

/// What kind of text a task prints. JSON, and what has no parts to tell apart, is `Plain`.
pub fn kind_of(task: &Task) -> TextKind {
    match task {
        Task::Query(args) if !args.json => TextKind::Properties,
        Task::Ask(_) => TextKind::Properties,
        Task::Explain(args) if !args.json => TextKind::Origins,
        Task::List(args) if !args.json => TextKind::Hits,
        Task::Check(args) if !args.json && !args.diff => TextKind::Reports,
        Task::Near(args) if !args.json => TextKind::Reports,
        Task::Test(args) if !args.json => TextKind::Reports,
        Task::Diff(args) => changes_kind(args),
        Task::Verify(_) => TextKind::Counts,
        Task::Dump(_) | Task::Record(_) => TextKind::Records,
        _ => TextKind::Plain,
    }
}

/// What kind of text changes are: a line each with its pattern, or below a pattern or a device.
fn changes_kind(args: &DiffArgs) -> TextKind {
    if args.review.json || args.review.stat {
        return TextKind::Plain;
    }
    match args.review.layout() {
        Layout::Tables => TextKind::Plain,
        Layout::Lines if args.devices.is_empty() && !args.review.samples => TextKind::Changes,
        _ => TextKind::DeviceChanges,
    }
}
