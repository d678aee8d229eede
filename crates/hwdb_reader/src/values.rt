//! The value entries of a node, tested.
ghost use Rattle.std.specs.Prelude.{◌≡◌, ◌≤◌, ◌+◌, ◌*◌, length, OnOk, OnErr, IfErr, None};
ghost use Rattle.hwdb_spec.specs.Format.{IsValue, ValuesText, EntryFault, ValuesFault};
ghost use Rattle.hwdb_reader.specs.Internal.Read.{values_at};

use crate::fields::{is_place, u16_at, u64_at};
use crate::frame::Frame;
use crate::repeats::Repeats;
use hwdb_spec::DbFault;

/// Tests one value entry: its three strings are inside the string section, its priority isn't 0.
#[inline(always)]
pub fn check_value(b: &[u8], l: Frame, entry: usize) -> Result<(), DbFault>
    requires { entry + 32 ≤ length b.now }
    ensures ok { OnOk result (IsValue l.sizes b.now entry) }
    ensures err { OnErr result (IsValue l.sizes b.now entry → ⊥) }
    ensures fault { IfErr result (λ e. EntryFault l.sizes b.now entry e) }
{
    if !is_place(b, l, u64_at(b, entry)) {
        return Err(DbFault::StringOffset(entry as u64));
    }
    if !is_place(b, l, u64_at(b, entry + 8)) {
        return Err(DbFault::StringOffset(entry as u64 + 8));
    }
    if !is_place(b, l, u64_at(b, entry + 16)) {
        return Err(DbFault::StringOffset(entry as u64 + 16));
    }
    if u16_at(b, entry + 28) == 0 {
        return Err(DbFault::Priority(entry as u64));
    }
    Ok(())
}

/// Tests the `n` value entries from `first` on, whose stored keys have to ascend. A lone key, as nearly all are, isn't
/// read.
#[inline(always)]
#[tactic(auto, unfolding(hwdb_spec::specs::Format::ValuesText, crate::specs::Internal::Read::values_at))]
pub fn check_values(
    b: &[u8],
    l: Frame,
    repeats: &mut Repeats<'_>,
    first: usize,
    n: usize,
) -> Result<(), DbFault>
    requires room { first + l.sizes.value_size * n ≤ length b.now }
    requires text { repeats.old ≡ b.now }
    ensures same { repeats.new ≡ repeats.old }
    ensures ok { OnOk result
        (ValuesText l.sizes b.now first None (values_at l.sizes b.now first n)) }
    ensures err { OnErr result
        (ValuesText l.sizes b.now first None (values_at l.sizes b.now first n) → ⊥) }
    ensures fault { IfErr result (λ e. ValuesFault l.sizes b.now first n e) }
{
    if n == 1 {
        return check_value(b, l, first);
    }
    let mut before: Option<usize> = None;
    let mut entry = first;
    for i in 0..n {
        check_value(b, l, entry)?;
        let key = u64_at(b, entry);
        if let Some(other) = before {
            if !repeats.is_less(other, key) {
                return Err(DbFault::KeyOrder(entry as u64));
            }
        }
        before = Some(key);
        entry += l.sizes.value_size;
    }
    Ok(())
}
