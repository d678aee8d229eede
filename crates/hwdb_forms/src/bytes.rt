//! Sets of bytes as numbers, with a bit for each byte.
ghost use Rattle.std.specs.Prelude.{◌≡◌, ℕ, ◌^◌, ◌<◌, ◌≤◌, false, true, if◌then◌else◌};
ghost use Rattle.hwdb_spec.specs.Forms.{is_in};
ghost use Rattle.hwdb_spec.specs.declared.ByteSet.TheVariants.{Only};
ghost use Rattle.hwdb_forms.specs.Internal;
ghost use Rattle.hwdb_forms.specs.Internal.{has_bit, has_byte};

use hwdb_spec::ByteSet;

/// Some bytes.
#[derive(Clone, Copy)]
pub(crate) struct Bytes {
    /// A bit for each of the first 128, the lowest one for the first.
    pub(crate) low: u128,
    /// The same of the last 128.
    pub(crate) high: u128,
}

/// The bit at a place.
fn bit(at: u8) -> u128
    requires { at < 128 }
    ensures { result ≡ 2 ^ at }
{
    1 << at
}

/// The only bit of a byte, if it is among 128, from the first one on.
fn bit_of(own: u8, first: u8) -> u128
    requires { first ≤ 128 }
    ensures { result ≡ Internal.bytes_of (Only own) first 128 }
{
    if own < first {
        return 0;
    }
    let at = own - first;
    if at >= 128 {
        return 0;
    }
    bit(at)
}

/// Which of the first 128 bytes are of the set.
#[tactic(auto, unfolding(crate::specs::Internal::bytes_of))]
fn low_bytes(set: ByteSet) -> u128
    ensures { result ≡ Internal.bytes_of set 0 128 }
{
    match set {
        ByteSet::Only(own) => bit_of(own, 0),
        ByteSet::UpperHex => 0x00000000_0000007e_03ff0000_00000000,
        ByteSet::LowerHex => 0x0000007e_00000000_03ff0000_00000000,
        ByteSet::AnyHex => 0x0000007e_0000007e_03ff0000_00000000,
        ByteSet::HexOrBlank => 0x0000007e_00000000_03ff0001_00000000,
        ByteSet::InputBits => 0x008c3862_0000007e_03ff1000_00000000,
        ByteSet::Units => 0x0100007e_00000000_07ff0001_00000000,
        ByteSet::Name => 0x07fffffe_87fffffe_03ff2000_00000000,
        ByteSet::Names => 0x07fffffe_87fffffe_07ff2000_00000000,
        ByteSet::Dmi => 0x7fffffff_ffffffff_fbfffffe_00000000,
        ByteSet::DmiLeft => 0x07fffffe_97ffffff_a3fff838_00000000,
        ByteSet::Left => 0x07fffffe_97ffffff_a7fff839_00000000,
        ByteSet::LeftButColon => 0x07fffffe_97ffffff_a3fff839_00000000,
        ByteSet::Any => 0xffffffff_ffffffff_ffffffff_fffffffe,
    }
}

/// Which of the last 128 bytes are of the set.
#[tactic(auto, unfolding(crate::specs::Internal::bytes_of))]
fn high_bytes(set: ByteSet) -> u128
    ensures { result ≡ Internal.bytes_of set 128 128 }
{
    match set {
        ByteSet::Only(own) => bit_of(own, 128),
        ByteSet::Left => u128::MAX,
        ByteSet::LeftButColon => u128::MAX,
        ByteSet::Any => u128::MAX,
        ByteSet::UpperHex => 0,
        ByteSet::LowerHex => 0,
        ByteSet::AnyHex => 0,
        ByteSet::HexOrBlank => 0,
        ByteSet::InputBits => 0,
        ByteSet::Units => 0,
        ByteSet::Name => 0,
        ByteSet::Names => 0,
        ByteSet::Dmi => 0,
        ByteSet::DmiLeft => 0,
    }
}

/// No byte.
pub(crate) fn no_bytes() -> Bytes
    ensures { (byte : ℕ) → has_byte result byte ≡ false }
{
    Bytes { low: 0, high: 0 }
}

/// The bytes of the set.
pub(crate) fn bytes_of(set: ByteSet) -> Bytes
    ensures { (byte : ℕ) → byte < 256 → has_byte result byte ≡ is_in set byte }
{
    Bytes {
        low: low_bytes(set),
        high: high_bytes(set),
    }
}

/// The bytes that are among the ones or the others.
pub(crate) fn joined(some: Bytes, others: Bytes) -> Bytes
    ensures { (byte : ℕ) → has_byte result byte
        ≡ (if has_byte some byte then true else has_byte others byte) }
{
    Bytes {
        low: some.low | others.low,
        high: some.high | others.high,
    }
}

/// Whether the number has the bit.
fn has_bit(bits: u128, at: u8) -> bool
    requires { at < 128 }
    ensures { result ≡ has_bit bits at }
{
    (bits >> at) % 2 == 1
}

/// Whether the byte is among them.
pub(crate) fn are_with(bytes: Bytes, byte: u8) -> bool
    ensures { result ≡ has_byte bytes byte }
{
    if byte < 128 {
        has_bit(bytes.low, byte)
    } else {
        has_bit(bytes.high, byte - 128)
    }
}
