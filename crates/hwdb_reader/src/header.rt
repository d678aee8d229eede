//! The header of a database, 80 bytes as in systemd's `hwdb-internal.h`.
ghost use Rattle.std.specs.Prelude.{◌≡◌, IfOk, OnErr, IfErr};
ghost use Rattle.hwdb_spec.specs.Format.{layout_of, IsHeader, HeaderFault};

use crate::fields::u64_at;
use crate::frame::Frame;
use hwdb_spec::{DbFault, Layout};

/// Tests each field of the header, and the last byte. The error is the first of B1 to B5 that applies.
#[tactic(auto, unfolding(hwdb_spec::specs::Format::layout_of))]
pub fn check_header(b: &[u8]) -> Result<Frame, DbFault>
    ensures ok { IfOk result (λ f. (f.sizes ≡ layout_of b.now) × IsHeader b.now) }
    ensures err { OnErr result (IsHeader b.now → ⊥) }
    ensures fault { IfErr result (λ e. HeaderFault b.now e) }
{
    if b.len() < 80 {
        return Err(DbFault::Short);
    }
    if &b[..8] != b"KSLPHHRH".as_slice() {
        return Err(DbFault::Signature);
    }
    let header = u64_at(b, 24);
    let node_size = u64_at(b, 32);
    let child_size = u64_at(b, 40);
    let value_size = u64_at(b, 48);
    if header < 80 || node_size < 24 || child_size < 16 || value_size < 32 {
        return Err(DbFault::RecordSizes);
    }
    let nodes_len = u64_at(b, 64);
    let strings_len = u64_at(b, 72);
    if u64_at(b, 16) != b.len()
        || header > b.len()
        || nodes_len > b.len() - header
        || strings_len != b.len() - header - nodes_len
    {
        return Err(DbFault::Lengths);
    }
    if strings_len == 0 || b[b.len() - 1] != 0 {
        return Err(DbFault::Strings);
    }
    let sizes = Layout {
        node_size,
        child_size,
        value_size,
        nodes: header,
        root: u64_at(b, 56),
        strings: header + nodes_len,
    };
    Ok(Frame { sizes })
}

/// The layout that the header says, if all of the header was tested before.
#[tactic(auto, unfolding(hwdb_spec::specs::Format::layout_of))]
pub fn frame_of(b: &[u8]) -> Frame
    requires { IsHeader b.now }
    ensures { result.sizes ≡ layout_of b.now }
{
    let header = u64_at(b, 24);
    let sizes = Layout {
        node_size: u64_at(b, 32),
        child_size: u64_at(b, 40),
        value_size: u64_at(b, 48),
        nodes: header,
        root: u64_at(b, 56),
        strings: header + u64_at(b, 64),
    };
    Frame { sizes }
}
