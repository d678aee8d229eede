//! The header of a file, of which its first 80 bytes and its size are known.
ghost use Rattle.std.specs.Prelude.{◌≡◌, ◌≤◌, ◌+◌, ℕ, List, length, take, codes, IfSome, IsTrue};
ghost use Rattle.hwdb_spec.specs.Format.{layout_of, IsHeader};
ghost use Rattle.hwdb_reader.specs.Passes.Views.{IsPart, IsRead, IsOf, HasSections};

use crate::fields::u64_at;
use crate::frame::Frame;
use crate::passes::outline::Outline;
use hwdb_spec::Layout;

/// Whether the header begins with the signature.
fn is_signed(header: &[u8]) -> bool
    requires { 8 ≤ length header.now }
    ensures { IsTrue result → take 8 header.now ≡ codes "KSLPHHRH" }
{
    &header[..8] == b"KSLPHHRH".as_slice()
}

/// The layout that the header says. `size` is the number of the file's bytes.
#[tactic(auto, unfolding(hwdb_spec::specs::Format::layout_of))]
pub fn open_sections(header: &[u8], size: usize) -> Option<Frame>
    ensures sections { IfSome result (λ f. (file : List ℕ) → IsPart file 0 header.now
        → length file ≡ size → HasSections f.sizes file) }
    ensures inside { IfSome result
        (λ f. (f.sizes.nodes ≤ f.sizes.strings) × (f.sizes.strings ≤ size)) }
{
    if header.len() < 80 || !is_signed(header) {
        return None;
    }
    let nodes = u64_at(header, 24);
    let node_size = u64_at(header, 32);
    let child_size = u64_at(header, 40);
    let value_size = u64_at(header, 48);
    if nodes < 80 || node_size < 24 || child_size < 16 || value_size < 32 {
        return None;
    }
    let nodes_len = u64_at(header, 64);
    if u64_at(header, 16) != size || nodes > size || nodes_len >= size - nodes {
        return None;
    }
    if u64_at(header, 72) != size - nodes - nodes_len {
        return None;
    }
    let sizes = Layout {
        node_size,
        child_size,
        value_size,
        nodes,
        root: u64_at(header, 56),
        strings: nodes + nodes_len,
    };
    Some(Frame { sizes })
}

/// What is kept of a file with this header, this size and this string section.
pub fn open_outline<'a>(header: &[u8], size: usize, strings: &'a [u8]) -> Option<Outline<'a>>
    ensures { IfSome result (λ o. (file : List ℕ) → IsRead header.now size strings.now file
        → IsOf o file) }
{
    let Some(frame) = open_sections(header, size) else {
        return None;
    };
    if strings.len() != size - frame.sizes.strings || strings.is_empty() {
        return None;
    }
    if strings[strings.len() - 1] != 0 {
        return None;
    }
    Some(Outline {
        frame,
        size,
        strings,
    })
}
