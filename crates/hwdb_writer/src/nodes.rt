//! The nodes of a tree, before their strings have numbers.
ghost use Rattle.std.specs.Prelude.{◌≡◌};

/// A node. It has the byte that leads to it, and the bytes after that one. Its values, by key, are `count` of the entries from `first` on.
#[derive(Clone, Copy)]
pub struct BuiltNode<'t> {
    pub byte: u8,
    pub children: u16,
    pub prefix: &'t [u8],
    pub first: usize,
    pub count: usize,
}

impl<'t> BuiltNode<'t> {
    /// A node without children, whose values begin with this entry.
    pub fn new(byte: u8, prefix: &'t [u8], first: usize) -> BuiltNode<'t>
        ensures byte { result.byte ≡ byte }
        ensures prefix { result.prefix.now ≡ prefix.now }
        ensures first { result.first ≡ first }
        ensures count { result.count ≡ 0 }
        ensures children { result.children ≡ 0 }
    {
        BuiltNode {
            byte,
            prefix,
            first,
            count: 0,
            children: 0,
        }
    }
}
