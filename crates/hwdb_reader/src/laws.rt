//! Laws of the format. Each function holds no code: its contract is a law of the definitions of `hwdb_spec`.
ghost use Rattle.std.specs.Prelude.{◌≡◌, ◌<◌, ℕ, List, length};
ghost use Rattle.hwdb_spec.specs.Tree.{Tree, IsTree};
ghost use Rattle.hwdb_reader.specs.Views.{node_count};
ghost use Rattle.hwdb_spec.specs.Format.{Applies, IsDatabase, IsHeader, Visit, Visited, layout_of};
ghost use Rattle.hwdb_reader.specs.Laws.{IsOfHeader, IsRightBefore, IsThere};
ghost use Rattle.hwdb_spec.specs.declared.DbFault.{DbFault};
ghost use Rattle.hwdb_spec.specs.Written.{written};
ghost use Rattle.hwdb_reader.specs.Samples.{empty_tree, empty_bytes, one_tree, one_bytes, two_tree, two_bytes};

/// Bytes are a database of one tree at most.
pub fn law_one_tree()
    ensures { (bytes : List ℕ) (t u : Tree) → IsDatabase bytes t → IsDatabase bytes u → t ≡ u }
{}

/// In the tree of a database keys and bytes ascend.
pub fn law_ascending()
    ensures { (bytes : List ℕ) (t : Tree) → IsDatabase bytes t → IsTree t }
{}

/// A database has more bytes than its tree has nodes.
pub fn law_few_nodes()
    ensures { (bytes : List ℕ) (t : Tree) → IsDatabase bytes t → node_count t < length bytes }
{}

/// No fault applies to a database: bytes with a fault are a database of no tree.
pub fn law_faultless()
    ensures { (bytes : List ℕ) (t : Tree) (e : DbFault)
        → IsDatabase bytes t → Applies bytes e → ⊥ }
{}

/// If one of B1 to B5 applies, no other fault does. Each applies only if what is looked at before it is right. So B2
/// needs bytes that are long enough, B3 the signature too, and so on to B5. The others need a sound header.
pub fn law_header_faults()
    ensures one { (bytes : List ℕ) (e f : DbFault) → IsOfHeader e
        → Applies bytes e → Applies bytes f → e ≡ f }
    ensures order { (bytes : List ℕ) (e : DbFault) → Applies bytes e → IsRightBefore bytes e }
{}

/// Each of B6 to B11 is the fault of a node that is visited, and what is at fault is at its offset.
pub fn law_offsets()
    ensures { (bytes : List ℕ) (e : DbFault) → IsHeader bytes → Applies bytes e → (v : Visit)
        × Visited (layout_of bytes) bytes v × IsThere (layout_of bytes) bytes v e }
{}

/// The written form, byte for byte, of the empty tree, of one value and of two.
pub fn law_samples()
    ensures empty { written empty_tree ≡ empty_bytes }
    ensures one { written one_tree ≡ one_bytes }
    ensures two { written two_tree ≡ two_bytes }
{}
