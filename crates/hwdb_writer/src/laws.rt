//! Laws of the written form. The functions hold no code: the contract of each is a law.
ghost use Rattle.std.specs.Prelude.{◌≡◌, ℕ, List};
ghost use Rattle.hwdb_spec.specs.Tree.{Map, Tree};
ghost use Rattle.hwdb_spec.specs.Written.{IsTightTree, IsWritten};

/// A map has one tight tree at most.
pub fn law_one_tight_tree()
    ensures { (m : Map) (t u : Tree) → IsTightTree m t → IsTightTree m u → t ≡ u }
{}

/// A map has one written form at most.
pub fn law_one_written_form()
    ensures { (m : Map) (a b : List ℕ) → IsWritten m a → IsWritten m b → a ≡ b }
{}
