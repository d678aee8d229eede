//! A file system that may be looked at from a root below its own.
ghost use Rattle.std.specs.Prelude.{◌≡◌, IfErr};
ghost use Rattle.hwdb_spec_commands.specs.Refusals.{HasReason, IsUnentered};

use crate::texts_below::TextsBelow;
use hwdb_spec_commands::Refusal;

/// A [`System`](crate::System) that may go below a root.
pub trait Rooted: TextsBelow {
    /// Goes below a root. The paths of folders and databases, and those of the store, all begin with it from now on. They
    /// lead on inside it, as if it were `/`, whatever links are on the way. Changes no file. What is no folder is an error.
    fn enter(&mut self, root: &str) -> Result<(), Refusal>
        ensures same { Self.tells → self.new ≡ self.old }
        ensures refused { IfErr result (IsUnentered root.now) }
        ensures reason { IfErr result
            (HasReason (Self.may_fail self.old) ⊥ (Self.seen self.old)) };
}
