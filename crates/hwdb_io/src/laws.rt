//! Laws of failed calls, and of what an output took. Each function does nothing: its contract is the law.
ghost use Rattle.std.specs.Prelude.{◌≡◌, ◌++◌, ◌<◌, ◌-◌, ◌^◌, ℕ, Bool, true, List, Option, Some};
ghost use Rattle.hwdb_spec.specs.Failures.{HasFailed, OneFailed};
ghost use Rattle.hwdb_spec.specs.Flushing.{HandsOn, HasHandedOn};
ghost use Rattle.hwdb_spec.specs.Outputs.{CutShort, Took};

/// If one call has failed and was the last one, then a call has failed.
pub fn one_failed_has_failed()
    ensures { (before now : ℕ) → OneFailed before now → HasFailed before now }
{}

/// An output that took a text whole has all of it, and one that cut it short has its beginning. It isn't both, as long as
/// failures can be counted.
pub fn outputs_have_what_they_took()
    ensures whole { (text before now : List ℕ) (f g : ℕ)
        → Took text (Some before) (Some now) f g → now ≡ before ++ text }
    ensures beginning { (text before now : List ℕ) (f g : ℕ)
        → CutShort text (Some before) (Some now) f g
        → (rest : List ℕ) × (now ++ rest ≡ before ++ text) }
    ensures apart { (text : List ℕ) (before now : Option (List ℕ)) (f g : ℕ) → f < 2 ^ 64 - 1
        → Took text before now f g → CutShort text before now f g → ⊥ }
{}

/// An output of which no call failed holds nothing back, if it held nothing back before and failures can be counted.
pub fn nothing_is_held_back()
    ensures call { (before now : Bool) (count : ℕ) → count < 2 ^ 64 - 1
        → HandsOn (before ≡ true) (now ≡ true) count count → before ≡ true → now ≡ true }
    ensures run { (before now : Bool) (count : ℕ) → count < 2 ^ 64 - 1
        → HasHandedOn (before ≡ true) (now ≡ true) count count → before ≡ true → now ≡ true }
{}
