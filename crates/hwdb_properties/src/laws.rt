//! Laws over the definitions alone: worked rows. Each function does nothing: its contract is the law.
ghost use Rattle.hwdb_properties.specs.NearRows.{NearKeyRows, SaidRows};
ghost use Rattle.hwdb_properties.specs.Rows.{AxisRows, CodeRows, KeyRows, MatrixRows, MeantRows, NameRows, NumberRows, OddNameRows, PairRows, ReadRows, ResolutionRows, SettingRows};

/// Which texts are resolutions of a mouse.
#[tactic(auto, using(crate::proofs::RowLemmas::resolutions))]
pub fn resolutions_are_told()
    ensures { ResolutionRows }
{}

/// Which texts are matrices.
#[tactic(auto, using(crate::proofs::RowLemmas::matrices))]
pub fn matrices_are_told()
    ensures { MatrixRows }
{}

/// Which texts are limits of an axis.
#[tactic(auto, using(crate::proofs::RowLemmas::axes))]
pub fn axes_are_told()
    ensures { AxisRows }
{}

/// Which texts are numbers and words.
#[tactic(auto, using(crate::proofs::RowLemmas::numbers))]
pub fn numbers_are_told()
    ensures { NumberRows }
{}

/// Which texts name a layout of X.
#[tactic(auto, using(crate::proofs::RowLemmas::settings))]
pub fn settings_are_told()
    ensures { SettingRows }
{}

/// How values were likely meant.
#[tactic(auto, using(crate::proofs::RowLemmas::meant))]
pub fn meant_values_are_told()
    ensures { MeantRows }
{}

/// Which names have odd bytes.
#[tactic(auto, using(crate::proofs::RowLemmas::odd_names))]
pub fn odd_names_are_told()
    ensures { OddNameRows }
{}

/// Which names are nearly alike.
#[tactic(auto, using(crate::proofs::RowLemmas::names))]
pub fn names_are_told()
    ensures { NameRows }
{}

/// Which codes Linux logs otherwise than their driver has them.
#[tactic(auto, using(crate::proofs::RowLemmas::code_rows))]
pub fn codes_are_told()
    ensures { CodeRows }
{}

/// What people call keys.
#[tactic(auto, using(crate::proofs::RowLemmas::key_rows))]
pub fn keys_are_told()
    ensures { KeyRows }
{}

/// Below which prefixes a property is read.
#[tactic(auto, using(crate::proofs::RowLemmas::prefixes))]
pub fn prefixes_are_told()
    ensures { ReadRows }
{}

/// Which properties lack another one.
#[tactic(auto, using(crate::proofs::RowLemmas::pairs))]
pub fn pairs_are_told()
    ensures { PairRows }
{}

/// Which key is near to a word that asks for none, and what is said of it.
#[tactic(auto, using(crate::proofs::NearRowLemmas::near_rows, crate::proofs::NearRowLemmas::said_rows))]
pub fn near_key_rows()
    ensures near { NearKeyRows }
    ensures said { SaidRows }
{}
