//! Laws over what is made of a file system's answers: a definition that said less would be noticed here.
ghost use Rattle.std.specs.Prelude.{◌≡◌, ◌∷◌, [], Ok, codes};
ghost use Rattle.hwdb_system.specs.ReadLaws.{ErrorsHaveOneCause, KindsAreTold, LinksAreTold, ReadIsNoError, ignored, listed};

/// Of each kind of thing at a place one result is made, an error tells one cause, and a listing's names are those that count.
#[tactic(auto, using(crate::proofs::ReadLawLemmas::kinds_are_told, crate::proofs::ReadLawLemmas::links_are_told, crate::proofs::ReadLawLemmas::names_are_listed, crate::proofs::ReadLawLemmas::others_are_ignored))]
pub fn answers_are_told()
    ensures kinds { KindsAreTold }
    ensures links { LinksAreTold }
    ensures read { ReadIsNoError }
    ensures one { ErrorsHaveOneCause }
    ensures names { listed ≡ Ok (codes "a.hwdb" ∷ (codes "c.hwdb" ∷ [])) }
    ensures ignored { ignored ≡ Ok (codes "b" ∷ (codes "e.hwdb.txt" ∷ [])) }
{}
