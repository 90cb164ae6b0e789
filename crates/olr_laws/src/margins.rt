//! Worked rows of margins.
ghost use Rattle.std.specs.Prelude.{◌≡◌, ◌↔◌, ℕ, true, false, List, [], ◌∷◌};
ghost use Rattle.olr_spec.specs.Margins.{allowed, counted_dm};
ghost use Rattle.olr_spec.specs.Elsewhere.{HasNoOther, HasOurs, suffices};
ghost use Rattle.olr_spec.specs.Split.{HasRoads};
ghost use Rattle.olr_spec.specs.Receiver.{RecoversTo};
ghost use Rattle.olr_spec.specs.Routes.{UniqueShortest};
ghost use Rattle.olr_spec.specs.Points.{CoveredWith};
ghost use Rattle.olr_laws.specs.Rows.{Gives, fifty, roads, roads_path, theirs, split_roads, split_chain, loop_map, loop_path};

/// What lines count is rounded up to a decimetre, and is at most twice their length. With 50 thousandths lengths may
/// differ by 24, with 100 by 47, and with 0 not at all. A class is allowed to be one less important, but not beyond 7.
pub fn rows_counted()
    ensures counted { Gives (counted_dm fifty) ((100, 105) ∷ (101, 107) ∷ []) }
    ensures shortest { counted_dm (record { routes = 1; classes = 0 }) 1 ≡ 2 }
    ensures twice { counted_dm (record { routes = 1000; classes = 0 }) 1000000 ≡ 2000000 }
    ensures none { counted_dm (record { routes = 0; classes = 0 }) 101 ≡ 101 }
    ensures differing { Gives (λ (e : ℕ × ℕ). suffices fifty e.0 e.1)
        (((24, 24), true) ∷ ((25, 25), false) ∷ ((50, 0), true) ∷ ((51, 0), false) ∷ []) }
    ensures more { Gives (λ (n : ℕ). suffices (record { routes = 100; classes = 1 }) n n) ((47, true) ∷ (48, false) ∷ []) }
    ensures same { suffices (record { routes = 0; classes = 0 }) 0 0 ≡ true }
    ensures never { suffices (record { routes = 1000; classes = 7 }) 0 1000 ≡ false }
    ensures class { allowed fifty 3 ≡ 4 }
    ensures last_class { allowed (record { routes = 50; classes = 2 }) 6 ≡ 7 }
{}

/// From node 2 to node 3 line 20 has 1,000 dm and line 21 1,010 dm. Without a margin line 20 is covered; on a partner's map,
/// where it has 1,012 dm and line 21 1,005 dm, it is not the way. With 50 thousandths it isn't covered, since it counts 1,050.
/// In the loop line 11 has 100 dm, and the lines 14 and 15 of the same path have 100 dm together: only the lines between
/// count longer, and not those of other legs, so line 11 isn't covered.
#[tactic(auto, using(crate::proofs::MarginRowLemmas::covered_without, crate::proofs::MarginRowLemmas::elsewhere_other, crate::proofs::MarginRowLemmas::not_covered, crate::proofs::MarginRowLemmas::loop_not_covered))]
pub fn rows_partner()
    ensures here { UniqueShortest (roads 1000 1010) 2 3 (20 ∷ []) }
    ensures there { ¬ UniqueShortest (roads 1012 1005) 2 3 (20 ∷ []) }
    ensures not_covered { ¬ CoveredWith fifty (roads 1000 1010) roads_path 0 3 }
    ensures own_alone { ¬ CoveredWith fifty loop_map loop_path 0 2 }
{}

/// Line 20 has 1,000 dm and line 21 1,060 dm; with 50 thousandths line 20 is the way from line 10 to line 30. It is so on a
/// partner's map where they have 1,024 and 1,035 dm, and which has three lines that ours lacks: one in another town, one of a
/// class below the reference's, and one that begins behind the leg. It is so on one where line 20 is split in two.
#[tactic(auto, using(crate::proofs::ElsewhereRowLemmas::theirs_has_others, crate::proofs::ElsewhereRowLemmas::split_has_roads))]
pub fn rows_elsewhere()
    ensures ours { HasOurs 24 (roads 1000 1060) theirs 4 2 1124 }
    ensures others { ¬ HasNoOther (roads 1000 1060) theirs }
    ensures recovered { (w : List ℕ) → RecoversTo theirs 4 10 30 w ↔ (w ≡ 10 ∷ 20 ∷ []) }
    ensures roads { HasRoads 24 (roads 1000 1060) split_roads split_chain 4 2 1024 }
    ensures split { (w : List ℕ) → RecoversTo split_roads 4 10 30 w ↔ (w ≡ 10 ∷ 201 ∷ 202 ∷ []) }
{}
