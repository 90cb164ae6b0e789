//! Worked rows of candidates and receivers.
ghost use Rattle.std.specs.Prelude.{◌≡◌, ℕ, pos, negsuc, [], ◌∷◌, true, false};
ghost use Rattle.olr_spec.specs.Margins.{no_margin};
ghost use Rattle.olr_spec.specs.Map.{IsMap};
ghost use Rattle.olr_spec.specs.Bearings.{vector};
ghost use Rattle.olr_spec.specs.Encoding.{Encodes, Points};
ghost use Rattle.olr_spec.specs.Receiver.{Outgoing, Incoming, candidates, decoded_coord, is_nearest, has_no_twin};
ghost use Rattle.olr_spec.specs.Recovery.{Distinct, IsWeighted, are_cosines, are_spaced};
ghost use Rattle.olr_laws.specs.Rows.{Gives, leg10, leg20, leg30, reference1, morning_lines, twin_lines, axes_sum, cosine};
ghost use Rattle.olr_laws.specs.Rows.{by_cosine, morning_map, morning_path, fork_map, fork_path, fork_reference, fork_lines};
ghost use Rattle.olr_laws.specs.Rows.{fork10, degrees10, TakesOther};
ghost use Rattle.olr_spec.specs.Directions.{is_beyond};
ghost use Rattle.olr_laws.specs.ReceiverLaws.{DistinctByDirection, SeesDirections, exceeded, is_within, middle, stands_out};

/// The first worked path on its map: the answer is its reference, which is distinct for both kinds of receivers; the
/// slack is 10,000,000 units, 3.4 m of latitude. By the cosine of the latitude,
/// which is more than 64/100 there, the weighted sum is such a measure as the law of the nearest node asks for.
#[tactic(auto, using(crate::proofs::RowLemmas::morning_sound, crate::proofs::RowLemmas::morning_candidates, crate::proofs::RowLemmas::morning_answer, crate::proofs::RowLemmas::morning_distinct, crate::proofs::RowLemmas::morning_by_direction, crate::proofs::RowLemmas::morning_cosines, crate::proofs::RowLemmas::morning_weighted))]
pub fn rows_morning()
    ensures sound { IsMap morning_map }
    ensures lines { candidates morning_map ≡ morning_lines }
    ensures answer { Encodes morning_map morning_path (Points reference1) }
    ensures distinct { Distinct axes_sum morning_map morning_path reference1 }
    ensures by_direction { DistinctByDirection no_margin axes_sum 10000000 morning_map morning_path reference1 }
    ensures cosines { are_cosines 64 100 1000000 cosine morning_map reference1 ≡ true }
    ensures weighted { IsWeighted 64 100 1000000 by_cosine morning_map reference1 }
{}

/// Two lines from one node in one sector, of other classes: the path along one of them is distinct, and yet a receiver
/// that compares directions takes the other one. To such receivers it doesn't stand out.
#[tactic(auto, using(crate::proofs::RowLemmas::fork_candidates, crate::proofs::RowLemmas::fork_answer, crate::proofs::RowLemmas::fork_distinct, crate::proofs::RowLemmas::takes_other))]
pub fn rows_fork()
    ensures lines { candidates fork_map ≡ fork_lines }
    ensures answer { Encodes fork_map fork_path (Points fork_reference) }
    ensures distinct { Distinct axes_sum fork_map fork_path fork_reference }
    ensures other { TakesOther }
    ensures stands_out { stands_out axes_sum 0 Outgoing (decoded_coord fork_reference 0) 10 fork10 fork_lines ≡ false }
{}

/// Directions beside the margin of sector 4, which is from 42.1875 to 59.0625 degrees, and at most 6 degrees from its
/// middle. Scores by 6, 12 and 18 degrees don't tell directions in a sector apart; whole degrees tell five.
#[tactic(auto, using(crate::proofs::RowLemmas::by_degrees, crate::proofs::RowLemmas::by_scores))]
pub fn rows_margin()
    ensures beyond { Gives (is_beyond 4) ((vector (pos 906347) (pos 1000000), false)
        ∷ (vector (pos 906346) (pos 1000000), true)
        ∷ (vector (pos 1000000) (pos 599378), false) ∷ (vector (pos 1000000) (pos 599377), true)
        ∷ (vector (negsuc 0) (negsuc 0), true) ∷ (vector (pos 0) (pos 0), false) ∷ []) }
    ensures past_north { is_beyond 31 (vector (pos 49126) (pos 1000000)) ≡ false }
    ensures within { Gives (is_within 105104 (middle 4)) ((vector (pos 1035500) (pos 1000000), true)
        ∷ (vector (pos 965700) (pos 1000000), false) ∷ []) }
    ensures scores { SeesDirections (exceeded (105104 ∷ 212557 ∷ 324920 ∷ [])) 0 }
    ensures degrees { SeesDirections (exceeded degrees10) 5 }
{}

/// The lines at the LRPs of the first worked path: the nodes of the other lines of its map are far enough. With a second line
/// 20 it has a twin and isn't distinct, though it is the nearest. The cosine of 49.6 degrees is greater than 64/100.
pub fn rows_distinct()
    ensures beside_its_twin { is_nearest axes_sum Outgoing (decoded_coord reference1 1) leg20 twin_lines ≡ true }
    ensures not_alone { has_no_twin Outgoing 20 leg20 twin_lines ≡ false }
    ensures first_spaced { are_spaced 64 100 0 Outgoing leg10 morning_lines ≡ true }
    ensures second_spaced { are_spaced 64 100 1 Outgoing leg20 morning_lines ≡ true }
    ensures third_spaced { are_spaced 64 100 2 Incoming leg30 morning_lines ≡ true }
    ensures node_by_far { is_nearest axes_sum Outgoing (decoded_coord reference1 0) leg20 morning_lines ≡ false }
{}
