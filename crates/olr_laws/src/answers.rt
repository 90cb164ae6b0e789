//! Worked rows of location reference points (LRPs) and fields.
ghost use Rattle.std.specs.Prelude.{◌≡◌, ℕ, pos, [], ◌∷◌, Some, None};
ghost use Rattle.olr_spec.specs.Reference.{kept_points, reference};
ghost use Rattle.olr_spec.specs.Bytes.{reference_bytes};
ghost use Rattle.olr_spec.specs.Decoded.{decoded};
ghost use Rattle.olr_laws.specs.Rows.{Gives, legs1, leg10, reference1, reference2, bytes1, offset_bytes_of};

/// The LRPs that remain after the offsets, in dm from the start and from the end.
pub fn rows_kept()
    ensures all { Gives (λ (e : ℕ × ℕ). kept_points legs1 e.0 e.1 (1 ∷ 3 ∷ [])) (((1500, 740), 0 ∷ 1 ∷ 3 ∷ [])
        ∷ ((5610, 0), 1 ∷ 3 ∷ []) ∷ ((5609, 0), 0 ∷ 1 ∷ 3 ∷ []) ∷ ((0, 2740), 0 ∷ 1 ∷ []) ∷ ((0, 2739), 0 ∷ 1 ∷ 3 ∷ []) ∷ []) }
{}

/// The fields and bytes of the first worked path, by its LRPs and offsets.
pub fn rows_reference()
    ensures three_points { reference legs1 1500 0 (1 ∷ 3 ∷ []) ≡ reference1 }
    ensures last_dropped { reference legs1 0 2740 (1 ∷ 3 ∷ []) ≡ reference2 }
    ensures one_line { reference (leg10 ∷ []) 0 0 (1 ∷ []) ≡ reference2 }
    ensures encoded { reference_bytes reference1 ≡ bytes1 }
    ensures greatest_offset { reference_bytes (reference (leg10 ∷ []) 5609 0 (1 ∷ [])) ≡ offset_bytes_of 255 }
    ensures least_offset { reference_bytes (reference (leg10 ∷ []) 1 0 (1 ∷ [])) ≡ offset_bytes_of 0 }
{}

/// The decoded LRPs of the first worked reference.
pub fn rows_decoded()
    ensures all { Gives (decoded reference1) ((0, Some (pos 2007636328125, pos 16255719140625))
        ∷ (1, Some (pos 2008144232125, pos 16254234750225))
        ∷ (2, Some (pos 2008075419325, pos 16253930007825)) ∷ (3, None) ∷ []) }
{}
