//! Worked rows of coordinates and bearings.
ghost use Rattle.std.specs.Prelude.{◌≡◌, ℕ, ℤ, pos, negsuc, neg_ℤ, [], ◌∷◌, codes, Some, None, Ok, Err};
ghost use Rattle.olr_spec.specs.Coordinates.{abs24, from_abs24, rel16};
ghost use Rattle.olr_spec.specs.Degrees;
ghost use Rattle.olr_spec.specs.Degrees.{read_degrees};
ghost use Rattle.olr_spec.specs.Bearings.{sector, thousandths, scaled_coord, bearing_out, bearing_back};
ghost use Rattle.olr_laws.specs.Rows.{Gives, AllGive, leg10, straight_leg, slanted_leg};

/// 24-bit steps, and back: halves are rounded away from zero.
pub fn rows_abs24()
    ensures steps { Gives abs24 ((pos 3515624, pos 0) ∷ (pos 3515625, pos 1)
        ∷ (neg_ℤ (pos 3515625), neg_ℤ (pos 1)) ∷ (pos 0, pos 0) ∷ (pos 3506176, pos 0) ∷ (pos 3538944, pos 1)
        ∷ (neg_ℤ (pos 3538944), neg_ℤ (pos 1)) ∷ (neg_ℤ (pos 58982400000000), neg_ℤ (pos 8388608)) ∷ []) }
    ensures back { Gives from_abs24 ((pos 0, pos 0) ∷ (pos 1, pos 3515625)
        ∷ (neg_ℤ (pos 8388608), neg_ℤ (pos 58982396484375)) ∷ []) }
{}

/// Relative steps: the limits of 16 bits, and halves, which are rounded away from zero.
pub fn rows_rel16()
    ensures limits { Gives (rel16 (pos 0)) ((pos 107372511232, Some (pos 32767)) ∷ (pos 107372544000, None)
        ∷ (neg_ℤ (pos 107375788032), Some (neg_ℤ (pos 32768))) ∷ (neg_ℤ (pos 107375820800), None) ∷ []) }
    ensures halves { Gives (rel16 (pos 1000)) ((pos 1639400, Some (pos 1)) ∷ (pos 1639399, Some (pos 0)) ∷ []) }
    ensures minus_half { rel16 (pos 1638400) (pos 0) ≡ Some (neg_ℤ (pos 1)) }
{}

/// Degrees as text.
pub fn rows_degrees()
    ensures read { Gives read_degrees ((codes "7", Ok (pos 2293760000000)) ∷ (codes "6.12683", Ok (pos 2007639654400))
        ∷ (codes "-0.0000001", Ok (neg_ℤ (pos 32768))) ∷ (codes "-0", Ok (pos 0)) ∷ (codes "007.50", Ok (pos 2457600000000))
        ∷ (codes "180", Ok (pos 58982400000000)) ∷ (codes "-180.0000001", Err Degrees.Range) ∷ []) }
    ensures no_text { AllGive read_degrees (codes "1800" ∷ codes "+1" ∷ codes "1." ∷ codes ".5" ∷ codes "1.00000000" ∷ []
        ∷ codes "-" ∷ codes "1.2.3" ∷ []) (Err Degrees.Text) }
{}

/// Sectors on and beside their boundaries.
pub fn rows_sector()
    ensures all { Gives (λ (v : ℤ × ℤ). sector v.0 v.1) (((pos 0, pos 1), 0) ∷ ((pos 1, pos 1), 4) ∷ ((pos 1, pos 0), 8)
        ∷ ((negsuc 0, pos 1000), 31) ∷ ((pos 0, pos 0), 0) ∷ ((pos 198912, pos 1000000), 1) ∷ ((pos 198911, pos 1000000), 0)
        ∷ ((pos 0, negsuc 0), 16) ∷ ((negsuc 0, pos 0), 24) ∷ []) }
{}

/// Coordinates along a line, and bearings. At a shape point the interval is the one that ends
/// there.
pub fn rows_bearing()
    ensures place { scaled_coord straight_leg 200 ≡ record { lon = pos 65536000000; lat = pos 0; width = 1000 } }
    ensures at_shape { (scaled_coord leg10 200).width ≡ 200 }
    ensures past_shape { (scaled_coord leg10 201).width ≡ 5210 }
    ensures out { Gives bearing_out ((straight_leg, 8) ∷ (slanted_leg 19660963840000, 4)
        ∷ (slanted_leg 19660967116800, 3) ∷ []) }
    ensures back { Gives bearing_back ((straight_leg, 24) ∷ (slanted_leg 19660963840000, 20) ∷ []) }
    ensures south { thousandths (neg_ℤ (pos 327679999)) ≡ pos 0 }
{}
