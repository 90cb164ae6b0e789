//! Worked rows of bytes and texts of references.
ghost use Rattle.std.specs.Prelude.{◌≡◌, ℕ, [], ◌∷◌, map, replicate, take, codes, Some, None};
ghost use Rattle.olr_spec.specs.Bearings.{up_to};
ghost use Rattle.olr_spec.specs.Bytes.{v3_fault, Length, Status, Flags, Reserved};
ghost use Rattle.olr_spec.specs.Reference.{reference};
ghost use Rattle.olr_binary.specs.Text.{text_of};
ghost use Rattle.olr_laws.specs.Rows.{Gives, legs1, reference1, reference2, bytes1, offset_bytes_of, bytes2};

/// Faults of bytes: of the first worked bytes truncated at every length, and of others.
pub fn rows_bytes()
    ensures faults { Gives v3_fault ((bytes1, None) ∷ (bytes2 0x0a 0x1a, Some Status) ∷ (bytes2 0x0b 0x9a, Some Reserved)
        ∷ (offset_bytes_of 0, None) ∷ []) }
    ensures short { map (λ n. v3_fault (take n bytes1)) (up_to 16) ≡ replicate 16 (Some Length) }
    ensures from_16 { map (λ n. v3_fault (take n bytes1)) (16 ∷ 17 ∷ 18 ∷ 19 ∷ 20 ∷ 21 ∷ 22 ∷ 23 ∷ [])
        ≡ Some Flags ∷ Some Reserved ∷ Some Flags ∷ Some Length ∷ Some Length ∷ Some Length ∷ Some Length ∷ Some Flags ∷ [] }
{}

/// Texts of references: the worked paths by their LRPs and offsets.
#[tactic(auto, unfolding(olr_binary::specs::Text::text_of, base64::specs::Rfc4648::encode_symbols))]
pub fn rows_texts()
    ensures all { Gives text_of ((reference1, codes "CwRbWyNG9RpsCQCb/jsbtAT/6/+jK1lE")
        ∷ (reference2, codes "CwRbWyNG9RpsCQCb/jsaHA==") ∷ (reference legs1 1500 0 (3 ∷ []), codes "CwRbWyNG9RqsDgCG/d4rWS0=")
        ∷ (reference legs1 6000 0 (1 ∷ 3 ∷ []), codes "CwRboyNGIRu0BP/r/6MrWSQ=")
        ∷ (reference legs1 1500 740 (1 ∷ 3 ∷ []), codes "CwRbWyNG9RpsCQCb/jsbtAT/6/+jK3lERQ==") ∷ []) }
{}
