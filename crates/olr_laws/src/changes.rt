//! Worked rows of degree-two nodes, coverage queries and changed lines.
ghost use Rattle.std.specs.Prelude.{◌≡◌, ℕ, true, false, List, [], ◌∷◌};
ghost use Rattle.olr_spec.specs.Extension.{passes_between};
ghost use Rattle.olr_spec.specs.Queries.{querying};
ghost use Rattle.olr_spec.specs.Map.{Map, ShapePoint, empty_map, no_coord, dm, Add_node, Add_line, Set_line};
ghost use Rattle.olr_spec.specs.Detours.{changes_of};
ghost use Rattle.olr_laws.specs.Rows.{AllGive, leg10};

/// Degree-two nodes, by the other ends of the lines that enter node 9 and of those that leave it.
pub fn rows_passing()
    ensures passing { AllGive (λ (e : List ℕ × List ℕ). passes_between 9 e.0 e.1)
        ((1 ∷ [], 2 ∷ []) ∷ (1 ∷ 2 ∷ [], 2 ∷ 1 ∷ []) ∷ []) true }
    ensures others { AllGive (λ (e : List ℕ × List ℕ). passes_between 9 e.0 e.1) ((1 ∷ [], 1 ∷ []) ∷ (1 ∷ 2 ∷ [], 2 ∷ [])
        ∷ (1 ∷ 1 ∷ [], 2 ∷ 2 ∷ []) ∷ (1 ∷ 2 ∷ [], 1 ∷ 3 ∷ []) ∷ (9 ∷ [], 9 ∷ []) ∷ ([], 2 ∷ []) ∷ []) false }
{}

/// The LRPs with a coverage query: those whose line is followed by two or more lines.
pub fn rows_querying()
    ensures first_two { querying (11 ∷ 12 ∷ 13 ∷ 14 ∷ []) (0 ∷ 1 ∷ 2 ∷ 4 ∷ []) ≡ 0 ∷ 1 ∷ [] }
    ensures two_lines { querying (11 ∷ 12 ∷ []) (0 ∷ 1 ∷ 2 ∷ []) ≡ [] }
    ensures three_lines { querying (11 ∷ 12 ∷ 13 ∷ []) (0 ∷ 3 ∷ []) ≡ 0 ∷ [] }
{}

/// The lines that an edit changes: an added line with its length, and none for an added node, or where a line is set to
/// the length that it has.
pub fn rows_changes()
    ensures line { changes_of empty_map (Add_line 7 leg10.line) ≡ record { from = 1; to = 2; len = 5610 } ∷ [] }
    ensures node { changes_of empty_map (Add_node 7 no_coord) ≡ [] }
    ensures own_length { (M : Map) (x frc fow : ℕ) (shape : List ShapePoint)
        → changes_of M (Set_line x frc fow (dm M x) shape) ≡ [] }
{}
