//! Worked rows of commands.
ghost use Rattle.std.specs.Prelude.{◌≡◌, ℕ, true, false, [], ◌∷◌, codes, None, Some, Ok, Err};
ghost use Rattle.olr_spec.specs.Bytes.{Length, Flags, Reserved};
ghost use Rattle.olr_spec.specs.Bytes as bytes;
ghost use Rattle.olr_spec.specs.Map.{Move_node, Drop_node, no_coord};
ghost use Rattle.olr_commands.specs.State.{On_map, Add_path, Not_a_reference, Not_v3, Not_base64, Path_exists, No_path};
ghost use Rattle.olr_commands.specs.State.{Batch_open, No_batch, Count_differs, Drop_path, Make, Show, Report, Explain};
ghost use Rattle.olr_commands.specs.State.{Begin, Commit, Abort, start_state, step, Show_node, Show_line, Show_margin};
ghost use Rattle.olr_commands.specs.State.{Set_margin, Depends, Compact, Preview, Ambiguous};
ghost use Rattle.olr_commands.specs.Reply.{Paths, Held, Records, Names, Obstacles, IsReply, takes_memory, may_lack};
ghost use Rattle.olr_laws.specs.CommandRows.{in_batch, path_a, with_a, with_fifty, with_node, text_of_lines};
ghost use Rattle.olr_laws.specs.Rows.{Gives, AllGive, fifty, path_of};

/// The steps of `explain`.
#[tactic(auto, unfolding(base64::specs::GeneralPurpose::decoded_of, base64::specs::Decode::groups_error, base64::specs::Decode::groups_bytes, base64::specs::Decode::scan_steps))]
pub fn rows_explain()
    ensures whole { AllGive (step start_state) (Explain (codes "CwRbWyNG9RpsCQCb/jsbtAT/6/+jK1lE")
        ∷ Explain (codes "CwRbWyNG9RpsCQCb/jsaHA==") ∷ []) (Ok start_state) }
    ensures faults { Gives (λ text. step start_state (Explain text))
        ((codes "CwRbWyNG9RpsCQCb/jsbtAT/6/+jK1k=", Err (Not_a_reference (Not_v3 Flags)))
        ∷ (codes "CgRbWyNG9RpsCQCb/jsaHA==", Err (Not_a_reference (Not_v3 bytes.Status)))
        ∷ (codes "CwRbWyNG9ZpsCQCb/jsaHA==", Err (Not_a_reference (Not_v3 Reserved)))
        ∷ ([], Err (Not_a_reference (Not_v3 Length))) ∷ (codes "*", Err (Not_a_reference Not_base64)) ∷ []) }
{}

/// Steps, by the state: outside of batches, in a batch that holds nothing, in one that holds a path or a margin, and with a
/// path. The margin is set at once outside of batches, and held in one.
pub fn rows_steps()
    ensures outside { Gives (step start_state) ((Begin, Ok (in_batch [])) ∷ (Commit 0, Err No_batch) ∷ (Abort, Err No_batch)
        ∷ (Depends [], Ok start_state) ∷ (Compact, Ok start_state) ∷ (Preview, Err No_batch) ∷ (Ambiguous None, Ok start_state)
        ∷ (Ambiguous (Some (codes "a")), Err No_path) ∷ (Show_margin, Ok start_state)
        ∷ (Make (Set_margin fifty), Ok with_fifty) ∷ []) }
    ensures empty { Gives (step (in_batch [])) ((Begin, Err Batch_open) ∷ (Commit 0, Ok start_state)
        ∷ (Commit 2, Err Count_differs) ∷ (Preview, Ok (in_batch [])) ∷ (Make path_a, Ok (in_batch (path_a ∷ [])))
        ∷ (Make (Set_margin fifty), Ok (in_batch (Set_margin fifty ∷ []))) ∷ []) }
    ensures refused { AllGive (step (in_batch [])) (Show_node 1 ∷ Show_line 1 ∷ Depends (1 ∷ []) ∷ Compact
        ∷ Ambiguous (Some (codes "a")) ∷ []) (Err Batch_open) }
    ensures holding { Gives (step (in_batch (path_a ∷ []))) ((Abort, Ok start_state) ∷ (Make path_a, Err Path_exists)
        ∷ (Show (codes "a"), Err No_path)
        ∷ (Make (Drop_path (codes "a")), Ok (in_batch (path_a ∷ Drop_path (codes "a") ∷ []))) ∷ []) }
    ensures margin { Gives (step (in_batch (Set_margin fifty ∷ []))) ((Show_margin, Ok (in_batch (Set_margin fifty ∷ [])))
        ∷ (Commit 1, Ok with_fifty) ∷ (Abort, Ok start_state) ∷ []) }
    ensures with_path { step (with_a None) (Ambiguous (Some (codes "a"))) ≡ Ok (with_a None) }
{}

/// Replies where no answer changed, and of the margin, which is shown without the open batch's.
#[tactic(auto, unfolding(olr_records::proofs::OnLiterals::on_literals))]
pub fn rows_of_replies()
    ensures report { IsReply start_state Report start_state (Paths []) }
    ensures held { IsReply (in_batch []) (Make path_a) (in_batch (path_a ∷ [])) (Held 1) }
    ensures no_dependents { IsReply with_node (Depends (1 ∷ [])) with_node (Names []) }
    ensures compacted { IsReply start_state Compact start_state (Paths []) }
    ensures no_difference { IsReply (in_batch []) Preview (in_batch []) (Paths []) }
    ensures no_obstacles { IsReply start_state (Ambiguous None) start_state (Obstacles []) }
    ensures margin { IsReply start_state Show_margin start_state (Records 1 (text_of_lines (codes "margin,0,0" ∷ []))) }
    ensures margin_in_batch { IsReply (in_batch (Set_margin fifty ∷ [])) Show_margin (in_batch (Set_margin fifty ∷ []))
        (Records 1 (text_of_lines (codes "margin,0,0" ∷ []))) }
    ensures margin_set { IsReply start_state (Make (Set_margin fifty)) with_fifty (Paths []) }
    ensures margin_again { IsReply with_fifty Show_margin with_fifty (Records 1 (text_of_lines (codes "margin,50,1" ∷ []))) }
{}

/// Which commands may run out of memory.
pub fn rows_memory()
    ensures outside { Gives (may_lack start_state) ((Begin, false) ∷ (Abort, false) ∷ (Commit 0, false) ∷ (Compact, false)
        ∷ (Preview, false) ∷ (Report, false) ∷ (Show (codes "a"), false) ∷ (Make path_a, true)
        ∷ (Make (Add_path (codes "a") (path_of [] 0 0)), true) ∷ (Make (Drop_path (codes "a")), false)
        ∷ (Make (Set_margin fifty), true) ∷ (Ambiguous None, true) ∷ (Ambiguous (Some (codes "a")), false) ∷ []) }
    ensures empty { Gives (may_lack (in_batch [])) ((Abort, false) ∷ (Begin, false) ∷ (Commit 0, true) ∷ (Commit 1, false)
        ∷ (Preview, true) ∷ []) }
    ensures with_path { Gives (may_lack (with_a None)) ((Report, true) ∷ (Make (Drop_path (codes "a")), false) ∷ []) }
    ensures dropped_in_batch { may_lack (with_a (Some [])) (Make (Drop_path (codes "a"))) ≡ true }
    ensures moved { may_lack with_node (Make (On_map (Move_node 1 no_coord))) ≡ false }
    ensures moved_beside_paths { takes_memory (Make (On_map (Move_node 1 no_coord))) None false ≡ true }
    ensures node_dropped { takes_memory (Make (On_map (Drop_node 1))) None true ≡ true }
{}
