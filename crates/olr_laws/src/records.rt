//! Worked rows of records, replies and faults as text.
ghost use Rattle.std.specs.Prelude.{◌≡◌, ℕ, pos, neg_ℤ, [], ◌∷◌, map, codes, None, Some, Ok, Err};
ghost use Rattle.std.specs.List.{concat};
ghost use Rattle.olr_spec.specs.Coordinates.{coord};
ghost use Rattle.olr_spec.specs.Map.{Add_node, Move_node, Drop_node, Add_line, Set_line, Drop_line, Node_exists};
ghost use Rattle.olr_spec.specs.Map.{no_coord, No_node, Line_exists, No_line, Node_in_use, Bad_shape};
ghost use Rattle.olr_spec.specs.Encoding as encoding;
ghost use Rattle.olr_spec.specs.Bytes as bytes;
ghost use Rattle.olr_commands.specs.State.{On_map, Add_path, Set_path, Drop_path, Make, Show, Report, Dump, Compact};
ghost use Rattle.olr_commands.specs.State.{Explain, Begin, Preview, Commit, Abort, Ambiguous, Set_margin, Show_margin};
ghost use Rattle.olr_spec.specs.Ambiguity.{Same_sector, Other_bearing, Other_node};
ghost use Rattle.olr_commands.specs.RecordText.{record_line};
ghost use Rattle.olr_commands.specs.Reply as reply;
ghost use Rattle.olr_commands.specs.State as state;
ghost use Rattle.olr_records.specs.Records.{line_between, read, Bad_form, Out_of_range};
ghost use Rattle.olr_records.specs.ReplyText.{reply_text};
ghost use Rattle.olr_laws.specs.Rows.{Gives, AllGive, leg10, leg99, fifty, path_of, reference1, reference2};
ghost use Rattle.olr_laws.specs.CommandRows.{read_text, text_of_lines, AreFaultTexts, changes1};

/// Records of a node.
pub fn rows_nodes()
    ensures node { read_text (codes "node,1,6.12683,49.60852") ≡ Ok (Make (On_map (Add_node 1 leg10.begin))) }
    ensures zeros { read_text (codes "node,0000000000000000000000000000000000000000001,0,0")
        ≡ Ok (Make (On_map (Add_node 1 no_coord))) }
    ensures greatest { read_text (codes "drop-node,4294967295") ≡ Ok (Make (On_map (Drop_node 4294967295))) }
    ensures bad_form { AllGive read_text (codes "node,1,1800,0" ∷ codes "node,1,+1,0" ∷ codes "node,1,1.,0"
        ∷ codes "node,1,.5,0" ∷ codes "node,x,181,0" ∷ codes "node,0,181,x" ∷ []) (Err Bad_form) }
    ensures out_of_range { AllGive read_text (codes "node,99999999999999999999999999999999999999999999,0,0" ∷ codes "node,0,0,0"
        ∷ codes "drop-node,4294967296" ∷ codes "node,1,181,0" ∷ codes "node,1,179.99991,0" ∷ codes "node,1,0,90" ∷ [])
        (Err Out_of_range) }
    ensures corner { read_text (codes "node,1,-180,89.9999")
        ≡ Ok (Make (On_map (Add_node 1 (coord (neg_ℤ (pos 58982400000000)) (pos 29491167232000))))) }
    ensures minus_zero { read_text (codes "node,1,-0,0") ≡ Ok (Make (On_map (Add_node 1 no_coord))) }
    ensures moved { read_text (codes "move,5,7.1,50")
        ≡ Ok (Make (On_map (Move_node 5 (coord (pos 2326528000000) (pos 16384000000000))))) }
{}

/// Records of a line.
pub fn rows_lines()
    ensures two_points { read_text (codes "line,10,1,2,3,2,5610,200,6.12701,49.60838,5410,6.1282,49.60413")
        ≡ Ok (Make (On_map (Add_line 10 leg10.line))) }
    ensures no_shape { read_text (codes "line,99,2,3,4,3,1500") ≡ Ok (Make (On_map (Add_line 99 leg99.line))) }
    ensures bad_form { AllGive read_text (codes "line,10,1,2,0,1,100,50,0" ∷ codes "line,10,1,2,0,1,100,50"
        ∷ codes "line,10,1,2,8,0,1,x,0,0" ∷ []) (Err Bad_form) }
    ensures out_of_range { AllGive read_text (codes "line,10,1,2,8,0,1" ∷ codes "line,10,1,2,0,0,1000001"
        ∷ codes "line,10,1,2,0,0,0" ∷ codes "line,10,1,2,0,0,1000000,1000000,0,0" ∷ []) (Err Out_of_range) }
    ensures shape_past_the_end { read_text (codes "line,98,2,3,4,3,1500,1500,0,0") ≡ Ok (Make (On_map (Add_line 98
        (line_between 2 3 4 3 1500 (record { at = 1500; place = no_coord } ∷ []))))) }
    ensures set { read_text (codes "set-line,99,4,3,2000") ≡ Ok (Make (On_map (Set_line 99 4 3 2000 []))) }
    ensures set_shape { read_text (codes "set-line,99,4,3,2000,1,0,0")
        ≡ Ok (Make (On_map (Set_line 99 4 3 2000 (record { at = 1; place = no_coord } ∷ [])))) }
    ensures dropped { read_text (codes "drop-line,99") ≡ Ok (Make (On_map (Drop_line 99))) }
{}

/// Records of a path, and the remaining records.
pub fn rows_paths()
    ensures path { read_text (codes "path,a,1500,0,10,20,30")
        ≡ Ok (Make (Add_path (codes "a") (path_of (10 ∷ 20 ∷ 30 ∷ []) 1500 0))) }
    ensures no_lines { read_text (codes "path,a,0,0") ≡ Ok (Make (Add_path (codes "a") (path_of [] 0 0))) }
    ensures twice { read_text (codes "path,d,0,0,10,10") ≡ Ok (Make (Add_path (codes "d") (path_of (10 ∷ 10 ∷ []) 0 0))) }
    ensures again { read_text (codes "repath,b,0,0,10") ≡ Ok (Make (Set_path (codes "b") (path_of (10 ∷ []) 0 0))) }
    ensures dropped { read_text (codes "drop-path,b") ≡ Ok (Make (Drop_path (codes "b"))) }
    ensures shown { Gives read_text ((codes "show,a", Ok (Show (codes "a")))
        ∷ (codes "show,aZ0-_.", Ok (Show (codes "aZ0-_."))) ∷ []) }
    ensures of_64 { read_text (codes "show,aaaaaaaaaaaaaaaaaaaaaaaaaaaaaaaaaaaaaaaaaaaaaaaaaaaaaaaaaaaaaaaa")
        ≡ Ok (Show (codes "aaaaaaaaaaaaaaaaaaaaaaaaaaaaaaaaaaaaaaaaaaaaaaaaaaaaaaaaaaaaaaaa")) }
    ensures words { Gives read_text ((codes "report", Ok Report) ∷ (codes "dump", Ok Dump) ∷ (codes "compact", Ok Compact)
        ∷ (codes "preview", Ok Preview) ∷ (codes "ambiguous", Ok (Ambiguous None)) ∷ (codes "begin", Ok Begin)
        ∷ (codes "abort", Ok Abort) ∷ []) }
    ensures ambiguous_one { read_text (codes "ambiguous,a") ≡ Ok (Ambiguous (Some (codes "a"))) }
    ensures explained { Gives read_text ((codes "explain,*", Ok (Explain (codes "*")))
        ∷ (codes "explain,", Ok (Explain [])) ∷ []) }
    ensures commit { Gives read_text ((codes "commit,100000", Ok (Commit 100000)) ∷ (codes "commit,0", Ok (Commit 0)) ∷ []) }
    ensures bad_form { AllGive read_text (codes "path,,0,0,1" ∷ codes "show,a b"
        ∷ codes "show,aaaaaaaaaaaaaaaaaaaaaaaaaaaaaaaaaaaaaaaaaaaaaaaaaaaaaaaaaaaaaaaaa" ∷ codes "ambiguous,a,b"
        ∷ codes "ambiguous," ∷ codes "dump,a" ∷ codes "report," ∷ codes "explain" ∷ codes "commit" ∷ codes "Report" ∷ [])
        (Err Bad_form) }
    ensures out_of_range { AllGive read_text (codes "path,a,4294967296,0,10" ∷ codes "path,a,0,0,0" ∷ codes "commit,4294967296"
        ∷ []) (Err Out_of_range) }
    ensures nothing { read [] ≡ Err Bad_form }
{}

/// Records of the margin.
pub fn rows_margin_records()
    ensures margin { read_text (codes "margin,50,1") ≡ Ok (Make (Set_margin fifty)) }
    ensures greatest { read_text (codes "margin,1000,7") ≡ Ok (Make (Set_margin (record { routes = 1000; classes = 7 }))) }
    ensures show { read_text (codes "show-margin") ≡ Ok Show_margin }
    ensures out_of_range { AllGive read_text (codes "margin,1001,0" ∷ codes "margin,0,8" ∷ []) (Err Out_of_range) }
    ensures bad_form { AllGive read_text (codes "margin,50" ∷ codes "margin,1001,x" ∷ codes "show-margin," ∷ [])
        (Err Bad_form) }
{}

/// Texts of replies.
#[tactic(auto, unfolding(olr_records::proofs::OnLiterals::on_literals))]
pub fn rows_replies()
    ensures nothing { reply_text (reply.Paths []) ≡ text_of_lines (codes "ok,0" ∷ []) }
    ensures text { reply_text
        (reply.Paths (record { name = codes "a"; published = Ok (codes "CwRbWyNG9RpsCQCb/jsaHA==") } ∷ []))
        ≡ text_of_lines (codes "ok,1" ∷ codes "a,text,CwRbWyNG9RpsCQCb/jsaHA==" ∷ []) }
    ensures refusals { reply_text (reply.Paths (record { name = codes "a"; published = Err (encoding.Unknown_line 20) }
        ∷ record { name = codes "b"; published = Err (encoding.Broken 0) }
        ∷ record { name = codes "c"; published = Err encoding.Offset_too_long }
        ∷ record { name = codes "d"; published = Err (encoding.No_next_point 0) } ∷ []))
        ≡ text_of_lines (codes "ok,4" ∷ codes "a,refused,1,20" ∷ codes "b,refused,2,0" ∷ codes "c,refused,3" ∷ codes
        "d,refused,4,0" ∷ []) }
    ensures fields { reply_text (reply.Fields reference1)
        ≡ text_of_lines (codes "ok,4" ∷ codes "first,285531,2311925,3,2,3,12,9" ∷ codes "middle,155,-453,3,3,5,20,4" ∷
        codes "last,-21,-93,5,3,25" ∷ codes "positive,68" ∷ []) }
    ensures two_fields { reply_text (reply.Fields reference2)
        ≡ text_of_lines (codes "ok,2" ∷ codes "first,285531,2311925,3,2,3,12,9" ∷ codes "last,155,-453,3,2,28" ∷ []) }
    ensures no_records { reply_text (reply.Dumped 0 []) ≡ text_of_lines (codes "ok,0" ∷ []) }
    ensures records { reply_text (reply.Dumped 4 (concat (map record_line changes1)))
        ≡ text_of_lines (codes "ok,4" ∷ codes "node,1,6.12683,-0.0000001" ∷ codes "node,2,0,-180" ∷ codes
        "line,10,1,2,3,2,5610,200,6.12701,49.60838" ∷ codes "path,a,1500,0,10" ∷ []) }
    ensures margin { reply_text (reply.Records 1 (concat (map record_line (Set_margin fifty ∷ []))))
        ≡ text_of_lines (codes "ok,1" ∷ codes "margin,50,1" ∷ []) }
    ensures obstacles { reply_text (reply.Obstacles (record { name = codes "a"; lrp = 0; obstacle = Same_sector 11 }
        ∷ record { name = codes "a"; lrp = 1; obstacle = Other_bearing 21 }
        ∷ record { name = codes "b"; lrp = 2; obstacle = Other_node 4 } ∷ []))
        ≡ text_of_lines (codes "ok,3" ∷ codes "a,0,sector,11" ∷ codes "a,1,bearing,21" ∷ codes "b,2,node,4" ∷ []) }
    ensures held { reply_text (reply.Held 100000) ≡ text_of_lines (codes "held,100000" ∷ []) }
{}

/// Texts of faults.
#[tactic(auto, unfolding(olr_records::proofs::OnLiterals::on_literals))]
pub fn rows_faults()
    ensures plain { AreFaultTexts ((state.Syntax, codes "fault,1,Syntax") ∷ (state.Range, codes "fault,2,Range")
        ∷ (state.Path_exists, codes "fault,9,PathExists") ∷ (state.No_path, codes "fault,10,NoPath")
        ∷ (state.Bad_path, codes "fault,11,BadPath") ∷ (state.Memory, codes "fault,13,Memory")
        ∷ (state.Batch_open, codes "fault,14,BatchOpen") ∷ (state.No_batch, codes "fault,15,NoBatch")
        ∷ (state.Count_differs, codes "fault,16,CountDiffers") ∷ (state.Batch_full, codes "fault,17,BatchFull")
        ∷ (state.Not_a_record, codes "fault,18,NotARecord") ∷ []) }
    ensures of_map { AreFaultTexts ((state.Map_fault Node_exists, codes "fault,3,NodeExists")
        ∷ (state.Map_fault No_node, codes "fault,4,NoNode") ∷ (state.Map_fault Line_exists, codes "fault,5,LineExists")
        ∷ (state.Map_fault No_line, codes "fault,6,NoLine") ∷ (state.Map_fault Node_in_use, codes "fault,7,NodeInUse")
        ∷ (state.Map_fault Bad_shape, codes "fault,8,BadShape") ∷ []) }
    ensures causes { AreFaultTexts ((state.Not_a_reference (state.Not_v3 bytes.Length), codes "fault,12,NotAReference,1")
        ∷ (state.Not_a_reference (state.Not_v3 bytes.Status), codes "fault,12,NotAReference,2")
        ∷ (state.Not_a_reference (state.Not_v3 bytes.Flags), codes "fault,12,NotAReference,3")
        ∷ (state.Not_a_reference (state.Not_v3 bytes.Reserved), codes "fault,12,NotAReference,4")
        ∷ (state.Not_a_reference state.Not_base64, codes "fault,12,NotAReference,6") ∷ []) }
{}
