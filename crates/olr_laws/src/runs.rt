//! Worked rows of command lines, records of bytes and runs.
ghost use Rattle.std.specs.Prelude.{◌≡◌, ℕ, [], ◌∷◌, ◌++◌, codes, Some, false, true};
ghost use Rattle.clap.specs.Faults.{fault_of};
ghost use Rattle.clap.specs.Takes.{takes};
ghost use Rattle.clap.specs.declared.error.kind.ErrorKind.TheVariants as kind;
ghost use Rattle.olr_commands.specs.State.{start_state};
ghost use Rattle.olr_run.specs.Options.{keep_app, options};
ghost use Rattle.olr_run.specs.Sizes.{IsSize, NoSize};
ghost use Rattle.olr_run.specs.declared.statuses.Status.TheVariants as status;
ghost use Rattle.olr_run.specs.Output.{records_of, Outcomes, Ran, Faulted};
ghost use Rattle.olr_input.specs.declared.ends.RunFault.TheVariants as fault;
ghost use Rattle.olr_input.specs.LineRecords.{formless, line_records};
ghost use Rattle.olr_laws.specs.Rows.{AllGive};
ghost use Rattle.olr_laws.specs.CommandRows.{text_of_lines, with_fifty, no_options, input20, output20, with_node};

/// Command lines.
#[tactic(auto, unfolding(clap::proofs::OnLiterals::clap_on_literals))]
pub fn rows_options()
    ensures none { options (codes "olr-keep" ∷ []) ≡ no_options }
    ensures both { AllGive options ((codes "olr-keep" ∷ codes "-s" ∷ codes "-m" ∷ codes "f" ∷ [])
        ∷ (codes "olr-keep" ∷ codes "-smf" ∷ []) ∷ []) (record no_options { file = Some (codes "f"); stop = true }) }
    ensures log { options (codes "olr-keep" ∷ codes "-l" ∷ codes "f" ∷ codes "--new" ∷ codes "--compact-at" ∷ codes "5M" ∷ [])
        ≡ record no_options { log = Some (codes "f"); new = true; compact_at = Some (codes "5M") } }
    ensures lines { options (codes "olr-keep" ∷ codes "--lines" ∷ []) ≡ record no_options { lines = true } }
    ensures taken { AllGive (takes keep_app) ((codes "olr-keep" ∷ [])
        ∷ (codes "olr-keep" ∷ codes "-s" ∷ codes "-m" ∷ codes "f" ∷ []) ∷ []) true }
    ensures unknown { AllGive (fault_of keep_app) ((codes "olr-keep" ∷ codes "-x" ∷ []) ∷ (codes "olr-keep" ∷ codes "f" ∷ []) ∷ [])
        (kind.UnknownArgument ∷ []) }
    ensures help { fault_of keep_app (codes "olr-keep" ∷ codes "--help" ∷ []) ≡ kind.DisplayHelp ∷ [] }
    ensures version { fault_of keep_app (codes "olr-keep" ∷ codes "-V" ∷ []) ≡ kind.DisplayVersion ∷ [] }
{}

/// Sizes of a log.
pub fn rows_sizes()
    ensures bytes { IsSize (codes "500") 500 }
    ensures kilobytes { IsSize (codes "30K") 30720 }
    ensures megabytes { IsSize (codes "500M") 524288000 }
    ensures gigabytes { IsSize (codes "+1G") 1073741824 }
    ensures most { IsSize (codes "18446744073709551615") 18446744073709551615 }
    ensures nothing { NoSize [] }
    ensures none { NoSize (codes "0K") }
    ensures letter { NoSize (codes "M") }
    ensures other { NoSize (codes "5T") }
    ensures small { NoSize (codes "5k") }
    ensures two { NoSize (codes "5KK") }
    ensures much { NoSize (codes "99999999999G") }
{}

/// Records of bytes.
#[tactic(auto, unfolding(csv::proofs::OnLiterals::csv_on_literals))]
pub fn rows_input()
    ensures lines { records_of (text_of_lines (codes "node,1,0,0" ∷ codes "drop-node,2" ∷ codes "node,x,0,0" ∷ []))
        ≡ (codes "node" ∷ codes "1" ∷ codes "0" ∷ codes "0" ∷ []) ∷ (codes "drop-node" ∷ codes "2" ∷ [])
        ∷ (codes "node" ∷ codes "x" ∷ codes "0" ∷ codes "0" ∷ []) ∷ [] }
    ensures quoted { records_of (codes "\"node\",1,0,0") ≡ (codes "node" ∷ codes "1" ∷ codes "0" ∷ codes "0" ∷ [])
        ∷ [] }
    ensures nothing { records_of [] ≡ [] }
    ensures empty_lines { records_of (10 ∷ codes "report" ++ 13 ∷ 10 ∷ 10 ∷ codes "a,")
        ≡ (codes "report" ∷ []) ∷ (codes "a" ∷ [] ∷ []) ∷ [] }
    ensures mark { records_of (239 ∷ 187 ∷ 191 ∷ codes "report") ≡ (codes "report" ∷ []) ∷ [] }
{}

/// Inputs that are read one record a line, and their records.
#[tactic(auto, unfolding(olr_input::specs::LineRecords::lines_from, olr_input::specs::LineRecords::line_record, csv::specs::Machine::next_record, csv::specs::Reading::strip_bom))]
pub fn rows_of_lines()
    ensures whole { line_records (codes "node,1,0,0\nreport\n")
        ≡ (codes "node" ∷ codes "1" ∷ codes "0" ∷ codes "0" ∷ []) ∷ (codes "report" ∷ []) ∷ [] }
    ensures quoted { line_records (codes "show,\"a\"\n") ≡ (codes "show" ∷ codes "a" ∷ []) ∷ [] }
    ensures open { line_records (codes "drop-line,\"5\nreport\n") ≡ formless ∷ (codes "report" ∷ []) ∷ [] }
    ensures last { line_records (codes "report\nshow,\"a") ≡ (codes "report" ∷ []) ∷ formless ∷ [] }
    ensures returns { line_records (codes "\"a\r\nreport") ≡ formless ∷ (codes "report" ∷ []) ∷ [] }
    ensures mid { line_records (codes "a\"b,\"c\"d\n\n\rreport") ≡ (codes "a\"b" ∷ codes "cd" ∷ []) ∷ (codes "report" ∷ []) ∷ [] }
{}

/// Whole runs.
#[tactic(auto, unfolding(csv::proofs::OnLiterals::csv_on_literals))]
pub fn rows_runs()
    ensures all { Ran Outcomes false start_state (records_of input20) with_node output20 status.SomeRefused }
    ensures stopped { Ran Outcomes true start_state (records_of input20) with_node
        (text_of_lines (codes "ok,0" ∷ codes "fault,3,NodeExists" ∷ [])) status.Stopped }
    ensures margin { Ran Outcomes false start_state (records_of (text_of_lines (codes "margin,50,1" ∷ codes "show-margin" ∷ [])))
        with_fifty (text_of_lines (codes "ok,0" ∷ codes "ok,1" ∷ codes "margin,50,1" ∷ [])) status.AllAccepted }
    ensures cut { Faulted Outcomes false start_state (records_of input20) with_node (codes "ok,0" ++ 10 ∷ codes "fau")
        fault.Write }
    ensures cut_at_once { Faulted Outcomes false start_state (records_of input20) start_state [] fault.Read }
    ensures nothing { Ran Outcomes false start_state (records_of []) start_state [] status.AllAccepted }
{}
