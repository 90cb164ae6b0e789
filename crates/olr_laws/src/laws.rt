//! The laws: what follows from the definitions, for all maps, paths, references, bytes, commands, records and logs.
ghost use Rattle.olr_spec.specs.Laws;
ghost use Rattle.olr_spec.specs.Margins.{Margin};
ghost use Rattle.olr_coords.specs.Laws.{TextsRead, ReadHaveText};
ghost use Rattle.olr_binary.specs.Text.{OneReference, OneText};
ghost use Rattle.olr_commands.specs.History;
ghost use Rattle.olr_commands.specs.Dump;
ghost use Rattle.olr_laws.specs.ReceiverLaws.{StringLaws, ReceiverLaws};
ghost use Rattle.olr_laws.specs.CommandLaws.{CommandLaws};
ghost use Rattle.olr_laws.specs.RunLaws.{RecordLaws, RunLaws, LineLaws};
ghost use Rattle.olr_laws.specs.LogLaws.{NextContinues, TwoRuns};

use olr_log::Folder;
use sqlite_disk::Disk;
use std::io::Write;

/// The laws of maps and routes, of answers and their fields with each margin, of footprints, and of what changes and
/// coverage queries say about them.
pub fn laws_of_definitions()
    ensures maps { Laws.MapLaws }
    ensures routes { Laws.RouteLaws }
    ensures margins { (g : Margin) → Laws.MarginLaws g }
    ensures answers { (g : Margin) → Laws.AnswerLaws g }
    ensures fields { Laws.FieldLaws }
    ensures locality { (g : Margin) → Laws.LocalityLaws g }
    ensures changes { Laws.ChangeLaws }
    ensures queries { (g : Margin) → Laws.QueryLaws g }
{}

/// The laws of strings, with each margin, and of receivers of both kinds.
pub fn laws_of_receivers()
    ensures strings { (g : Margin) → StringLaws g }
    ensures receivers { ReceiverLaws }
{}

/// A coordinate that is written is read as the same number of units, and a coordinate that is read can be written. Each
/// reference encodes as one text, and no text decodes to two references: so `from_text` decodes what `to_text` returns to
/// the same reference, and `to_text` encodes what `from_text` returns as the same text.
pub fn laws_of_texts()
    ensures read { TextsRead }
    ensures written { ReadHaveText }
    ensures one_text { OneText }
    ensures one_reference { OneReference }
{}

/// The laws of states, replies and counts, the claims about whole runs of commands, and the laws of contents that are
/// written as changes.
#[tactic(auto, using(crate::proofs::CommandLemmas::headline_of_histories, olr_commands::proofs::HistoryLemmas::routes_of, olr_commands::proofs::HistoryLemmas::names_changed, crate::proofs::CommandLemmas::no_differences, olr_commands::proofs::HistoryLemmas::is_dumped, olr_commands::proofs::DumpLemmas::dumps_run, crate::proofs::CommandLemmas::dumps_again))]
pub fn laws_of_commands()
    ensures commands { CommandLaws }
    ensures headline { History.HeadlineOfHistories }
    ensures joined { History.RoutesOfReferences }
    ensures named { History.RepliesName }
    ensures no_differences { History.NoDifferences }
    ensures refused { History.RefusedChangeNothing }
    ensures dumped { History.DumpsBuild }
    ensures lead { Dump.DumpsLead }
    ensures run { Dump.DumpsRun }
    ensures again { Dump.DumpsAgain }
{}

/// The laws of records, of whole runs, and of inputs that are read one record a line.
pub fn laws_of_runs()
    ensures records { RecordLaws }
    ensures runs { RunLaws }
    ensures lines { LineLaws }
{}

/// A run that is cut off and the next one, from what is left of its log, are one run: over the records of its first outcomes,
/// `abort` if a batch was open after them, and the records of the next run.
pub fn laws_of_logs<D: Disk + Drop, G: Folder<D>, W: Write + Drop>()
    ensures next { NextContinues }
    ensures two { TwoRuns D.Disk G.Folder W.contents }
{}
