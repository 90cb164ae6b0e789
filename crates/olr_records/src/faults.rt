//! Why a record decodes to no command, and the texts of faults.
ghost use Rattle.std.specs.Prelude.{◌≡◌};
ghost use Rattle.olr_commands.specs.Words.{command_fault_of};
ghost use Rattle.olr_records.specs.ReplyText as texts;
ghost use Rattle.olr_records.specs.Words.{read_fault_of};

use olr_binary::{TextFault, V3Fault};
use olr_commands::CommandFault;
use olr_model::EditFault;
use thiserror::Error;

/// Why a record decodes to no command.
#[derive(Clone, Copy, Debug, PartialEq, Eq, Error)]
pub enum ReadFault {
    /// It has the form of no command.
    #[error("Syntax")]
    Syntax,
    /// It has the form of a command, with a value out of range.
    #[error("Range")]
    Range,
    /// Out of memory while reading it.
    #[error("Memory")]
    Memory,
}

/// The line of out of memory, which has one number wherever it was reported.
const MEMORY: &str = "fault,13,Memory\n";

/// The line of a rejected command. It takes no memory, so that out of memory can be reported too.
#[tactic(auto, unfolding(crate::proofs::OnLiterals::on_literals))]
pub fn fault_text(fault: CommandFault) -> &'static str
    ensures { result.now ≡ texts.fault_text (command_fault_of fault) }
{
    match fault {
        CommandFault::Map(EditFault::NodeExists) => "fault,3,NodeExists\n",
        CommandFault::Map(EditFault::NoNode) => "fault,4,NoNode\n",
        CommandFault::Map(EditFault::LineExists) => "fault,5,LineExists\n",
        CommandFault::Map(EditFault::NoLine) => "fault,6,NoLine\n",
        CommandFault::Map(EditFault::NodeInUse) => "fault,7,NodeInUse\n",
        CommandFault::Map(EditFault::BadShape) => "fault,8,BadShape\n",
        CommandFault::PathExists => "fault,9,PathExists\n",
        CommandFault::NoPath => "fault,10,NoPath\n",
        CommandFault::BadPath => "fault,11,BadPath\n",
        CommandFault::NotAReference(TextFault::Bytes(V3Fault::Length)) => {
            "fault,12,NotAReference,1\n"
        }
        CommandFault::NotAReference(TextFault::Bytes(V3Fault::Status)) => {
            "fault,12,NotAReference,2\n"
        }
        CommandFault::NotAReference(TextFault::Bytes(V3Fault::Flags)) => {
            "fault,12,NotAReference,3\n"
        }
        CommandFault::NotAReference(TextFault::Bytes(V3Fault::Reserved)) => {
            "fault,12,NotAReference,4\n"
        }
        CommandFault::NotAReference(TextFault::NotBase64) => "fault,12,NotAReference,6\n",
        CommandFault::Map(EditFault::Memory)
        | CommandFault::NotAReference(TextFault::Bytes(V3Fault::Memory))
        | CommandFault::Memory => MEMORY,
        CommandFault::BatchOpen => "fault,14,BatchOpen\n",
        CommandFault::NoBatch => "fault,15,NoBatch\n",
        CommandFault::CountDiffers => "fault,16,CountDiffers\n",
        CommandFault::BatchFull => "fault,17,BatchFull\n",
        CommandFault::NotARecord => "fault,18,NotARecord\n",
    }
}

/// The line of a record that decodes to no command. It takes no memory.
#[tactic(auto, unfolding(crate::proofs::OnLiterals::on_literals))]
pub fn read_fault_text(fault: ReadFault) -> &'static str
    ensures { result.now ≡ texts.fault_text (read_fault_of fault) }
{
    match fault {
        ReadFault::Syntax => "fault,1,Syntax\n",
        ReadFault::Range => "fault,2,Range\n",
        ReadFault::Memory => MEMORY,
    }
}
