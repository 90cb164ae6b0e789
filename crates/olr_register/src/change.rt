//! Changes of the map, of the paths and of the margin, as commands give them.
ghost use Rattle.std.specs.Prelude.{◌≡◌, IsTrue, IsFalse, OnOk, not, Ok};
ghost use Rattle.std.specs.Result.{IfErr, IfOk};
ghost use Rattle.olr_commands.specs.State.{Content, Bad_path, Memory, when};
ghost use Rattle.olr_commands.specs.Words.{command_fault_of};
ghost use Rattle.olr_spec.specs.Extension.{is_path};
ghost use Rattle.olr_register.specs.BatchChanges.{path_by, MayReport};

use olr_commands::CommandFault;
use olr_map::{Edit, LineId};
use olr_refs::{Margin, Path, PathFault};
use std::alloc::Global;

/// The lines of a path and its positive and negative offset in decimetres, not tested yet.
#[derive(Drop)]
pub(crate) struct PathParts {
    pub lines: Vec<LineId>,
    pub pos: u32,
    pub neg: u32,
}

/// A change, which is made at once or held in a batch.
#[derive(Drop)]
pub(crate) enum Change {
    /// An edit of the map.
    Edit(Edit),
    /// A new path under an unused name.
    AddPath(String, PathParts),
    /// Another path for a name.
    SetPath(String, PathParts),
    /// The removal of a path.
    DropPath(String),
    /// Another margin.
    SetMargin(Margin),
}

/// The path of these parts, unless its name is wrong: then that fault takes precedence.
pub(crate) fn path_unless(
    alloc: Global,
    wrong: bool,
    fault: CommandFault,
    parts: PathParts,
) -> Result<Path, CommandFault>
    ensures ok { IfOk result (λ p. p ≡ path_by parts) }
    ensures good { OnOk result (IsTrue (is_path parts.lines.items)) }
    ensures right { OnOk result (IsFalse wrong) }
    ensures fault { IfErr result (λ f. (d : Content) → MayReport (when wrong (command_fault_of fault)
        (when (not (is_path parts.lines.items)) Bad_path (Ok d))) (command_fault_of f)) }
    ensures lacks { OnOk result ((d : Content) → MayReport (when wrong (command_fault_of fault)
        (when (not (is_path parts.lines.items)) Bad_path (Ok d))) Memory) }
{
    if wrong {
        return Err(fault);
    }
    match Path::new(alloc, parts.lines, parts.pos, parts.neg) {
        Ok(path) => Ok(path),
        Err(PathFault::BadPath) => Err(CommandFault::BadPath),
        Err(PathFault::Memory) => Err(CommandFault::Memory),
    }
}
