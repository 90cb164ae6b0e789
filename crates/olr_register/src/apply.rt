//! Commands, and whole runs of them.
ghost use Rattle.std.specs.Prelude.{map, Some, IfOk, ◌≡◌, is_some, OnOk, OnErr, IsFalse};
ghost use Rattle.olr_commands.specs.State.{State, start_state, IsContent, Make};
ghost use Rattle.olr_commands.specs.Reply.{IsOutcome};
ghost use Rattle.olr_commands.specs.History.{History, Headline};
ghost use Rattle.olr_commands.specs.Words.{command_of, outcome_of};
ghost use Rattle.olr_register.specs.RegisterState.{Represents};

use crate::change::{Change, PathParts};
use crate::register::Register;
use olr_commands::{Command, CommandFault, Reply};
use std::alloc::{AllocError, Global};

impl Register {
    ghost use Rattle.olr_register.specs.BatchChanges.{change_of};
    ghost use Rattle.olr_register.specs.Registered.{Applied, Counted};
    ghost use Rattle.olr_register.specs.Answered.{Answered};
    ghost use Rattle.olr_register.specs.CountChanges.{encodes, NoneFalls};

    /// Holds a change in the open batch, or makes it at once if none is open.
    #[inline(never)]
    fn change(&mut self, change: Change) -> Result<Reply, CommandFault>
        ensures { Answered self.old (Make (change_of change)) result self.new }
    {
        if let Some(batch) = &mut self.batch {
            return batch.hold(self.alloc, &mut self.roads, &self.paths, change);
        }
        match change {
            Change::Edit(edit) => self.edit_now(edit),
            Change::AddPath(name, parts) => self.add_now(name, parts),
            Change::SetPath(name, parts) => self.set_now(&name, parts),
            Change::DropPath(name) => self.drop_now(&name),
            Change::SetMargin(margin) => self.set_margin_now(margin),
        }
    }

    /// The answer to a command. An edit that no batch holds takes no room for the results of the others.
    fn answer_to(&mut self, command: Command) -> Result<Reply, CommandFault>
        ensures { Answered self.old (command_of command) result self.new }
    {
        match command {
            Command::Edit(edit) if self.batch.is_none() => self.edit_now(edit),
            command => self.answer_to_other(command),
        }
    }

    /// The answer to another command, or to an edit in a batch.
    #[inline(never)]
    fn answer_to_other(&mut self, command: Command) -> Result<Reply, CommandFault>
        ensures { Answered self.old (command_of command) result self.new }
    {
        match command {
            Command::Edit(edit) => self.change(Change::Edit(edit)),
            Command::AddPath(name, lines, pos, neg) => {
                self.change(Change::AddPath(name, PathParts { lines, pos, neg }))
            }
            Command::SetPath(name, lines, pos, neg) => {
                self.change(Change::SetPath(name, PathParts { lines, pos, neg }))
            }
            Command::DropPath(name) => self.change(Change::DropPath(name)),
            Command::SetMargin(margin) => self.change(Change::SetMargin(margin)),
            Command::Show(name) => self.show(&name),
            Command::ShowNode(id) => self.show_node(id),
            Command::ShowLine(id) => self.show_line(id),
            Command::ShowMargin => self.show_margin(),
            Command::Depends(nodes) => self.depends(&nodes),
            Command::Report => self.report(),
            Command::Dump => self.dump(),
            Command::Compact => self.compact(),
            Command::Ambiguous(name) => self.ambiguous(name),
            Command::Explain(text) => self.explain(&text),
            Command::Begin => self.begin(),
            Command::Preview => self.preview(),
            Command::Commit(count) => self.commit(count),
            Command::Abort => self.abort(),
        }
    }

    /// Carries out a command. In an open batch, edits and path commands are held. Outside a batch they are accepted at
    /// once, and the reply has the paths that are new or have another answer than before. After a fault, map, paths,
    /// answers, texts, counts and an open batch are unchanged. `Memory` is returned only if no fault takes precedence
    /// over it.
    ///
    /// The count of encodings rises by exactly the number of paths that the command adds, replaces or affects; a margin
    /// that is set affects each. No count falls.
    pub fn apply(&mut self, command: Command) -> Result<Reply, CommandFault>
        ensures outcome { Applied self.old (command_of command) (outcome_of result) self.new }
        ensures counted { OnOk result (Counted self.old (command_of command) self.new) }
        ensures unchanged { OnErr result (self.new ≡ self.old) }
        ensures sound { IsContent self.new.state.content }
        ensures rises { OnOk result (NoneFalls self.old.work self.new.work) }
        ensures same { OnOk result
            (IsFalse (encodes (is_some self.old.state.batch) (command_of command)) → self.new.work ≡ self.old.work) }
    {
        let result = self.answer_to(command);
        // The content is sound, like that of every register.
        self.is_sound();
        result
    }

    /// Does nothing. Its contract says that the content of every register is sound.
    pub fn is_sound(&self)
        ensures { IsContent self.now.state.content }
    {
        // For the proof alone: the content is sound, like that of every register.
        let _encodings = self.work.encodings;
    }
}

/// The register after these commands, one after another from the empty one, and the outcome of each.
pub fn replay(
    alloc: Global,
    commands: Vec<Command>,
) -> Result<(Register, Vec<Result<Reply, CommandFault>>), AllocError>
    ensures history { IfOk result (λ r. (t : State) × Represents r.0.state t
        × History start_state (map command_of commands.items) (map outcome_of r.1.items) t) }
    ensures headline { IfOk result (λ r. (t : State) × Represents r.0.state t
        × Headline IsOutcome (λ c. Some c) start_state (map command_of commands.items) (map outcome_of r.1.items) t) }
{
    let mut register = Register::new(alloc);
    let mut outcomes = Vec::new(alloc);
    for command in commands {
        let outcome = register.apply(command);
        outcomes.push(outcome)?;
    }
    Ok((register, outcomes))
}
