//! What a path's answer depends on: its traversed nodes, its coverage queries and its footprint.
ghost use Rattle.std.specs.Prelude.{◌≡◌, ◌↔◌, ℕ, Contains, is_some, IsTrue, IsFalse, MatchOption, IsSomeAnd, Err, None, option_map};
ghost use Rattle.std.specs.Result.{IfOk, IfErr};
ghost use Rattle.olr_spec.specs.Footprint.{FootWith};
ghost use Rattle.olr_commands.specs.State.{path_named};
ghost use Rattle.olr_paths.specs.Items.{results_of};

use crate::register::Register;
use olr_commands::CommandFault;
use olr_map::Footprint;
use olr_paths::Published;
use olr_refs::refer_with;
use olr_search::Work;

impl Register {
    ghost use Rattle.olr_register.specs.Registered.{PublishedWhole};

    /// What is published of the path of that name, with the traversed nodes and the coverage queries of its encoding on
    /// the map. None if no path has the name. An open batch is ignored.
    pub fn published_of(&self, name: &str) -> Option<&Published>
        ensures { PublishedWhole self.now.state.content name.now (option_map (λ p. results_of p.now) result) }
    {
        self.paths.published_of(name)
    }

    /// The footprint of the path of that name, computed on each call: a change of the map that touches none of these
    /// nodes and no line of the path leaves its answer unchanged. None if no path has the name. While a batch is open
    /// the map is that of the batch, and the fault is `BatchOpen`; otherwise `Memory` is the only fault.
    pub fn footprint(&self, name: &str) -> Result<Option<Footprint>, CommandFault>
        ensures open { IsTrue (is_some self.now.state.batch) → result ≡ Err CommandFault.BatchOpen }
        ensures memory { IfErr result (λ f. IsFalse (is_some self.now.state.batch) → f ≡ CommandFault.Memory) }
        ensures footprint { IfOk result (λ o. MatchOption (path_named self.now.state.content.paths name.now) (o ≡ None)
            (λ P. IsSomeAnd o (λ f. (v : ℕ) → Contains f v ↔ FootWith self.now.state.content.margin self.now.state.content.map P v))) }
    {
        if self.batch.is_some() {
            return Err(CommandFault::BatchOpen);
        }
        let Some(path) = self.paths.path(name) else {
            return Ok(None);
        };
        let mut work = Work::none();
        let (_, footprint) = refer_with(self.alloc, &self.roads, path, self.margin, &mut work)?;
        Ok(Some(footprint))
    }
}
