//! The coverage queries of a list.
ghost use Rattle.std.specs.Prelude.{Contains, IfOk, OnOk};
ghost use Rattle.olr_spec.specs.Queries.{CoverageQuery as QueryRecord};
ghost use Rattle.olr_paths.specs.Items.{items, results_of_named};
ghost use Rattle.olr_paths.specs.Origins.{BeginsIn, Begins, BeginsPut};
ghost use Rattle.olr_paths.specs.Stored.{puts_of};

use crate::path_list::{NamedPath, PathList};
use olr_answers::CoverageQuery;
use std::alloc::{AllocError, Global};

/// Appends the coverage queries of a path.
fn push_queries(named: &NamedPath, queries: &mut Vec<CoverageQuery>) -> Result<(), AllocError>
    ensures before { OnOk result ((l : QueryRecord) → Contains queries.old.items l → Contains queries.new.items l) }
    ensures named { OnOk result ((l : QueryRecord) → BeginsIn (results_of_named named.now) l
        → Contains queries.new.items l) }
{
    let Some(published) = named.published() else {
        return Ok(());
    };
    queries.extend_from_slice(&published.queries)?;
    Ok(())
}

/// The coverage queries of the paths that were encoded again.
pub fn fresh_queries(
    alloc: Global,
    fresh: &[(usize, NamedPath)],
) -> Result<Vec<CoverageQuery>, AllocError>
    ensures { IfOk result (λ ls. (l : QueryRecord) → BeginsPut (puts_of fresh.now) l → Contains ls.items l) }
{
    let mut queries = Vec::new(alloc);
    for (_, named) in fresh {
        push_queries(named, &mut queries)?;
    }
    Ok(queries)
}

impl PathList {
    /// The coverage queries of all paths.
    pub fn queries(&self, alloc: Global) -> Result<Vec<CoverageQuery>, AllocError>
        ensures { IfOk result (λ ls. (l : QueryRecord) → Begins (items self.now) l → Contains ls.items l) }
    {
        let mut queries = Vec::new(alloc);
        for (_, named) in &self.paths {
            push_queries(named, &mut queries)?;
        }
        Ok(queries)
    }
}
