//! What is published of an encoding.
ghost use Rattle.std.specs.Prelude.{◌≡◌, IfOk};
ghost use Rattle.olr_answers.specs.Answers.{answer_of};
ghost use Rattle.olr_paths.specs.Items.{IsEncodingOf, results_of};
ghost use Rattle.olr_spec.specs.Queries.{AreKnownWith};

use olr_answers::KnownQuery;
use olr_model::MapRead;
use olr_paths::Published;
use olr_refs::{Encoding, Margin, Path, encode_again};
use olr_search::Dijkstra;
use std::alloc::{AllocError, Global};
use std::rc::Rc;

/// Encodes a path, without searches for the coverage queries that are known.
pub(crate) fn encode<M: MapRead>(
    alloc: Global,
    map: &M,
    path: &Path,
    margin: Margin,
    known: &[KnownQuery],
    query: &mut Dijkstra,
) -> Result<Rc<Published>, AllocError>
    requires { AreKnownWith margin (M.map map.now) path.now.lines known.now }
    ensures { IfOk result (λ p. IsEncodingOf margin (M.map map.now) path.now (results_of p.value)) }
{
    let Encoding {
        answer,
        own,
        traversed,
        queries,
        known,
    } = encode_again(alloc, map, path, margin, known, query)?;
    drop(own);
    let published = Published::new(alloc, answer, traversed, queries, known)?;
    Ok(Rc::new(alloc, published)?)
}
