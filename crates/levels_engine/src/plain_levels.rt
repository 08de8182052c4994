ghost use Rattle.std.specs.Prelude.{◌≡◌, ℕ, ◌<◌, ◌^◌, All, IfOk, vec_len, slice_get, MatchOption};
ghost use Rattle.edge_text.specs.Edges.{HasEdge, HaveIds, plain_edges};
ghost use Rattle.graph_store.specs.Vertices.{vertex_count};
ghost use Rattle.levels_engine.specs.Levels.{HasNoLevel, IsLevelNumber};

use crate::search::search;
use edge_text::EdgeList;
use graph_store::counted_rows;
use std::alloc::{AllocError, Global};

/// Stands in place of a level where no walk reaches the vertex.
pub const NOT_REACHED: u32 = u32::MAX;

/// The level of each vertex from 0 to the greatest id, the sources' among them, or `NOT_REACHED`. The
/// sources have level 0; repeats are allowed. Each edge is gone along in its direction, and in a list
/// whose edges lead both ways also backwards. The list is only lent. An error is want of memory, of which
/// it takes 4 bytes for each pair and 12 for each vertex.
pub fn plain(alloc: Global, edges: &EdgeList, sources: &[u32]) -> Result<Vec<u32>, AllocError>
    requires ids { HaveIds edges.now.edges.items }
    requires sources { All (λ source. source < 2 ^ 24) sources.now }
    ensures vertices { IfOk result (λ levels. vec_len levels ≡ vertex_count edges.now.edges.items sources.now) }
    ensures levels { IfOk result (λ levels. (vertex : ℕ) → MatchOption (slice_get levels.items vertex)
        (HasNoLevel (HasEdge (plain_edges edges.now)) sources.now vertex)
        (IsLevelNumber (HasEdge (plain_edges edges.now)) sources.now vertex)) }
{
    let rows = counted_rows(alloc, edges, sources)?;
    search(alloc, &rows, sources)
}
