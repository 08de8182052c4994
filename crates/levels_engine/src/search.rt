ghost use Rattle.std.specs.Prelude.{◌≡◌, ◌≢◌, ℕ, ◌<◌, ◌≤◌, All, IfOk, OnOk, length, vec_len};
ghost use Rattle.graph_store.specs.Rows.{HasTarget};
ghost use Rattle.levels_engine.specs.Levels.{IsLevelNumber};
ghost use Rattle.levels_engine.specs.Marks.{IsMarked, IsNextTo, MarksMore, level_of};

use crate::marks::Marks;
use crate::plain_levels::NOT_REACHED;
use graph_store::Rows;
use std::alloc::{AllocError, Global};

// Gives the level to each vertex without one that an edge leads to from the frontier, which is this
// part of the queue.
fn expand(
    rows: &Rows,
    marks: &mut Marks,
    begin: usize,
    end: usize,
    level: u32,
) -> Result<(), AllocError>
    requires vertices { length marks.old.levels ≡ length rows.now }
    requires targets { (from to : ℕ) → HasTarget rows.now from to → to < length rows.now }
    requires frontier { end ≤ length marks.old.queue }
    requires level { level ≢ NOT_REACHED }
    ensures more { OnOk result (MarksMore level (IsNextTo (HasTarget rows.now) marks.old.queue begin end) marks.old marks.new) }
    ensures all { OnOk result ((vertex : ℕ) → IsNextTo (HasTarget rows.now) marks.old.queue begin end vertex → IsMarked marks.new.levels vertex) }
{
    for place in begin..end {
        let vertex = marks.vertex_at(place);
        marks.mark_all(rows.row(vertex as usize), level)?;
    }
    Ok(())
}

/// The level of each vertex, by a breadth-first search: one frontier after another, each the
/// vertices of one level, and the first the sources.
pub fn search(alloc: Global, rows: &Rows, sources: &[u32]) -> Result<Vec<u32>, AllocError>
    requires vertices { length rows.now < NOT_REACHED }
    requires targets { (from to : ℕ) → HasTarget rows.now from to → to < length rows.now }
    requires sources { All (λ source. source < length rows.now) sources.now }
    ensures vertices { IfOk result (λ levels. vec_len levels ≡ length rows.now) }
    ensures levels { IfOk result (λ levels. (vertex : ℕ) → IsLevelNumber (HasTarget rows.now) sources.now vertex (level_of levels.items vertex)) }
{
    let mut marks = Marks::new(alloc, rows.count() as u32)?;
    marks.mark_all(sources, 0)?;
    let mut begin = 0;
    let mut level = 0;
    while begin < marks.count() {
        let end = marks.count();
        level += 1;
        marks.sort_from(begin);
        expand(rows, &mut marks, begin, end, level)?;
        begin = end;
    }
    Ok(marks.into_levels())
}
