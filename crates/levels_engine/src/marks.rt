ghost use Rattle.std.specs.Prelude.{◌≡◌, ◌≢◌, ℕ, ◌<◌, ◌≤◌, [], All, Contains, IfOk, OnOk, drop, length, replicate, slice_index, take};
ghost use Rattle.std.specs.List.Sorted.{IsPermutation};
ghost use Rattle.levels_engine.specs.Marks.{IsMarked, MarksMore, Reorders, marked};

use crate::plain_levels::NOT_REACHED;
use std::alloc::{AllocError, Global};
use std::marker::Model;

/// The levels that a search has found, and the vertices that have one, in the order in which they
/// got it.
#[derive(Drop)]
pub struct Marks {
    levels: Vec<u32>,
    queue: Vec<u32>,
}

impl Model for Marks {
    ghost use Rattle.levels_engine.specs.Marks.{IsMarking, Marking};

    ghost Value = { Marking };

    ghost view = { λ marks. record { levels = marks.levels.items; queue = marks.queue.items } };

    ghost invariant = { λ marks. IsMarking marks.levels.items marks.queue.items };
}

// Puts the numbers from the place on in rising order.
fn sort_tail(numbers: &mut [u32], begin: usize)
    requires { begin ≤ length numbers.old }
    ensures front { take begin numbers.new ≡ take begin numbers.old }
    ensures rest { IsPermutation (drop begin numbers.old) (drop begin numbers.new) }
{
    numbers[begin..].sort_unstable();
}

impl Marks {
    /// No vertex has a level yet.
    pub fn new(alloc: Global, vertices: u32) -> Result<Marks, AllocError>
        ensures levels { IfOk result (λ marks. marks.levels ≡ replicate vertices NOT_REACHED) }
        ensures queue { IfOk result (λ marks. marks.queue ≡ []) }
    {
        let levels = vec![in alloc; NOT_REACHED; vertices as usize]?;
        let queue = Vec::with_capacity(alloc, vertices as usize)?;
        Ok(Marks { levels, queue })
    }

    /// How many vertices have a level.
    pub fn count(&self) -> usize
        ensures count { result ≡ length self.now.queue }
        ensures within { result ≤ length self.now.levels }
    {
        self.queue.len()
    }

    /// The vertex that got its level after so many others.
    pub fn vertex_at(&self, place: usize) -> u32
        requires { place < length self.now.queue }
        ensures vertex { result ≡ slice_index self.now.queue place }
        ensures within { result < length self.now.levels }
    {
        self.queue[place]
    }

    /// Gives the vertex the level, if it has none.
    pub fn mark(&mut self, vertex: u32, level: u32) -> Result<(), AllocError>
        requires vertex { vertex < length self.old.levels }
        requires level { level ≢ NOT_REACHED }
        ensures ok { OnOk result (self.new ≡ marked self.old vertex level) }
    {
        if self.levels[vertex as usize] == NOT_REACHED {
            self.queue.push(vertex)?;
            self.levels[vertex as usize] = level;
        }
        Ok(())
    }

    /// Puts the vertices from the place on in rising order, so that their rows are then read in the
    /// order of memory.
    pub fn sort_from(&mut self, begin: usize)
        requires { begin ≤ length self.old.queue }
        ensures { Reorders begin self.old self.new }
    {
        sort_tail(&mut self.queue, begin);
    }

    /// Gives the level to each of the vertices that has none.
    pub fn mark_all(&mut self, vertices: &[u32], level: u32) -> Result<(), AllocError>
        requires vertices { All (λ vertex. vertex < length self.old.levels) vertices.now }
        requires level { level ≢ NOT_REACHED }
        ensures more { OnOk result (MarksMore level (Contains vertices.now) self.old self.new) }
        ensures all { OnOk result (All (IsMarked self.new.levels) vertices.now) }
    {
        for &vertex in vertices {
            self.mark(vertex, level)?;
        }
        Ok(())
    }

    /// The level of each vertex.
    pub fn into_levels(self) -> Vec<u32>
        ensures levels { result.items ≡ self.levels }
        ensures queued { (vertex : ℕ) → IsMarked self.levels vertex → Contains self.queue vertex }
    {
        let Marks { levels, queue: _ } = self;
        levels
    }
}
