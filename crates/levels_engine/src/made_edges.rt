ghost use Rattle.std.specs.Prelude.{◌≡◌, ◌<◌, ◌≤◌, ◌^◌, IfOk};
ghost use Rattle.edge_text.specs.Edges.{HasIds, HaveIds, plain_edges};
ghost use Rattle.levels_engine.specs.Draws.{drawn_edge, first_state, made_list, next_state};

use edge_text::{Edge, EdgeList};
use std::alloc::{AllocError, Global};
use std::marker::Model;

/// The generator's modulus, which is prime.
const MODULUS: u64 = 2_147_483_647;

/// What a state is multiplied by.
const MULTIPLIER: u64 = 48_271;

/// Draws edges, one after another, by the generator of Park and Miller (1988, with their multiplier of
/// 1993): the same seed gives the same edges everywhere. It takes no memory.
#[derive(Debug, Drop)]
pub struct EdgeDraws {
    vertices: u32,
    state: u32,
}

impl Model for EdgeDraws {
    ghost use Rattle.std.specs.Prelude.{◌<◌, ◌≤◌, ◌^◌};
    ghost use Rattle.levels_engine.specs.Draws.{Drawing};

    ghost Value = { Drawing };

    ghost view = { λ draws. record { vertices = draws.vertices; state = draws.state } };

    ghost invariant = { λ draws. (draws.state < 2147483647) × (0 < draws.vertices) × (draws.vertices ≤ 2 ^ 24) };
}

impl EdgeDraws {
    /// Edges between the vertices below so many.
    pub fn new(seed: u64, vertices: u32) -> Self
        requires some { 0 < vertices }
        requires few { vertices ≤ 2 ^ 24 }
        ensures { result ≡ record { vertices = vertices; state = first_state seed } }
    {
        let state = 1 + (seed % (MODULUS - 1)) as u32;
        EdgeDraws { vertices, state }
    }

    fn draw(&mut self) -> u32
        ensures drawn { result ≡ next_state self.old.state }
        ensures state { self.new ≡ record self.old { state = next_state self.old.state } }
    {
        self.state = (u64::from(self.state) * MULTIPLIER % MODULUS) as u32;
        self.state
    }

    /// The next edge, of weight 1.
    pub fn next_edge(&mut self) -> Edge
        ensures edge { result ≡ drawn_edge self.old.vertices self.old.state }
        ensures ids { HasIds result }
        ensures state { self.new ≡ record self.old { state = next_state (next_state self.old.state) } }
    {
        let from = self.draw() % self.vertices;
        let to = self.draw() % self.vertices;
        Edge {
            from,
            to,
            weight: 1,
        }
    }
}

/// So many edges between the vertices below so many, as the seed has them, which lead one way. An error is
/// want of memory, of which it takes 12 bytes for each edge.
pub fn make_edges(
    alloc: Global,
    seed: u64,
    vertices: u32,
    edges: u32,
) -> Result<EdgeList, AllocError>
    requires some { 0 < vertices }
    requires few { vertices ≤ 2 ^ 24 }
    ensures list { IfOk result (λ list. plain_edges list ≡ made_list seed vertices edges) }
    ensures ids { IfOk result (λ list. HaveIds list.edges.items) }
{
    let mut draws = EdgeDraws::new(seed, vertices);
    let mut list = Vec::with_capacity(alloc, edges as usize)?;
    for _drawn in 0..edges {
        list.push(draws.next_edge())?;
    }
    Ok(EdgeList {
        edges: list,
        both: false,
    })
}
