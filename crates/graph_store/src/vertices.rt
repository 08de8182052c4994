ghost use Rattle.std.specs.Prelude.{◌≡◌, ◌<◌, ◌≤◌, ◌^◌, [], All};
ghost use Rattle.edge_text.specs.Edges.{HaveIds};
ghost use Rattle.graph_store.specs.Vertices.{vertex_count};

use edge_text::Edge;

/// One more than the greatest of all ids and the sources, or 0 where there are none.
pub fn count_vertices(edges: &[Edge], sources: &[u32]) -> u32
    requires ids { HaveIds edges.now }
    requires sources { All (λ source. source < 2 ^ 24) sources.now }
    ensures count { result ≡ vertex_count edges.now sources.now }
    ensures within { result ≤ 2 ^ 24 }
{
    let mut vertices = count_of_sources(sources);
    for edge in edges {
        vertices = vertices.max(edge.from.max(edge.to) + 1);
    }
    vertices
}

fn count_of_sources(sources: &[u32]) -> u32
    requires { All (λ source. source < 2 ^ 24) sources.now }
    ensures count { result ≡ vertex_count [] sources.now }
    ensures within { result ≤ 2 ^ 24 }
{
    let mut vertices = 0;
    for source in sources {
        vertices = vertices.max(*source + 1);
    }
    vertices
}
