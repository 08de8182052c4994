//! What holds of every input.
ghost use Rattle.std.specs.Prelude.{ℕ, List};
ghost use Rattle.edge_text.specs.declared.edges.Edge.{Edge};
ghost use Rattle.edge_text.specs.Reading.{MeansOne};
ghost use Rattle.edge_text.specs.Edges.{PlainEdges};
ghost use Rattle.edge_text.specs.Written.{ReadBack, WeightedReadBack};

/// An input is the text of one list of edges, or is refused at one place for one cause, and never
/// both. So the answer of the reader to a whole input is a function of it, but for failures and want
/// of memory.
#[tactic(auto, using(crate::proofs::Readings::means_one))]
pub fn inputs_mean_one()
    ensures { (input : List ℕ) → MeansOne input }
{}

/// What `write_edge` writes of edges whose weight is 1, at most as many as a list may have, reads back
/// as these edges.
#[tactic(auto, using(crate::proofs::Written::edges_read_back))]
pub fn written_edges_read_back()
    ensures { (edges : List Edge) → ReadBack edges }
{}

/// A head line, and behind it what `write_weighted` writes of edges, at most as many as a list may have, reads back as the list
/// of these edges with their weights, in the direction of the head line.
#[tactic(auto, using(crate::proofs::WrittenWeights::weighted_read_back))]
pub fn weighted_lists_read_back()
    ensures { (list : PlainEdges) → WeightedReadBack list }
{}
