//! What holds of the texts that the program writes.
ghost use Rattle.std.specs.Prelude.{ℕ, ◌<◌, ◌≤◌, ◌^◌};
ghost use Rattle.edge_text.specs.EdgeText.{IsEdgeText};
ghost use Rattle.edge_text.specs.Written.{edges_text};
ghost use Rattle.levels_engine.specs.Draws.{made_list};

/// What `make` writes is the text of the list that it made: `plain` reads that list.
#[tactic(auto, using(crate::proofs::MadeReadBack::made_list_read))]
pub fn made_lists_read_back()
    ensures { (seed vertices edges : ℕ) → 0 < vertices → vertices ≤ 2 ^ 24 → edges ≤ 2 ^ 25 → IsEdgeText (edges_text (made_list seed vertices edges).edges) (made_list seed vertices edges) }
{}
