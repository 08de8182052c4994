ghost use Rattle.std.specs.Prelude.{◌≡◌, ℕ, List, Some, IfOk, MatchResult};
ghost use Rattle.line_text.specs.declared.faults.TextFault.{TextFault};
ghost use Rattle.edge_text.specs.EdgeText.{IsEdgeText, IsRefused};
ghost use Rattle.edge_text.specs.Edges.{HaveIds, PlainEdges, plain_edges};
ghost use Rattle.edge_text.specs.Reading.{Reading};
ghost use Rattle.line_text.specs.Readings.{IsExcuse, IsRefusal};
ghost use Rattle.shared_io.specs.Counts.{Rose};

use crate::drafts::EdgeDraft;
use crate::edges::EdgeList;
use line_text::{TextFault as EdgeFault, read_text};
use shared_io::Source;
use std::alloc::Global;

/// Reads the text of an edge list to the end of the input, and answers its edges in their order.
///
/// A line is blank, or a comment, which begins with `#`, or an edge: two ids, parted by blanks. A blank
/// is a space, a tab or CR. The last line may lack its LF. If the first line is `%pgas 2 directed` or
/// `%pgas 2 both`, an edge may have a weight behind its ids, else 1, and in the latter each edge leads
/// both ways. Numbers are decimal digits, leading zeros allowed.
///
/// `BadLine` stands at the first byte with which no line goes on, or at the end that comes too early.
/// `TooLarge` stands at the digit that makes an id exceed 2^24 - 1 or a weight 2^32 - 1, at the end of
/// edge number 2^25 + 1, and at byte number 2^30 + 1. The first in the input is answered, and nothing is
/// asked for behind it; what came in the same piece is lost.
pub fn read_edges<S: Source>(alloc: Global, source: &mut S) -> Result<EdgeList, EdgeFault>
    // What the answer says of the bytes that were read.
    ensures reading { Reading (S.left source.old) (S.left source.new) (S.faults source.old) (S.faults source.new) result }
    ensures ids { IfOk result (λ list. HaveIds list.edges.items) }

    // Where the source tells its bytes, the answer is that of the whole input.
    ensures accepted { (input : List ℕ) (list : PlainEdges) → S.left source.old ≡ Some input → IsEdgeText input list
        → MatchResult result (λ answer. plain_edges answer ≡ list) (IsExcuse (Rose (S.faults source.old) (S.faults source.new))) }
    ensures refused { (input : List ℕ) (refusal : TextFault) → S.left source.old ≡ Some input → IsRefused input (Unit {0}) refusal
        → MatchResult result (λ _. ⊥) (IsRefusal refusal (Rose (S.faults source.old) (S.faults source.new))) }
{
    let mut draft = EdgeDraft::new(alloc);
    read_text(alloc, source, &mut draft)?;
    Ok(draft.finish())
}
