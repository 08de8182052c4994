//! The text of a made edge list, written while its edges are drawn.
ghost use Rattle.std.specs.Prelude.{◌≡◌, ℕ, List, ◌≤◌, ◌<◌, ◌^◌, ◌++◌, length, take, OnOk, MatchResult, Err};
ghost use Rattle.std.specs.Io.KnownBytes.{Appends};
ghost use Rattle.edge_text.specs.Written.{edges_text};
ghost use Rattle.levels_engine.specs.Draws.{made_list};
ghost use Rattle.shared_io.specs.Counts.{Rose};

use arrayvec::ArrayString;
use edge_text::write_edge;
use levels_engine::EdgeDraws;
use shared_io::{Sink, SinkFault, write_whole};

/// The most bytes that are written at once.
const PIECE: usize = 4096;

/// Writes the text of the list that the seed has, in pieces of at most `PIECE` bytes. The list is in memory
/// nowhere. After an error the sink has taken a front of the text.
pub fn write_made<K: Sink>(
    sink: &mut K,
    seed: u64,
    vertices: u32,
    edges: u32,
) -> Result<(), SinkFault>
    requires some { 0 < vertices }
    requires few { vertices ≤ 2 ^ 24 }
    ensures whole { OnOk result (Appends (K.taken sink.old) (K.taken sink.new) (edges_text (made_list seed vertices edges).edges)) }
    ensures front { (front : List ℕ) × (rest : List ℕ) × Appends (K.taken sink.old) (K.taken sink.new) front × (edges_text (made_list seed vertices edges).edges ≡ front ++ rest) }
    ensures faults { K.faults sink.old ≤ K.faults sink.new }
    ensures refusals { K.refusals sink.old ≤ K.refusals sink.new }
    ensures kept { OnOk result ((K.faults sink.new ≡ K.faults sink.old) × (K.refusals sink.new ≡ K.refusals sink.old)) }
    ensures failed { result ≡ Err SinkFault.Failed → Rose (K.faults sink.old) (K.faults sink.new) }
    ensures memory { result ≡ Err SinkFault.Memory → Rose (K.refusals sink.old) (K.refusals sink.new) }
{
    let mut draws = EdgeDraws::new(seed, vertices);
    let mut piece = ArrayString::new();
    for _drawn in 0..edges {
        let line = write_edge(draws.next_edge());
        add_line(sink, &mut piece, line.as_str())?;
    }
    write_whole(sink, piece.as_bytes())
}

/// Adds a line to the piece, which is written first where the line has no room in it.
fn add_line<K: Sink>(
    sink: &mut K,
    piece: &mut ArrayString<PIECE>,
    line: &str,
) -> Result<(), SinkFault>
    requires { length line.now ≤ 20 }
    ensures parts { (written : List ℕ) × Appends (K.taken sink.old) (K.taken sink.new) written × MatchResult result
        (λ _. written ++ piece.new.bytes ≡ piece.old.bytes ++ line.now)
        (λ _. (rest : List ℕ) × (piece.old.bytes ≡ written ++ rest)) }
    ensures faults { K.faults sink.old ≤ K.faults sink.new }
    ensures refusals { K.refusals sink.old ≤ K.refusals sink.new }
    ensures kept { OnOk result ((K.faults sink.new ≡ K.faults sink.old) × (K.refusals sink.new ≡ K.refusals sink.old)) }
    ensures failed { result ≡ Err SinkFault.Failed → Rose (K.faults sink.old) (K.faults sink.new) }
    ensures memory { result ≡ Err SinkFault.Memory → Rose (K.refusals sink.old) (K.refusals sink.new) }
{
    if piece.len() + line.len() > PIECE {
        write_whole(sink, piece.as_bytes())?;
        piece.clear();
    }
    piece.push_str(line);
    Ok(())
}
