ghost use Rattle.std.specs.Prelude.{◌≡◌};
ghost use Rattle.edge_text.specs.Edges.{HasIds};
ghost use Rattle.edge_text.specs.Written.{edge_line, weighted_line};

use crate::edges::Edge;
use arrayvec::ArrayString;
use itoa::Buffer;

/// The line of an edge without its weight: `from`, a space, `to` and LF, without leading zeros.
pub fn write_edge(edge: Edge) -> ArrayString<20>
    requires { HasIds edge }
    ensures { result.bytes ≡ edge_line edge }
{
    let mut line = ArrayString::new();
    line.push_str(Buffer::new().format(edge.from));
    line.push(' ');
    line.push_str(Buffer::new().format(edge.to));
    line.push('\n');
    line
}

/// The line of an edge with its weight, in a text of version 2: `from`, a space, `to`, a space, the weight and LF, without
/// leading zeros.
pub fn write_weighted(edge: Edge) -> ArrayString<32>
    requires { HasIds edge }
    ensures { result.bytes ≡ weighted_line edge }
{
    let mut line = ArrayString::new();
    line.push_str(Buffer::new().format(edge.from));
    line.push(' ');
    line.push_str(Buffer::new().format(edge.to));
    line.push(' ');
    line.push_str(Buffer::new().format(edge.weight));
    line.push('\n');
    line
}
