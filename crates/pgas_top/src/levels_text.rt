ghost use Rattle.std.specs.Prelude.{◌≡◌, ℕ, ◌<◌, ◌^◌, ◌++◌, length, IfOk, OnOk, decimal};
ghost use Rattle.pgas_top.specs.LevelsText.{levels_text, reached_from, line, summary};

use itoa::Buffer;
use levels_engine::NOT_REACHED;
use std::alloc::{AllocError, Global};

/// The text of the levels: a line `VERTEX LEVEL` for each vertex that was reached, and then the line
/// `# reached COUNT depth GREATEST`.
pub fn write_levels(alloc: Global, levels: &[u32]) -> Result<Vec<u8>, AllocError>
    ensures { IfOk result (λ text. text.items ≡ levels_text (reached_from 0 levels.now)) }
{
    let mut text = Vec::new(alloc);
    let mut reached = 0;
    let mut depth = 0;
    for (vertex, &level) in levels.iter().enumerate() {
        if level != NOT_REACHED {
            push_line(&mut text, vertex, level)?;
            reached += 1;
            depth = depth.max(level);
        }
    }
    push_summary(&mut text, reached, depth)?;
    Ok(text)
}

fn push_line(text: &mut Vec<u8>, vertex: usize, level: u32) -> Result<(), AllocError>
    ensures { OnOk result (text.new.items ≡ text.old.items ++ line (record { vertex = vertex; level = level })) }
{
    text.extend_from_slice(Buffer::new().format(vertex).as_bytes())?;
    text.push(b' ')?;
    text.extend_from_slice(Buffer::new().format(level).as_bytes())?;
    text.push(b'\n')?;
    Ok(())
}

fn push_summary(text: &mut Vec<u8>, reached: usize, depth: u32) -> Result<(), AllocError>
    ensures { OnOk result (text.new.items ≡ text.old.items ++ summary reached depth) }
{
    text.extend_from_slice(b"# reached ")?;
    text.extend_from_slice(Buffer::new().format(reached).as_bytes())?;
    text.extend_from_slice(b" depth ")?;
    text.extend_from_slice(Buffer::new().format(depth).as_bytes())?;
    text.push(b'\n')?;
    Ok(())
}
