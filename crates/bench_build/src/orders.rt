ghost use Rattle.std.specs.Prelude.{◌<◌, ◌≤◌, ◌^◌, IfSome};

/// The words of the program.
#[derive(Clone, Copy)]
pub struct Order {
    pub seed: u64,
    /// From 1 to 2^24.
    pub vertices: u32,
    /// Up to 2^25.
    pub edges: u32,
}

impl Order {
    /// `None` where the words are no order.
    pub fn from_words(words: &[String]) -> Option<Order>
        ensures { IfSome result (λ order. (0 < order.vertices) × (order.vertices ≤ 2 ^ 24)) }
    {
        let [seed, vertices, edges] = words else {
            return None;
        };
        let seed = seed.as_str().parse::<u64>().ok()?;
        let vertices = vertices.as_str().parse::<u32>().ok()?;
        let edges = edges.as_str().parse::<u32>().ok()?;
        if vertices < 1 || vertices > 1 << 24 || edges > 1 << 25 {
            return None;
        }
        Some(Order {
            seed,
            vertices,
            edges,
        })
    }
}
