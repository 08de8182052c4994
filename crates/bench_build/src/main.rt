//! The program `bench_build`: times the making of a graph of an edge list that has been drawn.
//!
//! On standard output it says how many rows and targets the graph has, and on standard error how many microseconds `build` took.
//! Drawing isn't timed.
#![tactic(auto)]

mod orders;

use anyhow::Result;
use graph_store::build;
use levels_engine::make_edges;
use orders::Order;
use std::env;
use std::time::Instant;

const USAGE: &str = "bench_build SEED VERTICES EDGES";

fn main(rt: HostRuntime) -> Result<()> {
    let words: Vec<String> = env::args(&rt)?.skip(1).collect(rt.alloc())?;
    let Some(order) = Order::from_words(words.as_slice()) else {
        println!(rt; "{USAGE}")?;
        return Ok(());
    };
    let list = make_edges(rt.alloc(), order.seed, order.vertices, order.edges)?;
    let begin = Instant::now(&rt)?;
    let graph = build(&rt, rt.alloc(), &list, &[], false)?;
    let micros = begin.elapsed(&rt)?.as_micros();
    eprintln!(rt; "{micros} us")?;
    let rows = graph.vertices();
    let mut targets: usize = 0;
    for vertex in 0..rows {
        targets = targets.saturating_add(graph.row(vertex).len());
    }
    println!(rt; "{rows} rows, {targets} targets")?;
    Ok(())
}
