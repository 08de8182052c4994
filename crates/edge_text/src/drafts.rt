ghost use Rattle.std.specs.Prelude.{◌≡◌, ◌^◌, true, false, OnOk};
ghost use Rattle.edge_text.specs.EdgeText.{edge_rules, opening, version_after, is_edge, plain_drawn};
ghost use Rattle.edge_text.specs.Edges.{HaveIds, plain_edges};
ghost use Rattle.edge_text.specs.Forms.{IsSpot, edge_grammar};
ghost use Rattle.line_text.specs.Lines.{IsSaid};

use crate::edges::{Edge, EdgeList};
use crate::forms::{EdgeLine, Spot};
use line_text::Draft;
use shared_io::TooKind;
use std::alloc::{AllocError, Global};
use std::marker::Model;

/// The most edges of a text.
const MOST_EDGES: u64 = 1 << 25;

/// What the first line of a text says of it.
#[derive(Clone, Copy, Debug, PartialEq, Eq)]
pub enum Version {
    /// No line has ended.
    Open,
    /// The first line was no head line.
    One,
    Two { both: bool },
}

/// What the lines so far have made of an edge list.
#[derive(Debug, Drop)]
pub struct EdgeDraft {
    edges: Vec<Edge>,
    version: Version,
}

impl Model for EdgeDraft {
    ghost use Rattle.edge_text.specs.Drawn.{Drawn};
    ghost use Rattle.edge_text.specs.Edges.{HaveIds};

    ghost Value = { Drawn };

    ghost view = { λ d. record { edges = d.edges.items; version = d.version } };

    ghost invariant = { λ d. HaveIds d.edges.items };
}

impl EdgeDraft {
    pub fn new(alloc: Global) -> Self
        ensures { result ≡ opening }
    {
        EdgeDraft {
            edges: Vec::new(alloc),
            version: Version::Open,
        }
    }

    /// The list that the lines have made.
    pub fn finish(self) -> EdgeList
        ensures list { plain_edges result ≡ plain_drawn self }
        ensures ids { HaveIds result.edges.items }
    {
        let EdgeDraft { edges, version } = self;
        let both = matches!(version, Version::Two { both: true });
        EdgeList { edges, both }
    }
}

impl Draft<EdgeLine, Spot> for EdgeDraft {
    type Progress = EdgeDraft;

    ghost rules = { edge_rules };

    ghost progress = { λ d. d };

    fn start(&self) -> Spot {
        match self.version {
            Version::Open => Spot::First,
            Version::One => Spot::From { weighted: false },
            Version::Two { .. } => Spot::From { weighted: true },
        }
    }

    fn counts(&self, said: Option<EdgeLine>) -> bool
        ensures { result ≡ is_edge said }
    {
        matches!(said, Some(EdgeLine::Edge { .. }))
    }

    fn most(&self) -> u64 {
        MOST_EDGES
    }

    fn kind(&self) -> TooKind {
        TooKind::Edges
    }

    fn ends(&self, _said: Option<EdgeLine>) -> bool
        ensures { result ≡ false }
    {
        false
    }

    fn may_be_last(&self, _said: Option<EdgeLine>) -> bool
        ensures { result ≡ true }
    {
        true
    }

    fn take(&mut self, said: Option<EdgeLine>) -> Result<(), AllocError>
        requires { IsSaid edge_grammar IsSpot said }
        ensures { OnOk result (self.new ≡ edge_rules.after self.old said) }
    {
        if let Some(EdgeLine::Edge { edge }) = said {
            self.edges.push(edge)?;
        }
        self.version = version_after(self.version, said);
        Ok(())
    }
}

/// What is known of the text behind a line.
fn version_after(version: Version, said: Option<EdgeLine>) -> Version
    ensures { result ≡ version_after version said }
{
    match (version, said) {
        (_, Some(EdgeLine::Head { both })) => Version::Two { both },
        (Version::Open, _) => Version::One,
        _ => version,
    }
}
