ghost use Rattle.std.specs.Prelude.{◌<◌, ◌≤◌};
ghost use Rattle.std.specs.Vec.{vec_capacity};
ghost use Rattle.lop_model.specs.declared.weights.TheConstants.{MAX_OBJECTS};
ghost use Rattle.lop_mobius.specs.declared.graph.TheConstants.{EDGES};

use crate::cells::{NONE, read, write};
use lop_cuts::Point;
use lop_model::Pair;
use std::alloc::{AllocError, Global};

/// The loss of an arc that a point doesn't keep: losses are 1 - value in units of 2^-24.
const WHOLE: u32 = 16_777_216;

/// One half.
pub(crate) const HALF: u32 = WHOLE / 2;

/// Edges of this weight and more are left out.
const HEAVY: u32 = WHOLE / 4;

/// The arcs with a loss above this and below the rest to the whole are nodes.
const LOW: u32 = WHOLE / 6;

/// The most edges, each counted from both its ends.
const EDGES: usize = 200_000;

/// The most nodes.
pub(crate) const NODES: u32 = 16_384;

/// An edge: a 3-cycle of which two arcs are its ends. The weight is half the loss of both and the whole loss of the
/// third, less one half.
#[derive(Clone, Copy, Debug, PartialEq, Eq, PartialOrd, Ord)]
pub(crate) struct Edge {
    pub(crate) weight: u32,
    pub(crate) to: u32,
}

/// The arcs whose values are fractional, as nodes, and 3-cycles of a small weight, as edges between two of their arcs.
#[derive(Drop)]
pub(crate) struct Graph {
    n: u16,
    losses: Vec<u32>,
    node_of: Vec<u32>,
    arcs: Vec<Pair>,
    nodes: u32,
    ends: Vec<u32>,
    edges: Vec<Edge>,
    ghost few: { n ≤ MAX_OBJECTS },
    ghost room: { EDGES ≤ vec_capacity edges },
}

impl Graph {
    /// No node. It takes 16 n² bytes, and sets 1,600,000 aside for edges.
    pub(crate) fn new(alloc: Global, n: u16) -> Result<Graph, AllocError>
        requires { n ≤ MAX_OBJECTS }
    {
        let cells = n as usize * n as usize;
        let arc = Pair {
            before: 0,
            after: 0,
        };
        Ok(Graph {
            n,
            losses: vec![in alloc; WHOLE; cells]?,
            node_of: vec![in alloc; NONE; cells]?,
            arcs: vec![in alloc; arc; cells]?,
            nodes: 0,
            ends: vec![in alloc; 0; cells]?,
            edges: Vec::with_capacity(alloc, EDGES)?,
        })
    }

    /// The number of nodes.
    pub(crate) fn len(&self) -> u32 {
        self.nodes
    }

    /// The arc of a node.
    pub(crate) fn arc(&self, node: u32) -> Pair {
        let place = node as usize;
        if place < self.arcs.len() {
            self.arcs[place]
        } else {
            Pair {
                before: 0,
                after: 0,
            }
        }
    }

    /// The place of an arc in a table of all arcs.
    fn place(&self, a: u16, b: u16) -> usize {
        a as usize * self.n as usize + b as usize
    }

    /// The edges of a node, the lightest first.
    pub(crate) fn edges_of(&self, node: u32) -> &[Edge] {
        let start = if node == 0 {
            0
        } else {
            read(&self.ends, node as usize - 1) as usize
        };
        let end = read(&self.ends, node as usize) as usize;
        if start <= end && end <= self.edges.len() {
            &self.edges[start..end]
        } else {
            &self.edges[0..0]
        }
    }

    /// Makes a node of an arc with a fractional loss.
    fn add_arc(&mut self, a: u16, b: u16, loss: u32) {
        let place = self.place(a, b);
        let node = self.nodes;
        write(&mut self.losses, place, loss);
        if a == b
            || loss <= LOW
            || loss >= WHOLE - LOW
            || node >= NODES
            || node as usize >= self.arcs.len()
        {
            write(&mut self.node_of, place, NONE);
            return;
        }
        write(&mut self.node_of, place, node);
        self.arcs[node as usize] = Pair {
            before: a,
            after: b,
        };
        self.nodes = node + 1;
    }

    /// Makes nodes of the arcs from an object. O(n).
    fn add_arcs_from(&mut self, point: &Point, a: u16)
        requires { a < point.now.size }
    {
        for b in 0..point.n() {
            let loss = ((Point::ONE - point.at(a, b)) / 256) as u32;
            self.add_arc(a, b, loss);
        }
    }

    /// Adds an edge to the node of the second arc of a 3-cycle, if it is one and the edge is light.
    fn add_edge(&mut self, loss: u32, second: usize, third: usize) {
        let to = read(&self.node_of, second);
        let half = loss.saturating_add(read(&self.losses, second)) / 2;
        let weight = half
            .saturating_add(read(&self.losses, third))
            .saturating_sub(HALF);
        if to != NONE && weight < HEAVY && self.edges.len() < EDGES {
            self.edges.push(Edge { weight, to }).unwrap();
        }
    }

    /// Adds the edges of a node, for the 3-cycles of its arc and each other object, and sorts them. O(n) but for the
    /// sort.
    fn add_edges_of(&mut self, node: u32) {
        let start = self.edges.len();
        let Pair {
            before: a,
            after: b,
        } = self.arc(node);
        let loss = read(&self.losses, self.place(a, b));
        for c in 0..self.n {
            if c != a && c != b {
                let onward = self.place(b, c);
                let back = self.place(c, a);
                self.add_edge(loss, onward, back);
                self.add_edge(loss, back, onward);
            }
        }
        let end = self.edges.len();
        if start <= end {
            self.edges[start..end].sort_unstable();
        }
        write(&mut self.ends, node as usize, end.min(EDGES) as u32);
    }

    /// The graph of a point. O(n³), and the sorts of at most 200,000 edges.
    pub(crate) fn load(&mut self, point: &Point) {
        self.nodes = 0;
        self.edges.clear();
        for a in 0..point.n() {
            self.add_arcs_from(point, a);
        }
        self.add_all_edges();
    }

    /// Adds the edges of all nodes.
    fn add_all_edges(&mut self) {
        for node in 0..self.nodes {
            self.add_edges_of(node);
        }
    }
}
