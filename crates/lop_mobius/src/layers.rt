ghost use Rattle.std.specs.Prelude.{◌<◌, ◌≤◌};
ghost use Rattle.lop_mobius.specs.declared.graph.TheConstants.{NODES};

use crate::cells::{NONE, read, write};
use crate::graph::NODES;
use std::alloc::{AllocError, Global};

/// How many layers there are: paths of at most five edges.
const LAYERS: usize = 6;

/// The least weights of paths from a start to each node, by their number of edges.
#[derive(Drop)]
pub(crate) struct Layers {
    nodes: usize,
    weights: Vec<u32>,
    from: Vec<u32>,
    reached: Vec<u32>,
    counts: [u32; 6],
    ghost few: { nodes ≤ NODES },
}

impl Layers {
    /// No path. It takes 72 bytes a node.
    pub(crate) fn new(alloc: Global, nodes: usize) -> Result<Layers, AllocError>
        requires { nodes ≤ NODES }
    {
        let cells = LAYERS * nodes;
        Ok(Layers {
            nodes,
            weights: vec![in alloc; NONE; cells]?,
            from: vec![in alloc; 0; cells]?,
            reached: vec![in alloc; 0; cells]?,
            counts: [0; 6],
        })
    }

    /// The place of a node in a layer.
    #[inline]
    fn place(&self, layer: usize, node: u32) -> usize
        requires { layer < 6 }
    {
        layer * self.nodes + node as usize
    }

    /// How many nodes are reached by this many edges.
    pub(crate) fn count(&self, layer: usize) -> u32
        requires { layer < 6 }
    {
        self.counts[layer]
    }

    /// One of them.
    pub(crate) fn reached(&self, layer: usize, index: u32) -> u32
        requires { layer < 6 }
    {
        read(&self.reached, self.place(layer, index))
    }

    /// The least weight of a path of this many edges to a node, or the greatest number where none was found.
    #[inline]
    pub(crate) fn weight(&self, layer: usize, node: u32) -> u32
        requires { layer < 6 }
    {
        read(&self.weights, self.place(layer, node))
    }

    /// The node before a node on that path.
    pub(crate) fn before(&self, layer: usize, node: u32) -> u32
        requires { layer < 6 }
    {
        read(&self.from, self.place(layer, node))
    }

    /// Notes a path, if none as light is known. O(1).
    #[inline]
    pub(crate) fn note(&mut self, layer: usize, node: u32, from: u32, weight: u32)
        requires { layer < 6 }
    {
        let place = self.place(layer, node);
        let old = read(&self.weights, place);
        if weight < old {
            write(&mut self.weights, place, weight);
            write(&mut self.from, place, from);
            if old == NONE {
                self.note_reached(layer, node);
            }
        }
    }

    /// Notes that a node is reached for the first time.
    fn note_reached(&mut self, layer: usize, node: u32)
        requires { layer < 6 }
    {
        let count = self.counts[layer];
        if (count as usize) < self.nodes {
            let place = self.place(layer, count);
            write(&mut self.reached, place, node);
            self.counts[layer] = count + 1;
        }
    }

    /// Forgets the paths of this many edges.
    fn clear_layer(&mut self, layer: usize)
        requires { layer < 6 }
    {
        for index in 0..self.counts[layer] {
            let place = self.place(layer, self.reached(layer, index));
            write(&mut self.weights, place, NONE);
        }
        self.counts[layer] = 0;
    }

    /// Forgets all paths, but for that of no edge from `start`.
    pub(crate) fn restart(&mut self, start: u32) {
        for layer in 0..6 {
            self.clear_layer(layer);
        }
        self.note(0, start, start, 0);
    }
}
