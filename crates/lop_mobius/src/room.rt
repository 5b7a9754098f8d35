ghost use Rattle.std.specs.Prelude.{◌≡◌, ◌≤◌, length, IfOk};
ghost use Rattle.lop_model.specs.declared.weights.TheConstants.{MAX_OBJECTS};
ghost use Rattle.lop_cuts.specs.Separation.{GainsViolated};

use crate::graph::{Graph, NODES};
use crate::ladder::ladder_of_ring;
use crate::layers::Layers;
use crate::ring::ring_from;
use crate::work::Work;
use lop_cuts::{CutList, Point};
use std::alloc::{AllocError, Global};
use std::marker::Model;

/// The tables of a search for rings, made once for points of n objects. A contract sees n. It also keeps from which arc
/// the next search starts, so that searches take turns.
#[derive(Drop)]
pub struct RingRoom {
    n: u16,
    first: u32,
    work: Work,
    graph: Graph,
    layers: Layers,
}

impl Model for RingRoom {
    ghost use Rattle.std.specs.Prelude.{ℕ};

    ghost Value = { ℕ };

    ghost view = { λ r. r.n };
}

impl RingRoom {
    /// It takes 16 n² bytes for the graph and 72 for each of its nodes, n² or at most 16,384, and sets 1,600,000 aside
    /// for its edges.
    pub fn new(alloc: Global, n: u16) -> Result<Self, AllocError>
        requires { n ≤ MAX_OBJECTS }
        ensures { IfOk result (λ r. r ≡ n) }
    {
        let cells = n as usize * n as usize;
        Ok(RingRoom {
            n,
            first: 0,
            work: Work::new(),
            graph: Graph::new(alloc, n)?,
            layers: Layers::new(alloc, cells.min(NODES as usize))?,
        })
    }

    /// The number of objects of the points that it is for.
    pub fn n(&self) -> u16
        ensures { result ≡ self.now }
    {
        self.n
    }

    /// Takes up a point. The starts begin a third of the nodes further on than the last time.
    pub(crate) fn load(&mut self, point: &Point)
        ensures { self.new ≡ self.old }
    {
        self.graph.load(point);
        self.work = Work::new();
        let nodes = self.graph.len();
        self.first = self.first.saturating_add(nodes / 3 + 1);
        if self.first >= nodes {
            self.first = 0;
        }
    }

    /// Offers the ladder of a ring of k through a node, if one is found.
    fn try_start(
        &mut self,
        point: &Point,
        start: u32,
        k: usize,
        list: &mut CutList,
        from: usize,
        until: usize,
    )
        requires least { 3 ≤ k }
        requires most { k ≤ 7 }
        requires room { until ≤ list.old.room }
        requires within { length list.old.cuts ≤ until }
        ensures gains { GainsViolated point.now list.old list.new }
        ensures within { length list.new.cuts ≤ until }
        ensures room { list.new.room ≡ list.old.room }
        ensures same { self.new ≡ self.old }
    {
        if let Some(nodes) = ring_from(&self.graph, &mut self.layers, &mut self.work, start, k) {
            if let Some(cut) = ladder_of_ring(&self.graph, nodes, k, point.n()) {
                list.offer(point, cut, from, until);
            }
        }
    }

    /// Offers the ladders of rings of k, at most one through each node, until the list has `until` cuts.
    pub(crate) fn try_all(
        &mut self,
        point: &Point,
        k: usize,
        list: &mut CutList,
        from: usize,
        until: usize,
    )
        requires least { 3 ≤ k }
        requires most { k ≤ 7 }
        requires room { until ≤ list.old.room }
        requires within { length list.old.cuts ≤ until }
        ensures gains { GainsViolated point.now list.old list.new }
        ensures within { length list.new.cuts ≤ until }
        ensures room { list.new.room ≡ list.old.room }
        ensures same { self.new ≡ self.old }
    {
        let nodes = self.graph.len();
        let first = self.first;
        for i in 0..nodes {
            if list.len() >= until || self.work.is_done() {
                return;
            }
            let turned = first.saturating_add(i);
            let start = if turned < nodes {
                turned
            } else {
                turned - nodes
            };
            self.try_start(point, start, k, list, from, until);
        }
    }
}
