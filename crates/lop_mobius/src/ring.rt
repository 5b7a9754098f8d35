//! Short odd closed walks in the graph.
ghost use Rattle.std.specs.Prelude.{◌+◌, ◌<◌, ◌≤◌};

use crate::graph::{Graph, HALF};
use crate::layers::Layers;
use crate::work::Work;

/// The weight below which a ring is wanted: one half, less 1/64 by which its ladder is to be violated.
const TOP: u32 = HALF / 32 * 31;

/// The last two edges of a ring of this weight: its last node but one, and its last node, which is next to the first.
#[derive(Clone, Copy)]
pub(crate) struct Closing {
    weight: u32,
    pub(crate) last: u32,
    pub(crate) before_last: u32,
}

/// Goes on from a node of a layer by each edge that leads to less than `limit`. It stands in the order of weights.
fn extend(graph: &Graph, layers: &mut Layers, work: &mut Work, layer: usize, node: u32, limit: u32)
    requires { layer < 5 }
{
    let so_far = layers.weight(layer, node);
    for edge in graph.edges_of(node) {
        let weight = so_far.saturating_add(edge.weight);
        if weight >= limit || !work.step() {
            return;
        }
        layers.note(layer + 1, edge.to, node, weight);
    }
}

/// Goes on from each node of a layer.
fn extend_all(graph: &Graph, layers: &mut Layers, work: &mut Work, layer: usize, limit: u32)
    requires { layer < 5 }
{
    for index in 0..layers.count(layer) {
        let node = layers.reached(layer, index);
        extend(graph, layers, work, layer, node, limit);
    }
}

/// Paths from `start` of k - 2 edges for a ring of k. Some node of each ring of a weight below the top is one from
/// which each t edges weigh less than t/k of the top, and only such paths are kept.
fn go_on(graph: &Graph, layers: &mut Layers, work: &mut Work, start: u32, k: usize)
    requires least { 3 ≤ k }
    requires most { k ≤ 7 }
{
    layers.restart(start);
    for layer in 0..k - 2 {
        let limit = (TOP / k as u32).saturating_mul(layer as u32 + 1);
        extend_all(graph, layers, work, layer, limit);
    }
}

/// The lightest of the closings through `last`, which is next to the start by an edge of this weight, and `best`.
fn close_through(
    graph: &Graph,
    layers: &Layers,
    work: &mut Work,
    layer: usize,
    last: u32,
    weight: u32,
    best: Closing,
) -> Closing
    requires { layer < 6 }
{
    let mut best = best;
    for edge in graph.edges_of(last) {
        let two = weight.saturating_add(edge.weight);
        if two >= best.weight || !work.step() {
            return best;
        }
        let whole = two.saturating_add(layers.weight(layer, edge.to));
        if whole < best.weight {
            best = Closing {
                weight: whole,
                last,
                before_last: edge.to,
            };
        }
    }
    best
}

/// The lightest closing of the paths in a layer, if one makes a ring below the top.
fn close(
    graph: &Graph,
    layers: &Layers,
    work: &mut Work,
    layer: usize,
    start: u32,
) -> Option<Closing>
    requires { layer < 6 }
{
    let mut best = Closing {
        weight: TOP,
        last: start,
        before_last: start,
    };
    for edge in graph.edges_of(start) {
        if edge.weight >= best.weight {
            break;
        }
        best = close_through(graph, layers, work, layer, edge.to, edge.weight, best);
    }
    if best.weight < TOP { Some(best) } else { None }
}

/// The k nodes of a ring, from the start on.
fn nodes_of(layers: &Layers, closing: Closing, k: usize) -> [u32; 8]
    requires least { 3 ≤ k }
    requires most { k ≤ 7 }
{
    let mut nodes = [0; 8];
    nodes[k - 1] = closing.last;
    nodes[k - 2] = closing.before_last;
    for layer in (1..k - 1).rev() {
        nodes[layer - 1] = layers.before(layer, nodes[layer]);
    }
    nodes
}

/// The nodes of a ring of k edges through `start` whose weight is below the top, if one is found.
pub(crate) fn ring_from(
    graph: &Graph,
    layers: &mut Layers,
    work: &mut Work,
    start: u32,
    k: usize,
) -> Option<[u32; 8]>
    requires least { 3 ≤ k }
    requires most { k ≤ 7 }
{
    go_on(graph, layers, work, start, k);
    let closing = close(graph, layers, work, k - 2, start)?;
    Some(nodes_of(layers, closing, k))
}
