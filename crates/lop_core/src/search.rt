// The core: nodes and journal in rooms that are made once.
ghost use Rattle.std.specs.Prelude.{◌≡◌, ℕ, List, [], IfOk, slice_index_or, ◌≤ℤ◌, ◌+◌, ◌*◌, ◌<◌, ◌≤◌, length, ◌↔◌};
ghost use Rattle.lop_model.specs.Order.{IsOrder};
ghost use Rattle.lop_model.specs.Matrix.{weight};
ghost use Rattle.lop_model.specs.Bound.{pair_bound};
ghost use Rattle.lop_cuts.specs.Kind.{IsCut, FitsCut};
ghost use Rattle.lop_leaf.specs.Bound.{CertifiesUnder};
ghost use Rattle.lop_leaf.specs.Packing.{packing_bound};
ghost use Rattle.lop_leaf.specs.Record.{IsMultiplier};
ghost use Rattle.lop_core.specs.declared.records.NumberedTerm.{NumberedTerm};
ghost use Rattle.lop_core.specs.Tree.{IsCoveredOnce, node_at, out_count, path_of};
ghost use Rattle.lop_core.specs.Machine.{IsLive, IsReady, IsOutTo, live_count, ready_count, state_bound};
ghost use Rattle.lop_core.specs.Journal.{HasTake, HasReport, entries_of, AreCounted};
ghost use Rattle.lop_core.specs.AllOrders.{factorial};
ghost use Rattle.lop_core.specs.Workers.{IsInRange};
ghost use Rattle.lop_core.specs.Core.{CoreFields, HasHistory, IsTake, OnNode, IsReport, IsSoundReport, AreRecorded, prepared, view_of};
ghost use Rattle.lop_core.specs.Records.{HaveTermsWithin, IsNodeRecord, IsRecordBook, cut_at, cut_room, number_at, record_at, scaled_of, term_room};
ghost use Rattle.lop_core.specs.declared.search.TheConstants.{MAX_BUDGET};

use crate::candidates::Candidates;
use crate::journal::Entry;
use crate::node::{NodeView, SearchNode, Standing};
use crate::path::write_ticket;
use crate::records::Records;
use crate::reply::{ReportReply, TakeReply};
use crate::room::put_last;
use crate::scan::{count_above, greatest_bound, has_above, remove_out};
use crate::settle::{child, either, is_out_to, keep_better, settle};
use crate::start::root_bound;
use lop_cuts::Cut;
use lop_leaf::{Evaluated, Ticket};
use lop_model::{Order, Pair, Weights};
use lop_value::value;
use std::alloc::{AllocError, Global};
use std::marker::Model;

/// The most nodes that a search evaluates.
pub const MAX_BUDGET: u32 = 1_000_000;

/// A search: its state, and the journal of how it came about. A contract sees the problem, the state, the journal
/// and the kept order.
#[derive(Drop)]
pub struct Core {
    weights: Weights,
    start: i128,
    budget: u32,
    nodes: Vec<SearchNode>,
    best: i128,
    evaluated: u32,
    outs: Vec<u32>,
    journal: Vec<Entry>,
    order: Order,
    records: Records,
    candidates: Candidates,
}

impl Model for Core {
    ghost use Rattle.std.specs.Prelude.{◌≡◌, vec_len, vec_capacity};
    ghost use Rattle.lop_core.specs.Kept.{AreKept, book_of};
    ghost use Rattle.lop_core.specs.Records.{term_room};
    ghost use Rattle.lop_core.specs.Core.{CoreFields, HasHistory, AreRecorded, HasRoom};
    ghost use Rattle.lop_core.specs.Outs.{HasOuts};
    ghost use Rattle.lop_core.specs.Candidates.{HasCandidates};

    ghost Value = { CoreFields };

    ghost view = { λ c. record {
      problem = record { weights = c.weights; start = c.start; budget = c.budget };
      state = record { nodes = c.nodes.items; best = c.best; evaluated = c.evaluated };
      journal = c.journal.items;
      order = c.order;
      book = book_of c.records;
    } };

    ghost invariant = { λ c. HasHistory (record {
      problem = record { weights = c.weights; start = c.start; budget = c.budget };
      state = record { nodes = c.nodes.items; best = c.best; evaluated = c.evaluated };
      journal = c.journal.items;
      order = c.order;
      book = book_of c.records;
    }) × AreRecorded (record {
      problem = record { weights = c.weights; start = c.start; budget = c.budget };
      state = record { nodes = c.nodes.items; best = c.best; evaluated = c.evaluated };
      journal = c.journal.items;
      order = c.order;
      book = book_of c.records;
    }) × HasRoom c.budget (vec_capacity c.nodes) (vec_capacity c.journal) (vec_capacity c.records.numbers) (vec_capacity c.records.spans) × HasOuts c.nodes.items c.budget c.outs.items (vec_capacity c.outs) × AreKept c.records × (c.records.term_room ≡ term_room c.budget) × HasCandidates (record { nodes = c.nodes.items; best = c.best; evaluated = c.evaluated }) c.budget (vec_len c.outs) c.candidates };
}

impl Core {
    /// Copies the weights and the order, and takes all the memory that the search will need: room for 2 * budget + 1
    /// nodes, 2 * budget entries, budget + 1 candidates, budget + 1 records, 4,096 + min(1,024 * budget, 67,108,864)
    /// terms and 65,536 cuts. The root is idle, with the pair bound. O(n²).
    pub fn prepare(
        alloc: Global,
        weights: &Weights,
        order: &Order,
        budget: u32,
    ) -> Result<Self, AllocError>
        requires same_n { length order.now ≡ weights.now.size }
        requires positive { 1 ≤ budget }
        requires within_limit { budget ≤ MAX_BUDGET }
        ensures { IfOk result (λ core. core ≡ prepared (record { weights = weights.now; start = weight weights.now order.now; budget = budget }) order.now) }
    {
        let n = order.n();
        let best = value(weights, order);
        let bound = root_bound(alloc, weights)?;
        let places = 2 * budget as usize;
        let mut nodes = Vec::with_capacity(alloc, places + 1)?;
        put_last(&mut nodes, child(0, Pair::default(), bound));
        let mut kept = Order::first(alloc, n)?;
        kept.copy_from(order);
        let mut candidates = Candidates::with_room(alloc, budget as usize + 1)?;
        candidates.put_live(0, bound, best);
        Ok(Core {
            weights: weights.copy()?,
            start: best,
            budget,
            nodes,
            best,
            evaluated: 0,
            outs: Vec::with_capacity(alloc, budget as usize)?,
            journal: Vec::with_capacity(alloc, places)?,
            order: kept,
            records: Records::prepare(alloc, budget)?,
            candidates,
        })
    }

    /// Hands out the live idle node with the greatest bound, and of several the one with the lowest number. O(log of
    /// the number of live idle nodes), and O(the path and the terms) for the ticket. Where no node is live and idle,
    /// O(the number of nodes that are out).
    pub fn take(&mut self, worker: u32, into: &mut Ticket) -> TakeReply
        requires same_n { into.old.size ≡ self.old.problem.weights.size }
        ensures step { IsTake self.old into.old worker result self.new into.new }
        ensures on_node { OnNode self.old worker result self.new into.new }
    {
        let Some(node) = self.candidates.first_ready(&self.nodes, self.best) else {
            return if has_above(&self.nodes, &self.outs, self.best) {
                TakeReply::AllOut
            } else {
                TakeReply::Done
            };
        };
        if self.evaluated + self.outs.len() as u32 >= self.budget {
            return TakeReply::Spent;
        }
        let index = node as usize;
        self.candidates.remove_top();
        write_ticket(&self.nodes, node, self.best, &self.records, into);
        self.nodes[index].standing = Standing::Out(worker);
        put_last(&mut self.outs, node);
        put_last(&mut self.journal, Entry::Take { worker, node });
        TakeReply::Node
    }

    /// Takes in what a worker found at a node that is out to it. O(n) and O(the record's terms, each with the log of
    /// the number of cuts), O(the number of nodes that are out), and O(log of the number of live idle nodes) where the
    /// node is split. Where best rises, O(the number of live idle nodes); where a cut is new, O(the number of cuts).
    pub fn report(&mut self, worker: u32, found: &Evaluated) -> ReportReply
        requires sound { IsOutTo self.old.state worker found.now.node → IsSoundReport self.old found.now }
        ensures step { IsReport self.old worker found.now result self.new }
    {
        let node = found.node();
        let index = node as usize;
        if index >= self.nodes.len() {
            return ReportReply::NotYours;
        }
        if !is_out_to(self.nodes[index], worker) {
            return ReportReply::NotYours;
        }
        let pair = found.pair();
        let value = found.value();
        let before = self.best;
        keep_better(&mut self.best, &mut self.order, value, found.order());
        self.candidates.raise(&self.nodes, before, self.best);
        self.evaluated += 1;
        remove_out(&mut self.outs, node);
        let room = self.records.offer(index, found.shown());
        put_last(
            &mut self.journal,
            Entry::Report {
                worker,
                node,
                bound: found.bound(),
                pair,
                value,
                room,
            },
        );
        let bound = either(room, found.bound(), self.nodes[index].bound);
        let split = settle(&mut self.nodes, node, bound, pair, self.best);
        self.records.inherit(index, split);
        self.candidates.put_children(split, bound);
        match split {
            Some(first) => ReportReply::Split(first),
            None => ReportReply::Closed,
        }
    }

    /// The weights of the search.
    pub fn weights(&self) -> &Weights
        ensures { result.now ≡ self.now.problem.weights }
    {
        &self.weights
    }

    /// The greatest weight known. It never falls.
    pub fn best(&self) -> i128
        ensures value { result ≡ self.now.state.best }
        ensures from_start { self.now.problem.start ≤ℤ result }
        ensures history { HasHistory self.now }
        ensures range { IsInRange result }
    {
        let _n = self.weights.n();
        self.best
    }

    /// An order of that weight.
    pub fn best_order(&self) -> &Order
        ensures value { result.now ≡ self.now.order }
        ensures is_order { IsOrder self.now.problem.weights.size result.now }
        ensures weighs { weight self.now.problem.weights result.now ≡ self.now.state.best }
    {
        &self.order
    }

    /// The greatest of best and of the bounds of the live idle nodes. O(1).
    fn top_bound(&self) -> i128
        ensures at_least { self.now.state.best ≤ℤ result }
        ensures greatest { (node : ℕ) → IsReady self.now.state.nodes self.now.state.best node → (node_at self.now.state.nodes node).bound ≤ℤ result }
        ensures within { result ≤ℤ state_bound self.now.state }
    {
        match self.candidates.first_ready(&self.nodes, self.best) {
            Some(node) => self.nodes[node as usize].bound,
            None => self.best,
        }
    }

    /// The greatest of best and of the bounds of the nodes that aren't split: at most the pair bound of the weights,
    /// and at most their packing bound once a node was evaluated or where none is live. O(the number of nodes that are
    /// out).
    pub fn bound(&self) -> i128
        ensures value { result ≡ state_bound self.now.state }
        ensures from_root { result ≤ℤ pair_bound self.now.problem.weights [] }
        ensures packed { 1 ≤ self.now.state.evaluated → result ≤ℤ packing_bound self.now.problem.weights [] }
        ensures packed_closed { ((node : ℕ) → ¬ (IsLive self.now.state.nodes self.now.state.best node)) → result ≤ℤ packing_bound self.now.problem.weights [] }
        ensures bounds { (order : List ℕ) → IsOrder self.now.problem.weights.size order → weight self.now.problem.weights order ≤ℤ result }
        ensures at_least_best { self.now.state.best ≤ℤ result }
        ensures range { IsInRange result }
    {
        let _n = self.weights.n();
        let top = self.top_bound();
        greatest_bound(&self.nodes, &self.outs, top)
    }

    /// How many nodes were evaluated.
    pub fn evaluated(&self) -> u32
        ensures value { result ≡ self.now.state.evaluated }
        ensures history { HasHistory self.now }
        ensures within_budget { result ≤ self.now.problem.budget }
    {
        self.evaluated
    }

    /// How many nodes may be evaluated.
    pub fn budget(&self) -> u32
        ensures value { result ≡ self.now.problem.budget }
        ensures positive { 1 ≤ result }
        ensures within_limit { result ≤ MAX_BUDGET }
    {
        self.budget
    }

    /// How many nodes are live: not split, with a bound above best. O(the number of nodes that are out).
    pub fn live(&self) -> u32
        ensures { result ≡ live_count self.now.state.nodes self.now.state.best }
    {
        let idle = self.candidates.len() as u32;
        idle + count_above(&self.nodes, &self.outs, self.best)
    }

    /// How many of the live nodes are idle. O(1).
    pub fn idle_live(&self) -> u32
        ensures { result ≡ ready_count self.now.state.nodes self.now.state.best }
    {
        self.candidates.len() as u32
    }

    /// The number of nodes: at most 2 · n! − 1, and at least the number of those that were evaluated.
    pub fn nodes(&self) -> u32
        ensures value { result ≡ length self.now.state.nodes }
        ensures evaluated { self.now.state.evaluated ≤ result }
        ensures at_most { result + 1 ≤ 2 * factorial self.now.problem.weights.size }
        ensures within_budget { result ≤ 2 * self.now.problem.budget + 1 }
    {
        self.nodes.len() as u32
    }

    /// What is known of a node. Its record certifies its bound.
    pub fn node(&self, index: u32) -> NodeView
        requires { index < length self.now.state.nodes }
        ensures value { result ≡ view_of (node_at self.now.state.nodes index) (record_at self.now.book.records index) }
        ensures certified { CertifiesUnder self.now.problem.weights (path_of self.now.state.nodes index) (scaled_of self.now.book.cuts (record_at self.now.book.records index)) result.bound }
        ensures terms { IsNodeRecord (length self.now.book.cuts) (record_at self.now.book.records index) }
    {
        let node = self.nodes[index as usize];
        let span = self.records.span(index as usize);
        NodeView {
            parent: node.parent,
            pair: node.pair,
            bound: node.bound,
            standing: node.standing,
            scale: span.scale,
            terms: span.count,
        }
    }

    /// The number of the cut and the multiplier of a term of a node's record. The numbers rise.
    pub fn term(&self, node: u32, index: u32) -> (u32, u64)
        requires node { node < length self.now.state.nodes }
        requires index { index < length (record_at self.now.book.records node).terms }
        ensures value { (d : NumberedTerm) → slice_index_or (record_at self.now.book.records node).terms index d ≡ record { cut = result.0; multiplier = result.1 } }
        ensures cut { result.0 < length self.now.book.cuts }
        ensures multiplier { IsMultiplier result.1 }
    {
        let span = self.records.span(node as usize);
        let term = self.records.terms[(span.first + index) as usize];
        (term.cut, term.multiplier)
    }

    /// The number of a node's record. Nodes with equal numbers have equal records; a child starts with its parent's
    /// number, and the root with 0.
    pub fn record_of(&self, node: u32) -> u32
        requires { node < length self.now.state.nodes }
        ensures value { result ≡ number_at self.now.book.numbers node }
        ensures at_most { result ≤ self.now.state.evaluated }
        ensures equal { (other : ℕ) → other < length self.now.state.nodes → number_at self.now.book.numbers other ≡ result → record_at self.now.book.records other ≡ record_at self.now.book.records node }
        ensures terms { HaveTermsWithin self.now.book (term_room self.now.problem.budget) }
    {
        self.records.numbers[node as usize]
    }

    /// The number of distinct cuts of all records.
    pub fn cuts(&self) -> u32
        ensures value { result ≡ length self.now.book.cuts }
        ensures within_limit { result ≤ cut_room }
        ensures recorded { AreRecorded self.now }
        ensures book { IsRecordBook self.now.book }
    {
        self.records.cuts.len() as u32
    }

    /// The cut of a number. Cuts are numbered in the order of their first use.
    pub fn cut(&self, index: u32) -> &Cut
        requires { index < length self.now.book.cuts }
        ensures value { result.now ≡ cut_at self.now.book.cuts index }
        ensures cut { IsCut result.now }
        ensures fits { FitsCut self.now.problem.weights.size result.now }
    {
        self.records.cuts.get(index)
    }

    /// The events so far. The state is their replay, whatever calls were made; every order extends the path of
    /// exactly one node that isn't split; and a node is out to a worker exactly where this worker's entries have a
    /// take of it and no report.
    pub fn journal(&self) -> &[Entry]
        ensures value { result.now ≡ self.now.journal }
        ensures history { HasHistory self.now }
        ensures cover { (order : List ℕ) → IsOrder self.now.problem.weights.size order → IsCoveredOnce self.now.state.nodes order }
        ensures out { (worker : ℕ) (node : ℕ) → IsOutTo self.now.state worker node ↔ (HasTake node (entries_of worker self.now.journal) × ¬ (HasReport node (entries_of worker self.now.journal))) }
        ensures counts { AreCounted self.now.problem self.now.state self.now.journal }
        ensures none_out { ((worker node : ℕ) → HasTake node (entries_of worker self.now.journal) → HasReport node (entries_of worker self.now.journal)) → out_count self.now.state.nodes ≡ 0 }
    {
        &self.journal
    }
}
