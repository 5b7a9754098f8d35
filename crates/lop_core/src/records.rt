// The records of the nodes, in rooms that are made once.
ghost use Rattle.std.specs.Prelude.{◌≡◌, ◌+◌, ◌*◌, ◌^◌, ◌<◌, ◌≤◌, ◌==◌, ◌&&◌, ◌||◌, [], ◌++◌, length, true, All, AllPairs, IfOk, IfSome, IfNone, if◌then◌else◌, ◌∷◌, vec_len, vec_capacity, min, nat_le};
ghost use Rattle.std.specs.List.{list_all};
ghost use Rattle.lop_core.specs.Core.{root_book};
ghost use Rattle.lop_core.specs.Records.{AreDifferentCuts, IsAdded, IsTakenOrKept, cut_at, cut_room, finds_room, has_term, is_new, is_own, is_same, new_cuts, record_at, same_cut, scaled_of, term_room as term_room_of, terms_of, with_children};
ghost use Rattle.lop_cuts.specs.declared.limits.TheConstants.{MAX_TERMS};
ghost use Rattle.lop_leaf.specs.Record.{IsMultiplier, IsScaledTerms};
ghost use Rattle.lop_core.specs.CutIndex.{IsNumberOf};
ghost use Rattle.lop_core.specs.Kept.{AreKept, book_of, record_of};
ghost use Rattle.lop_core.specs.declared.search.TheConstants.{MAX_BUDGET};

use crate::cut_index::{CUT_ROOM, CutIndex};
use crate::room::put_last;
use lop_cuts::{Cut, MAX_TERMS};
use lop_leaf::{LeafRecord, Term};
use std::alloc::{AllocError, Global};

/// How many terms of a node's record are looked at before a cut is searched.
const AHEAD: usize = 16;

/// A term of a node's record.
#[derive(Clone, Copy, Debug, PartialEq, Eq)]
pub struct NumberedTerm {
    /// The number of its cut.
    pub cut: u32,
    pub multiplier: u64,
}

/// A record: its scale, and where its terms stand in the room of terms.
#[derive(Clone, Copy, Debug, PartialEq, Eq)]
pub struct Span {
    pub scale: u32,
    pub first: u32,
    pub count: u32,
}

/// The records by number, and the number of each node's record. A node's children have its number, so that nothing
/// is copied.
#[derive(Drop)]
pub struct Records {
    pub cuts: CutIndex,
    pub terms: Vec<NumberedTerm>,
    pub term_room: usize,
    pub numbers: Vec<u32>,
    pub spans: Vec<Span>,
    pub fresh: Vec<NumberedTerm>,
}

/// How many terms there is room for.
fn term_room(budget: u32) -> usize
    requires { budget ≤ MAX_BUDGET }
    ensures { result ≡ term_room_of budget }
{
    MAX_TERMS + (1024 * budget as usize).min(67_108_864)
}

/// How many cuts of the record aren't in the list. O(terms, each with the log of the number of cuts).
fn new_count(cuts: &CutIndex, shown: &LeafRecord) -> usize
    ensures value { result ≡ length (new_cuts cuts.now shown.now.terms) }
    ensures at_most { result ≤ MAX_TERMS }
{
    let mut count = 0;
    for index in 0..shown.len() {
        if cuts.misses(&shown.term(index).cut) {
            count += 1;
        }
    }
    count
}

/// Whether there is room for the cuts of the record that aren't in the list. They are only counted where there is no
/// room for all its cuts.
fn has_cut_room(cuts: &CutIndex, shown: &LeafRecord) -> bool
    ensures { result ≡ nat_le (length cuts.now + length (new_cuts cuts.now shown.now.terms)) cut_room }
{
    cuts.len() + shown.len() <= CUT_ROOM || cuts.len() + new_count(cuts, shown) <= CUT_ROOM
}

/// The number of the cut, where one of the next few terms of the record is of this cut. Then the place moves behind
/// that term. O(1).
fn number_ahead(cuts: &CutIndex, own: &[NumberedTerm], place: &mut usize, cut: &Cut) -> Option<u32>
    requires listed { All (λ t. t.cut < length cuts.now) own.now }
    ensures { IfSome result (λ number. IsNumberOf cuts.now cut.now number) }
{
    let end = own.len().min(place.saturating_add(AHEAD));
    for index in *place..end {
        let number = own[index].cut;
        if *cuts.get(number) == *cut {
            *place = index + 1;
            return Some(number);
        }
    }
    None
}

/// The number of the cut, which is put at the end of the list where it isn't there yet. The next terms of the record
/// are looked at first.
fn number_of(cuts: &mut CutIndex, own: &[NumberedTerm], place: &mut usize, cut: &Cut) -> u32
    requires room { is_new cuts.old cut.now ≡ true → length cuts.old < cut_room }
    requires listed { All (λ t. t.cut < length cuts.old) own.now }
    ensures cuts { cuts.new ≡ (if is_new cuts.old cut.now then cuts.old ++ cut.now ∷ [] else cuts.old) }
    ensures number { IsNumberOf cuts.new cut.now result }
{
    match number_ahead(cuts, own, place, cut) {
        Some(number) => number,
        None => cuts.number_of(cut),
    }
}

/// Writes the terms with the numbers of their cuts, and puts the new ones at the end of the list of cuts. Terms that
/// stand in the order of the node's own are numbered without a search.
fn number_terms(
    cuts: &mut CutIndex,
    shown: &LeafRecord,
    own: &[NumberedTerm],
    fresh: &mut Vec<NumberedTerm>,
)
    requires room { length cuts.old + length (new_cuts cuts.old shown.now.terms) ≤ cut_room }
    requires own { All (λ t. t.cut < length cuts.old) own.now }
    requires for_terms { MAX_TERMS ≤ vec_capacity fresh.old }
    ensures cuts { cuts.new ≡ cuts.old ++ new_cuts cuts.old shown.now.terms }
    ensures terms { terms_of cuts.new fresh.new.items ≡ shown.now.terms }
    ensures listed { All (λ t. t.cut < length cuts.new) fresh.new.items }
    ensures different { AreDifferentCuts cuts.new }
    ensures few { length cuts.new ≤ cut_room }
    ensures for_terms { vec_capacity fresh.old ≤ vec_capacity fresh.new }
{
    let mut place = 0;
    fresh.clear();
    for index in 0..shown.len() {
        let term = shown.term(index);
        let cut = number_of(cuts, own, &mut place, &term.cut);
        put_last(
            fresh,
            NumberedTerm {
                cut,
                multiplier: term.multiplier,
            },
        );
    }
    cuts.settle();
    let _count = cuts.len();
}

/// Puts the terms at the end of the room. O(terms).
fn append_terms(room: &mut Vec<NumberedTerm>, terms: &[NumberedTerm])
    requires { vec_len room.old + length terms.now ≤ vec_capacity room.old }
    ensures terms { room.new.items ≡ room.old.items ++ terms.now }
    ensures room { vec_capacity room.old ≤ vec_capacity room.new }
{
    for term in terms {
        put_last(room, *term);
    }
}

/// Puts terms with their cuts at the end of a record. O(terms).
fn read_terms(cuts: &CutIndex, terms: &[NumberedTerm], into: &mut LeafRecord)
    requires rising { AllPairs (λ t u. t.cut < u.cut) terms.now }
    requires listed { All (λ t. t.cut < length cuts.now) terms.now }
    requires multipliers { All (λ t. IsMultiplier t.multiplier) terms.now }
    requires bounded_count { length terms.now ≤ MAX_TERMS }
    requires empty { into.old.terms ≡ [] }
    ensures scale { into.new.scale ≡ into.old.scale }
    ensures terms { into.new.terms ≡ terms_of cuts.now terms.now }
{
    let _count = cuts.len();
    for term in terms {
        into.put(cuts.get(term.cut).copy(), term.multiplier);
    }
}

/// Whether the term has the cut and the multiplier of another. O(1).
fn is_term(cuts: &CutIndex, own: NumberedTerm, term: &Term) -> bool
    requires { own.cut < length cuts.now }
    ensures { result ≡ ((own.multiplier == term.now.multiplier) && same_cut (cut_at cuts.now own.cut) term.now.cut) }
{
    own.multiplier == term.multiplier && *cuts.get(own.cut) == term.cut
}

/// Whether one of the terms has the cut and the multiplier. O(1) where it is the one at the index, and else O(terms).
fn has_term(cuts: &CutIndex, own: &[NumberedTerm], index: usize, term: &Term) -> bool
    requires listed { All (λ t. t.cut < length cuts.now) own.now }
    requires inside { index < length own.now }
    ensures { result ≡ has_term cuts.now own.now term.now }
{
    if is_term(cuts, own[index], term) {
        return true;
    }
    for other in own {
        if is_term(cuts, *other, term) {
            return true;
        }
    }
    false
}

/// Whether the record has these terms, as many, in whatever order. O(terms) where they stand in the same order.
fn has_terms(cuts: &CutIndex, own: &[NumberedTerm], shown: &LeafRecord) -> bool
    requires listed { All (λ t. t.cut < length cuts.now) own.now }
    requires same_length { length own.now ≡ length shown.now.terms }
    ensures { result ≡ list_all (λ t. has_term cuts.now own.now t) shown.now.terms }
{
    for index in 0..shown.len() {
        if !has_term(cuts, own, index, shown.term(index)) {
            return false;
        }
    }
    true
}

/// The terms of a span of the room.
fn terms_in(room: &[NumberedTerm], span: Span) -> &[NumberedTerm]
    requires { span.first + span.count ≤ length room.now }
    ensures { result.now ≡ (record_of room.now span).terms }
{
    let first = span.first as usize;
    &room[first..first + span.count as usize]
}

/// Whether a record has the scale and the terms of another, in whatever order.
fn is_same(cuts: &CutIndex, room: &[NumberedTerm], span: Span, shown: &LeafRecord) -> bool
    requires inside { span.first + span.count ≤ length room.now }
    requires listed { All (λ t. t.cut < length cuts.now) (record_of room.now span).terms }
    ensures same { result ≡ is_same cuts.now (record_of room.now span) shown.now }
    ensures shown { IsScaledTerms shown.now }
{
    let own = terms_in(room, span);
    span.scale == shown.scale() && own.len() == shown.len() && has_terms(cuts, own, shown)
}

impl Records {
    /// Takes all the memory that the records of a search with this budget need. There is the record of the root,
    /// without terms.
    pub fn prepare(alloc: Global, budget: u32) -> Result<Self, AllocError>
        requires { budget ≤ MAX_BUDGET }
        ensures book { IfOk result (λ r. book_of r ≡ root_book) }
        ensures kept { IfOk result AreKept }
        ensures term_room { IfOk result (λ r. r.term_room ≡ term_room_of budget) }
        ensures for_nodes { IfOk result (λ r. 2 * budget + 1 ≤ vec_capacity r.numbers) }
        ensures for_records { IfOk result (λ r. budget + 1 ≤ vec_capacity r.spans) }
    {
        let room = term_room(budget);
        let mut numbers = Vec::with_capacity(alloc, 2 * budget as usize + 1)?;
        put_last(&mut numbers, 0);
        let mut spans = Vec::with_capacity(alloc, budget as usize + 1)?;
        put_last(
            &mut spans,
            Span {
                scale: 1,
                first: 0,
                count: 0,
            },
        );
        Ok(Records {
            cuts: CutIndex::new(alloc)?,
            terms: Vec::with_capacity(alloc, room)?,
            term_room: room,
            numbers,
            spans,
            fresh: Vec::with_capacity(alloc, MAX_TERMS)?,
        })
    }

    /// Whether a record finds room.
    fn finds_room(&self, shown: &LeafRecord) -> bool
        requires { AreKept self.now }
        ensures room { result ≡ finds_room self.now.term_room (book_of self.now) shown.now.terms }
        ensures shown { IsScaledTerms shown.now }
    {
        shown.len() == 0
            || (self.terms.len() + shown.len() <= self.term_room && has_cut_room(&self.cuts, shown))
    }

    /// Whether the node has this record already. O(terms) where its terms stand in the order of the cuts' numbers, as
    /// in a ticket.
    fn is_own(&self, node: usize, shown: &LeafRecord) -> bool
        requires kept { AreKept self.now }
        requires inside { node < vec_len self.now.numbers }
        ensures own { result ≡ is_own (book_of self.now) node shown.now }
        ensures shown { IsScaledTerms shown.now }
    {
        is_same(&self.cuts, &self.terms, self.span(node), shown)
    }

    /// Adds this record, which finds room, and gives the node its number. O(terms, each with the log of the number of
    /// terms and cuts), and O(the number of cuts) where one is new.
    fn add(&mut self, node: usize, shown: &LeafRecord)
        requires kept { AreKept self.old }
        requires room { finds_room self.old.term_room (book_of self.old) shown.now.terms ≡ true }
        requires inside { node < vec_len self.old.numbers }
        requires for_record { vec_len self.old.spans < vec_capacity self.old.spans }
        requires small { vec_len self.old.spans < 2 ^ 32 }
        ensures added { IsAdded (book_of self.old) node shown.now (book_of self.new) }
        ensures kept { AreKept self.new }
        ensures term_room { self.new.term_room ≡ self.old.term_room }
        ensures for_nodes { vec_capacity self.new.numbers ≡ vec_capacity self.old.numbers }
        ensures for_records { vec_capacity self.old.spans ≤ vec_capacity self.new.spans }
    {
        let span = self.span(node);
        let own = terms_in(&self.terms, span);
        number_terms(&mut self.cuts, shown, own, &mut self.fresh);
        self.fresh.sort_unstable_by_key(|term| term.cut);
        let first = self.terms.len() as u32;
        let number = self.spans.len() as u32;
        append_terms(&mut self.terms, &self.fresh);
        self.numbers[node] = number;
        put_last(
            &mut self.spans,
            Span {
                scale: shown.scale(),
                first,
                count: shown.len() as u32,
            },
        );
    }

    /// Gives the node this record where it has it already or where it finds room, and answers whether that is so. A
    /// record that the node has takes no room.
    pub fn offer(&mut self, node: usize, shown: &LeafRecord) -> bool
        requires kept { AreKept self.old }
        requires inside { node < vec_len self.old.numbers }
        requires for_record { vec_len self.old.spans < vec_capacity self.old.spans }
        requires small { vec_len self.old.spans < 2 ^ 32 }
        ensures room { result ≡ (is_own (book_of self.old) node shown.now || finds_room self.old.term_room (book_of self.old) shown.now.terms) }
        ensures shown { IsScaledTerms shown.now }
        ensures taken { IsTakenOrKept result (book_of self.old) node shown.now (book_of self.new) }
        ensures kept { AreKept self.new }
        ensures term_room { self.new.term_room ≡ self.old.term_room }
        ensures for_nodes { vec_capacity self.new.numbers ≡ vec_capacity self.old.numbers }
        ensures for_records { vec_capacity self.old.spans ≤ vec_capacity self.new.spans }
    {
        if self.is_own(node, shown) {
            return true;
        }
        let room = self.finds_room(shown);
        if room {
            self.add(node, shown);
        }
        room
    }

    /// Gives the number of a node's record to its two children, where it was split.
    pub fn inherit(&mut self, node: usize, first: Option<u32>)
        requires kept { AreKept self.old }
        requires inside { node < vec_len self.old.numbers }
        requires room { IfSome first (λ _. vec_len self.old.numbers + 2 ≤ vec_capacity self.old.numbers) }
        ensures split { IfSome first (λ _. book_of self.new ≡ with_children (book_of self.old) node) }
        ensures closed { IfNone first (book_of self.new ≡ book_of self.old) }
        ensures kept { AreKept self.new }
        ensures term_room { self.new.term_room ≡ self.old.term_room }
        ensures for_nodes { vec_capacity self.old.numbers ≤ vec_capacity self.new.numbers }
        ensures for_records { vec_capacity self.new.spans ≡ vec_capacity self.old.spans }
    {
        if first.is_some() {
            let number = self.numbers[node];
            put_last(&mut self.numbers, number);
            put_last(&mut self.numbers, number);
        }
    }

    /// The record of a node.
    pub fn span(&self, node: usize) -> Span
        requires kept { AreKept self.now }
        requires inside { node < vec_len self.now.numbers }
        ensures record { record_of self.now.terms.items result ≡ record_at (book_of self.now).records node }
        ensures within { result.first + result.count ≤ vec_len self.now.terms }
    {
        self.spans[self.numbers[node] as usize]
    }

    /// Writes the record of a node with its cuts. O(terms).
    pub fn read(&self, node: usize, into: &mut LeafRecord)
        requires kept { AreKept self.now }
        requires inside { node < vec_len self.now.numbers }
        ensures { into.new ≡ scaled_of (book_of self.now).cuts (record_at (book_of self.now).records node) }
    {
        let span = self.span(node);
        let first = span.first as usize;
        into.clear();
        into.set_scale(span.scale);
        read_terms(
            &self.cuts,
            &self.terms[first..first + span.count as usize],
            into,
        );
    }
}
