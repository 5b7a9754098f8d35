// The distinct cuts of a search, in the order of their first use, with an index for look-ups.
ghost use Rattle.std.specs.Prelude.{◌≡◌, ℕ, ◌+◌, ◌<◌, ◌≤◌, [], ◌∷◌, ◌++◌, length, take, drop, true, IfOk, IfErr, IfSome, if◌then◌else◌, slice_index, vec_len, vec_capacity};
ghost use Rattle.lop_core.specs.Records.{AreDifferentCuts, cut_room, is_new};
ghost use Rattle.lop_core.specs.CutIndex.{IsCutIndex, IsNumberOf, IsGap, ArePending, HavePendingRooms};

use crate::room::put_last;
use lop_cuts::{Cut, CutKind, Cycle};
use std::alloc::{AllocError, Global};
use std::cmp::Ordering;
use std::marker::Model;

/// How many cuts there is room for.
pub const CUT_ROOM: usize = 65_536;

/// How many numbers are noted beside the index.
const SLOTS: usize = 65_536;

/// Different cuts in a room that is made once. A contract sees the list of the cuts. The index has the numbers of the
/// first cuts. Those that came after it are fresh: they have an index of their own, by their numbers among themselves,
/// and a place in the index where each belongs, until all are merged. Beside the index, each slot notes the number that
/// was last asked for a cut of this slot, and a note is looked at before the index is searched.
#[derive(Drop)]
pub struct CutIndex {
    cuts: Vec<Cut>,
    index: Vec<u32>,
    fresh: Vec<u32>,
    places: Vec<u32>,
    notes: Vec<u32>,
}

impl Model for CutIndex {
    ghost use Rattle.std.specs.Prelude.{List, ◌≤◌, length};
    ghost use Rattle.std.specs.Vec.{vec_capacity};
    ghost use Rattle.lop_cuts.specs.declared.kind.CutKind.{CutKind};
    ghost use Rattle.lop_core.specs.Records.{AreDifferentCuts, cut_room};
    ghost use Rattle.lop_core.specs.CutIndex.{ArePending, HavePendingRooms};

    ghost Value = { List CutKind };

    ghost view = { λ c. c.cuts.items };

    ghost invariant = { λ c. AreDifferentCuts c.cuts.items × ArePending c.cuts.items c.index.items c.fresh.items c.places.items × (cut_room ≤ vec_capacity c.index) × HavePendingRooms (length c.cuts.items) (vec_capacity c.cuts) (vec_capacity c.fresh) (vec_capacity c.places) };
}

/// The number of the cut, or else the place in the index where it belongs. O(log of the number of cuts).
fn search(cuts: &[Cut], index: &[u32], cut: &Cut) -> Result<u32, usize>
    requires { IsCutIndex cuts.now index.now }
    ensures found { IfOk result (λ number. IsNumberOf cuts.now cut.now number) }
    ensures gap { IfErr result (λ place. IsGap cuts.now index.now cut.now place) }
{
    let mut low = 0;
    let mut high = index.len();
    while low < high {
        let middle = low + (high - low) / 2;
        let number = index[middle];
        match cuts[number as usize].cmp(cut) {
            Ordering::Equal => return Ok(number),
            Ordering::Less => low = middle + 1,
            Ordering::Greater => high = middle,
        }
    }
    Err(low)
}

/// Mixes objects into a number of 32 bits, the upper ones best.
fn mixed(from: u32, objects: &[u16]) -> u32 {
    let mut mix = from;
    for object in objects {
        mix = mix
            .wrapping_add(u32::from(*object))
            .wrapping_mul(0x9E37_79B1);
    }
    mix
}

/// Mixes the objects of cycles, in turn.
fn mixed_cycles(cycles: &[Cycle]) -> u32 {
    let mut mix = 0;
    for cycle in cycles {
        mix = mixed(mix, cycle.objects());
    }
    mix
}

/// The slot of a cut, by all its objects.
fn slot_of(cut: &Cut) -> usize {
    let mix = match cut.kind() {
        CutKind::Dicycle(objects) => mixed(0, objects),
        CutKind::Fence { u, w } => mixed(mixed(0, u), w),
        CutKind::Ladder(cycles) => mixed_cycles(cycles),
    };
    (mix >> 16) as usize
}

/// The number that a slot notes, if it is this cut's.
fn noted(cuts: &[Cut], notes: &[u32], slot: usize, cut: &Cut) -> Option<u32>
    ensures { IfSome result (λ number. IsNumberOf cuts.now cut.now number) }
{
    let number = *notes.get(slot)?;
    if (number as usize) < cuts.len() && cuts[number as usize] == *cut {
        Some(number)
    } else {
        None
    }
}

/// The number of the cut, or else the place in the index where it belongs. O(1) where its slot notes it, and else
/// O(log of the number of cuts).
fn find(cuts: &[Cut], index: &[u32], notes: &[u32], slot: usize, cut: &Cut) -> Result<u32, usize>
    requires { IsCutIndex cuts.now index.now }
    ensures found { IfOk result (λ number. IsNumberOf cuts.now cut.now number) }
    ensures gap { IfErr result (λ place. IsGap cuts.now index.now cut.now place) }
{
    match noted(cuts, notes, slot, cut) {
        Some(number) => Ok(number),
        None => search(cuts, index, cut),
    }
}

/// Notes the number in a slot, and answers it.
fn note(notes: &mut [u32], slot: usize, number: u32) -> u32
    ensures { result ≡ number }
{
    if let Some(noted) = notes.get_mut(slot) {
        *noted = number;
    }
    number
}

/// The first so many cuts.
fn first_cuts(cuts: &[Cut], known: usize) -> &[Cut]
    requires { known ≤ length cuts.now }
    ensures { result.now ≡ take known cuts.now }
{
    &cuts[..known]
}

/// The cuts after the first so many.
fn later_cuts(cuts: &[Cut], known: usize) -> &[Cut]
    requires { known ≤ length cuts.now }
    ensures { result.now ≡ drop known cuts.now }
{
    &cuts[known..]
}

/// Puts a cut that isn't in the list at its end: its number goes to its place among the fresh ones.
fn append(cuts: &mut Vec<Cut>, known: usize, fresh: &mut Vec<u32>, cut: &Cut, place: usize) -> u32
    requires known { known ≤ length cuts.old.items }
    requires fresh { IsCutIndex (drop known cuts.old.items) fresh.old.items }
    requires gap { IsGap (drop known cuts.old.items) fresh.old.items cut.now place }
    requires room { length cuts.old.items < cut_room }
    requires for_cuts { length cuts.old.items < vec_capacity cuts.old }
    requires for_fresh { length cuts.old.items < vec_capacity fresh.old }
    ensures cuts { cuts.new.items ≡ cuts.old.items ++ cut.now ∷ [] }
    ensures fresh { IsCutIndex (drop known cuts.new.items) fresh.new.items }
    ensures number { result ≡ length cuts.old.items }
    ensures for_cuts { vec_capacity cuts.old ≤ vec_capacity cuts.new }
    ensures for_fresh { vec_capacity fresh.old ≤ vec_capacity fresh.new }
{
    let number = cuts.len();
    put_last(cuts, cut.copy());
    let _ = fresh.insert(place, (number - known) as u32);
    number as u32
}

/// The number of a cut that the index doesn't have. Where it isn't among the fresh ones, it is put at the end of the
/// list, with the place in the index where it belongs. O(log of the number of fresh cuts) to find it, and O(that
/// number) to put it.
fn number_fresh(
    cuts: &mut Vec<Cut>,
    index: &[u32],
    fresh: &mut Vec<u32>,
    places: &mut Vec<u32>,
    cut: &Cut,
    place: usize,
) -> u32
    requires pending { ArePending cuts.old.items index.now fresh.old.items places.old.items }
    requires gap { IsGap (take (length index.now) cuts.old.items) index.now cut.now place }
    requires room { is_new cuts.old.items cut.now ≡ true → length cuts.old.items < cut_room }
    requires rooms { HavePendingRooms (length cuts.old.items) (vec_capacity cuts.old) (vec_capacity fresh.old) (vec_capacity places.old) }
    ensures cuts { cuts.new.items ≡ (if is_new cuts.old.items cut.now then cuts.old.items ++ cut.now ∷ [] else cuts.old.items) }
    ensures number { IsNumberOf cuts.new.items cut.now result }
    ensures pending { ArePending cuts.new.items index.now fresh.new.items places.new.items }
    ensures rooms { HavePendingRooms (length cuts.new.items) (vec_capacity cuts.new) (vec_capacity fresh.new) (vec_capacity places.new) }
{
    let known = index.len();
    match search(later_cuts(cuts, known), fresh, cut) {
        Ok(number) => known as u32 + number,
        Err(at) => {
            put_last(places, place as u32);
            append(cuts, known, fresh, cut, at)
        }
    }
}

/// Puts so many zeros at the end. O(that number).
fn put_zeros(list: &mut Vec<u32>, count: usize)
    requires { vec_len list.old + count ≤ vec_capacity list.old }
    ensures front { take (vec_len list.old) list.new.items ≡ list.old.items }
    ensures count { length list.new.items ≡ length list.old.items + count }
    ensures room { vec_capacity list.old ≤ vec_capacity list.new }
{
    for _ in 0..count {
        put_last(list, 0);
    }
}

/// Moves the stretch from the place up to `low` behind the numbers that are left and the one that goes to the place.
/// O(the stretch).
fn move_up(index: &mut [u32], place: usize, low: usize, left: usize, number: u32)
    requires at_most { place ≤ low }
    requires inside { low + left < length index.old }
    ensures len { length index.new ≡ length index.old }
    ensures number { slice_index index.new (place + left) ≡ number }
    ensures below { (k : ℕ) → k < place + left → slice_index index.new k ≡ slice_index index.old k }
    ensures moved { (k : ℕ) → place ≤ k → k < low → slice_index index.new (k + left + 1) ≡ slice_index index.old k }
    ensures above { (k : ℕ) → low + left + 1 ≤ k → slice_index index.new k ≡ slice_index index.old k }
{
    index.copy_within(place..low, place + left + 1);
    index[place + left] = number;
}

/// Merges the fresh numbers into the list, whose first entries are the index, from the back: each stretch between two
/// of their places is moved once. O(the length of the list).
fn merge_into(cuts: &[Cut], list: &mut [u32], known: usize, fresh: &[u32], places: &[u32])
    requires known { known + length fresh.now ≡ length list.old }
    requires pending { ArePending cuts.now (take known list.old) fresh.now places.now }
    requires few { length cuts.now ≤ cut_room }
    ensures { IsCutIndex cuts.now list.new }
{
    let _count = cuts.len();
    let mut low = known;
    let mut left = fresh.len();
    while left > 0 {
        left -= 1;
        let number = fresh[left] as usize;
        let place = places[number] as usize;
        move_up(list, place, low, left, (known + number) as u32);
        low = place;
    }
}

/// Merges the fresh numbers into the index. O(its length).
fn merge(cuts: &[Cut], index: &mut Vec<u32>, fresh: &[u32], places: &[u32])
    requires pending { ArePending cuts.now index.old.items fresh.now places.now }
    requires few { length cuts.now ≤ cut_room }
    requires room { cut_room ≤ vec_capacity index.old }
    ensures index { IsCutIndex cuts.now index.new.items }
    ensures room { cut_room ≤ vec_capacity index.new }
{
    let known = index.len();
    put_zeros(index, fresh.len());
    merge_into(cuts, index, known, fresh, places);
}

impl CutIndex {
    /// Takes room for 65,536 cuts. It has none.
    pub fn new(alloc: Global) -> Result<Self, AllocError>
        ensures { IfOk result (λ cuts. cuts ≡ []) }
    {
        Ok(CutIndex {
            cuts: Vec::with_capacity(alloc, CUT_ROOM)?,
            index: Vec::with_capacity(alloc, CUT_ROOM)?,
            fresh: Vec::with_capacity(alloc, CUT_ROOM)?,
            places: Vec::with_capacity(alloc, CUT_ROOM)?,
            notes: vec![in alloc; 0; SLOTS]?,
        })
    }

    /// The number of cuts.
    pub fn len(&self) -> usize
        ensures value { result ≡ length self.now }
        ensures different { AreDifferentCuts self.now }
        ensures within_limit { result ≤ cut_room }
    {
        self.cuts.len()
    }

    /// The cut of a number.
    pub fn get(&self, number: u32) -> &Cut
        requires { number < length self.now }
        ensures { IsNumberOf self.now result.now number }
    {
        &self.cuts[number as usize]
    }

    /// Whether the cut isn't in the list. At most O(log of the number of cuts).
    pub fn misses(&self, cut: &Cut) -> bool
        ensures { result ≡ is_new self.now cut.now }
    {
        let known = self.index.len();
        let slot = slot_of(cut);
        match find(
            first_cuts(&self.cuts, known),
            &self.index,
            &self.notes,
            slot,
            cut,
        ) {
            Ok(_) => false,
            Err(_) => search(later_cuts(&self.cuts, known), &self.fresh, cut).is_err(),
        }
    }

    /// The number of the cut, which is put at the end of the list where it isn't there yet. At most O(log of the
    /// number of cuts) to find it, and O(the number of fresh cuts) to put it.
    pub fn number_of(&mut self, cut: &Cut) -> u32
        requires { is_new self.old cut.now ≡ true → length self.old < cut_room }
        ensures cuts { self.new ≡ (if is_new self.old cut.now then self.old ++ cut.now ∷ [] else self.old) }
        ensures number { IsNumberOf self.new cut.now result }
    {
        let _kind = cut.kind();
        let known = self.index.len();
        let slot = slot_of(cut);
        match find(
            first_cuts(&self.cuts, known),
            &self.index,
            &self.notes,
            slot,
            cut,
        ) {
            Ok(number) => note(&mut self.notes, slot, number),
            Err(place) => {
                let number = number_fresh(
                    &mut self.cuts,
                    &self.index,
                    &mut self.fresh,
                    &mut self.places,
                    cut,
                    place,
                );
                note(&mut self.notes, slot, number)
            }
        }
    }

    /// Merges the fresh cuts into the index. O(the number of cuts), and O(1) where none is fresh.
    pub fn settle(&mut self)
        ensures { self.new ≡ self.old }
    {
        if self.fresh.is_empty() {
            return;
        }
        merge(&self.cuts, &mut self.index, &self.fresh, &self.places);
        self.fresh.clear();
        self.places.clear();
    }
}
