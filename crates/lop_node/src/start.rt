// What the list of rows starts with beside those of an inherited record: dicycles that are packed by falling thresholds
// into what the record leaves, each for an arc that goes back in a good order, bundles of such arcs, and dicycles
// without a multiplier beside them.
ghost use Rattle.std.specs.Prelude.{◌≡◌, length};

use crate::bundle::{Bundle, bundle_arc};
use crate::margins::{MOST, Margins, Span};
use lop_ascent::AscentRoom;
use lop_cuts::Cut;
use lop_fix::Fixings;
use lop_leaf::LeafRecord;
use lop_model::{Order, Weights};

/// The most dicycles with multipliers that are packed for arcs one by one.
const MOST_SINGLE: usize = 2_560;

/// The most rows with multipliers.
const MOST_PACKED: usize = 3_584;

/// The most rows that a list starts with, where those without a multiplier fill it.
const MOST_STARTED: usize = 3_072;

/// The most thresholds: each is at most 7/8 of the one before.
const MOST_THRESHOLDS: u32 = 330;

/// What is done with an arc that goes back.
#[derive(Clone, Copy, PartialEq, Eq)]
enum Way {
    /// Dicycles by way of objects between its ends are packed.
    Between,
    /// Dicycles by way of objects before both ends are packed.
    Before,
    /// It is bundled with others.
    Bundled,
    /// The best dicycle is added without a multiplier.
    BestBeside,
    /// The second best is.
    SecondBeside,
}

/// A pass over the arcs that go back: until there are so many rows, by thresholds that fall to that part less than they
/// were, as long as they are above the least.
#[derive(Clone, Copy)]
struct Pass {
    way: Way,
    most: usize,
    part: i64,
    least: i64,
}

/// The margins at which a pass looks: from the threshold to below `above`.
#[derive(Clone, Copy)]
struct Band {
    threshold: i64,
    above: i64,
}

/// The object at a place, or 0 where there is none.
pub fn object_at(order: &Order, place: usize) -> u16 {
    if place < order.n() as usize {
        order.at(place as u16)
    } else {
        0
    }
}

/// The objects of a dicycle in turn from the least on, as separation has them, so that equal dicycles are equal cuts.
fn least_first(a: u16, b: u16, c: u16) -> (u16, u16, u16) {
    if b < a && b < c {
        (b, c, a)
    } else if c < a && c < b {
        (c, a, b)
    } else {
        (a, b, c)
    }
}

/// Adds the dicycle of the objects at three places as a row, with a multiplier at the scale of records.
fn add_dicycle(ascent: &mut AscentRoom, order: &Order, arc: Span, third: usize, multiplier: i64)
    ensures { ascent.new.size ≡ ascent.old.size }
{
    let (a, b, c) = least_first(
        object_at(order, arc.from),
        object_at(order, arc.to),
        object_at(order, third),
    );
    if let Ok(cut) = Cut::dicycle(a, b, c, ascent.n()) {
        let scale = ascent.record_scale();
        let _reply = ascent.add_row(&cut, multiplier.unsigned_abs(), scale);
    }
}

/// Takes the best dicycle of an arc, if the least margin of its arcs reaches the threshold. Answers whether it did.
/// O(n).
fn pack_once(
    margins: &mut Margins,
    ascent: &mut AscentRoom,
    order: &Order,
    arc: Span,
    threshold: i64,
    way: Way,
) -> bool
    ensures { ascent.new.size ≡ ascent.old.size }
{
    let thirds = match way {
        Way::Before => margins.thirds(arc, 0, arc.to),
        Way::Between | Way::Bundled | Way::BestBeside | Way::SecondBeside => {
            margins.thirds(arc, arc.to.wrapping_add(1), arc.from)
        }
    };
    let most = thirds.first_margin.min(margins.free(arc));
    if most < threshold {
        margins.note_reach(arc, most);
        return false;
    }
    let third = thirds.first;
    margins.lessen(arc, most);
    margins.lessen(
        Span {
            from: arc.to,
            to: third,
        },
        most,
    );
    margins.lessen(
        Span {
            from: third,
            to: arc.from,
        },
        most,
    );
    add_dicycle(ascent, order, arc, third, most);
    true
}

/// Takes dicycles of an arc as long as their margins reach the threshold. O(n) each.
fn pack_arc(
    margins: &mut Margins,
    ascent: &mut AscentRoom,
    order: &Order,
    arc: Span,
    threshold: i64,
    pass: Pass,
)
    ensures { ascent.new.size ≡ ascent.old.size }
{
    for _again in 0..order.n() {
        if ascent.len() >= pass.most || !margins.may_reach(arc, threshold) {
            return;
        }
        if !pack_once(margins, ascent, order, arc, threshold, pass.way) {
            return;
        }
    }
}

/// Adds a dicycle of an arc without a multiplier, if its margin is within the band: the best one, or the second best.
/// O(n).
fn add_beside(
    margins: &Margins,
    ascent: &mut AscentRoom,
    order: &Order,
    arc: Span,
    band: Band,
    is_second: bool,
)
    ensures { ascent.new.size ≡ ascent.old.size }
{
    let margin = margins.free(arc);
    if margin < band.threshold || margin >= band.above {
        return;
    }
    let thirds = margins.thirds(arc, arc.to.wrapping_add(1), arc.from);
    if is_second {
        if thirds.second_margin > 0 {
            add_dicycle(ascent, order, arc, thirds.second, 0);
        }
    } else if thirds.first_margin > 0 {
        add_dicycle(ascent, order, arc, thirds.first, 0);
    }
}

/// Does with an arc what the pass is for. Answers the bundle that is gathered then.
fn visit(
    margins: &mut Margins,
    ascent: &mut AscentRoom,
    order: &Order,
    arc: Span,
    pass: Pass,
    band: Band,
    bundle: Bundle,
) -> Bundle
    ensures { ascent.new.size ≡ ascent.old.size }
{
    match pass.way {
        Way::Between | Way::Before => {
            pack_arc(margins, ascent, order, arc, band.threshold, pass);
            bundle
        }
        Way::Bundled => bundle_arc(margins, ascent, order, arc, band.threshold, bundle),
        Way::BestBeside => {
            add_beside(margins, ascent, order, arc, band, false);
            bundle
        }
        Way::SecondBeside => {
            add_beside(margins, ascent, order, arc, band, true);
            bundle
        }
    }
}

/// Visits all arcs that go back, at a threshold. O(n²), and O(n) for each arc that reaches it.
fn sweep_at(margins: &mut Margins, ascent: &mut AscentRoom, order: &Order, pass: Pass, band: Band)
    ensures { ascent.new.size ≡ ascent.old.size }
{
    let mut bundle = Bundle::NONE;
    for from in 0..margins.places() {
        for to in 0..from {
            if ascent.len() >= pass.most {
                return;
            }
            bundle = visit(
                margins,
                ascent,
                order,
                Span { from, to },
                pass,
                band,
                bundle,
            );
        }
    }
}

/// Visits the arcs by thresholds that fall from the greatest margin.
fn sweep(margins: &mut Margins, ascent: &mut AscentRoom, order: &Order, pass: Pass)
    ensures { ascent.new.size ≡ ascent.old.size }
{
    margins.forget_reach();
    let mut band = Band {
        threshold: margins.greatest_back(),
        above: MOST,
    };
    for _step in 0..MOST_THRESHOLDS {
        if band.threshold <= pass.least || ascent.len() >= pass.most {
            return;
        }
        sweep_at(margins, ascent, order, pass, band);
        let less = fallen(band.threshold, pass.part);
        band = Band {
            threshold: less,
            above: band.threshold,
        };
    }
}

/// The next threshold: that part less, and at least 1 less.
fn fallen(threshold: i64, part: i64) -> i64 {
    let by = if part >= 8 {
        threshold / 8
    } else {
        threshold / 2
    };
    threshold.saturating_sub(by.max(1))
}

/// Packs by the residuals: dicycles for each arc, bundles where there are many, and dicycles by way of other objects.
fn pack(margins: &mut Margins, ascent: &mut AscentRoom, order: &Order, part: i64, least: i64)
    ensures { ascent.new.size ≡ ascent.old.size }
{
    let single = Pass {
        way: Way::Between,
        most: MOST_SINGLE,
        part,
        least,
    };
    sweep(margins, ascent, order, single);
    if ascent.len() >= MOST_SINGLE {
        let bundled = Pass {
            way: Way::Bundled,
            most: MOST_PACKED,
            ..single
        };
        sweep(margins, ascent, order, bundled);
    }
    let before = Pass {
        way: Way::Before,
        most: MOST_PACKED,
        ..single
    };
    sweep(margins, ascent, order, before);
}

/// Adds dicycles without multipliers for the arcs that go back, by falling margins.
fn fill_up(margins: &mut Margins, ascent: &mut AscentRoom, order: &Order, least: i64)
    ensures { ascent.new.size ≡ ascent.old.size }
{
    let best = Pass {
        way: Way::BestBeside,
        most: MOST_STARTED,
        part: 8,
        least,
    };
    sweep(margins, ascent, order, best);
    let second = Pass {
        way: Way::SecondBeside,
        ..best
    };
    sweep(margins, ascent, order, second);
}

/// Adds rows beside those of the inherited record, by an order that is good already.
pub fn start_rows(
    weights: &Weights,
    fixings: &Fixings,
    start: &LeafRecord,
    order: &Order,
    margins: &mut Margins,
    ascent: &mut AscentRoom,
)
    requires fixings { fixings.now.size ≡ weights.now.size }
    requires order { length order.now ≡ weights.now.size }
    ensures { ascent.new.size ≡ ascent.old.size }
{
    let scale = ascent.record_scale();
    margins.fill(weights, fixings, order, scale);
    margins.charge(start, scale);
    let least = margins.sum_back() >> 20;
    let part = if start.len() == 0 { 8 } else { 2 };
    pack(margins, ascent, order, part, least);
    margins.fill(weights, fixings, order, scale);
    margins.charge(start, scale);
    fill_up(margins, ascent, order, least);
}
