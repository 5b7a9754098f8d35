// Bundles of arcs that go back in an order: one ladder of nine dicycles covers five of them at once, each by way of two
// third objects but for the first, which has one.
ghost use Rattle.std.specs.Prelude.{◌≡◌};

use crate::margins::{MOST, Margins, Span};
use crate::start::object_at;
use lop_ascent::AscentRoom;
use lop_cuts::{Cut, Cycle};
use lop_model::Order;

/// How many arcs a bundle covers.
const MEMBERS: usize = 5;

/// An arc that goes back, and the places of two third objects.
#[derive(Clone, Copy)]
struct Member {
    arc: Span,
    first: usize,
    second: usize,
}

/// Arcs that are gathered, and the least margin of all arcs of their dicycles.
#[derive(Clone, Copy)]
pub struct Bundle {
    members: [Member; 5],
    count: usize,
    least: i64,
}

impl Member {
    /// The member at which there is none: its arcs go nowhere.
    const NONE: Member = Member {
        arc: Span { from: 0, to: 0 },
        first: 0,
        second: 0,
    };

    /// Whether a dicycle of the member has the arc.
    fn has_arc(self, from: usize, to: usize) -> bool {
        let third = if from == self.arc.to { to } else { from };
        if from == self.arc.from {
            to == self.arc.to
        } else if from == self.arc.to || to == self.arc.from {
            third == self.first || third == self.second
        } else {
            false
        }
    }

    /// A dicycle of the member, by way of a third place.
    fn cycle(self, order: &Order, third: usize) -> Cycle {
        Cycle::Three([
            object_at(order, self.arc.from),
            object_at(order, self.arc.to),
            object_at(order, third),
        ])
    }

    /// Takes an amount from the margins of the arcs by way of a third place.
    fn lessen(self, margins: &mut Margins, third: usize, by: i64) {
        margins.lessen(
            Span {
                from: self.arc.to,
                to: third,
            },
            by,
        );
        margins.lessen(
            Span {
                from: third,
                to: self.arc.from,
            },
            by,
        );
    }

    /// Takes an amount from the margins of all arcs of the member.
    fn lessen_all(self, margins: &mut Margins, by: i64) {
        margins.lessen(self.arc, by);
        self.lessen(margins, self.first, by);
        if self.second != self.first {
            self.lessen(margins, self.second, by);
        }
    }
}

impl Bundle {
    /// No arc.
    pub const NONE: Bundle = Bundle {
        members: [Member::NONE; 5],
        count: 0,
        least: MOST,
    };

    /// Whether a dicycle of the bundle has the arc.
    fn has_arc(&self, from: usize, to: usize) -> bool {
        for member in &self.members {
            if member.has_arc(from, to) {
                return true;
            }
        }
        false
    }

    /// Whether a dicycle of the bundle has an arc of the member.
    fn meets(&self, member: Member) -> bool {
        self.has_arc(member.arc.from, member.arc.to)
            || self.has_arc(member.arc.to, member.first)
            || self.has_arc(member.first, member.arc.from)
            || self.has_arc(member.arc.to, member.second)
            || self.has_arc(member.second, member.arc.from)
    }

    /// The bundle with one member more, whose least margin this is.
    fn with(self, member: Member, least: i64) -> Bundle {
        let mut members = self.members;
        if self.count < MEMBERS {
            members[self.count] = member;
        }
        Bundle {
            members,
            count: self.count.wrapping_add(1),
            least: self.least.min(least),
        }
    }

    /// The dicycles of five members, by way of the first third places of all and the second ones of all but the first.
    fn cycles(&self, order: &Order) -> [Cycle; 9] {
        let mut cycles = [Cycle::Three([0; 3]); 9];
        for k in 0..MEMBERS {
            let member = self.members[k];
            cycles[k] = member.cycle(order, member.first);
            if k > 0 {
                cycles[k + 4] = member.cycle(order, member.second);
            }
        }
        cycles
    }

    /// Takes the least margin from all arcs.
    fn lessen_all(&self, margins: &mut Margins) {
        for member in &self.members {
            member.lessen_all(margins, self.least);
        }
    }

    /// Adds the ladder of five members as a row, with their least margin as its multiplier.
    fn take(&self, margins: &mut Margins, ascent: &mut AscentRoom, order: &Order)
        ensures { ascent.new.size ≡ ascent.old.size }
    {
        let cycles = self.cycles(order);
        if let Ok(cut) = Cut::ladder(&cycles, ascent.n()) {
            let scale = ascent.record_scale();
            let _reply = ascent.add_row(&cut, self.least.unsigned_abs(), scale);
            self.lessen_all(margins);
        }
    }
}

/// The arc with its best third places, if they reach the threshold: one for a first member, and two for another.
fn member_of(
    margins: &mut Margins,
    arc: Span,
    threshold: i64,
    is_first: bool,
) -> Option<(Member, i64)> {
    if !margins.may_reach(arc, threshold) {
        return None;
    }
    let thirds = margins.thirds(arc, arc.to.wrapping_add(1), arc.from);
    if thirds.first_margin < threshold {
        margins.note_reach(arc, thirds.first_margin);
        return None;
    }
    let least = if is_first {
        thirds.first_margin
    } else {
        thirds.second_margin
    };
    if least < threshold {
        return None;
    }
    let second = if is_first {
        thirds.first
    } else {
        thirds.second
    };
    let member = Member {
        arc,
        first: thirds.first,
        second,
    };
    Some((member, least.min(margins.free(arc))))
}

/// The bundle with an arc more, where its margins reach the threshold and none of its arcs is in the bundle; of five
/// members a ladder becomes a row, and the bundle is empty again. O(n).
pub fn bundle_arc(
    margins: &mut Margins,
    ascent: &mut AscentRoom,
    order: &Order,
    arc: Span,
    threshold: i64,
    bundle: Bundle,
) -> Bundle
    ensures { ascent.new.size ≡ ascent.old.size }
{
    let Some((member, least)) = member_of(margins, arc, threshold, bundle.count == 0) else {
        return bundle;
    };
    if bundle.meets(member) {
        return bundle;
    }
    let more = bundle.with(member, least);
    if more.count < MEMBERS {
        return more;
    }
    more.take(margins, ascent, order);
    Bundle::NONE
}
