// The lines before the cuts.
ghost use Rattle.std.specs.Prelude.{◌≡◌, ◌≤◌, ◌<◌, ◌^◌, length, nat_abs};
ghost use Rattle.lop_model.specs.declared.weights.TheConstants.{MAX_OBJECTS};
ghost use Rattle.lop_desk.specs.Desk.{IsMaking};
ghost use Rattle.lop_desk.specs.Whole.{WritesAll};
ghost use Rattle.lop_desk.specs.Causes.{HasCause};
ghost use Rattle.lop_certtext.specs.Certificate.{text_of};
ghost use Rattle.lop_core.specs.Records.{cut_room};
ghost use Rattle.lop_certwrite.specs.Walk.{bound_lines, order_lines};

use crate::line::{Numbers, fill_order, write_short_line};
use lop_certtext::CertWord;
use lop_desk::{Desk, DeskFailed, TextRoom};
use lop_model::Order;

/// Writes the lines up to the value.
pub fn write_order_lines<D: Desk>(
    order: &Order,
    value: i64,
    numbers: &mut Numbers,
    desk: &mut D,
    room: &mut TextRoom,
) -> Result<(), DeskFailed>
    requires making { IsMaking (D.told desk.old) }
    requires positive { 1 ≤ length order.now }
    requires within_limit { length order.now ≤ MAX_OBJECTS }
    requires value { nat_abs value < 2 ^ 63 }
    ensures effect { WritesAll (D.told desk.old) (D.told desk.new) (text_of (order_lines order.now value)) result }
    ensures cause { HasCause (D.faults desk.old) (D.faults desk.new) result }
{
    write_short_line(CertWord::Version, &[2], desk, room)?;
    write_short_line(CertWord::Objects, &[i64::from(order.n())], desk, room)?;
    fill_order(order, numbers);
    write_short_line(CertWord::OrderLine, numbers, desk, room)?;
    write_short_line(CertWord::Value, &[value], desk, room)
}

/// Writes the bound and the number of cuts.
pub fn write_bound_lines<D: Desk>(
    bound: i64,
    cuts: u32,
    desk: &mut D,
    room: &mut TextRoom,
) -> Result<(), DeskFailed>
    requires making { IsMaking (D.told desk.old) }
    requires bound { nat_abs bound < 2 ^ 63 }
    requires cuts { cuts ≤ cut_room }
    ensures effect { WritesAll (D.told desk.old) (D.told desk.new) (text_of (bound_lines bound cuts)) result }
    ensures cause { HasCause (D.faults desk.old) (D.faults desk.new) result }
{
    write_short_line(CertWord::Bound, &[bound], desk, room)?;
    write_short_line(CertWord::Cuts, &[i64::from(cuts)], desk, room)
}
