// The line of a record.
ghost use Rattle.std.specs.Prelude.{◌≡◌, ◌≤◌, ◌<◌, length};
ghost use Rattle.lop_core.specs.Records.{IsNodeRecord, record_at};
ghost use Rattle.lop_certtext.specs.RecordLine.{record_numbers};
ghost use Rattle.lop_certwrite.specs.CoreTree.{cert_record_of};

use crate::line::Numbers;
use lop_core::Core;

/// Leaves the numbers of the line of a node's record: its scale, how many terms it has, and the terms, whose cuts
/// count from 1.
pub fn fill_record(core: &Core, node: u32, numbers: &mut Numbers)
    requires { node < length core.now.state.nodes }
    ensures terms { IsNodeRecord (length core.now.book.cuts) (record_at core.now.book.records node) }
    ensures numbers { numbers.new.items ≡ record_numbers (cert_record_of (record_at core.now.book.records node)) }
{
    let view = core.node(node);
    numbers.clear();
    numbers.push(i64::from(view.scale));
    numbers.push(i64::from(view.terms));
    for index in 0..view.terms {
        let (cut, multiplier) = core.term(node, index);
        numbers.push(i64::from(cut) + 1);
        numbers.push(multiplier as i64);
    }
}
