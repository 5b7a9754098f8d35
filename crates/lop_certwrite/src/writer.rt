// The certificate of a search, from its core.
ghost use Rattle.std.specs.Prelude.{◌≡◌, ◌+◌, ◌≤◌, ◌<◌, length, OnOk};
ghost use Rattle.lop_desk.specs.Desk.{IsMaking};
ghost use Rattle.lop_desk.specs.Whole.{WritesAll};
ghost use Rattle.lop_desk.specs.Causes.{HasCause};
ghost use Rattle.lop_certtext.specs.declared.version.CertVersion.TheVariants.{Two};
ghost use Rattle.lop_certtext.specs.Certificate.{Certificate, HasText, IsTreeCertificate, certificate_text};
ghost use Rattle.lop_certtext.specs.Tree.{tree_size};
ghost use Rattle.lop_certwrite.specs.CoreTree.{IsCertificateOf, WholeTree};
ghost use Rattle.lop_certwrite.specs.Names.{IsNaming};
ghost use Rattle.lop_core.specs.declared.search.TheConstants.{MAX_BUDGET};

use crate::body::write_body;
use crate::head::{write_bound_lines, write_order_lines};
use crate::line::{Numbers, narrow};
use crate::names::{Names, WriteRoom};
use lop_core::Core;
use lop_desk::{Desk, DeskFailed, TextRoom};

/// Writes all lines, where the records that leaves use have their names.
fn write_lines<D: Desk>(
    core: &Core,
    names: &Names,
    desk: &mut D,
    room: &mut TextRoom,
) -> Result<(), DeskFailed>
    requires making { IsMaking (D.told desk.old) }
    requires for_numbers { core.now.state.evaluated < length names.now.places.items }
    requires few { length names.now.places.items ≤ MAX_BUDGET + 1 }
    requires naming { (whole : WholeTree core.now.state.nodes) → IsNaming core.now.book.numbers whole.tree names.now.users.items names.now.places.items }
    ensures text { (c : Certificate) × IsCertificateOf core.now c × WritesAll (D.told desk.old) (D.told desk.new) (certificate_text Two c) result }
    ensures holds { OnOk result ((c : Certificate) → IsCertificateOf core.now c → IsTreeCertificate core.now.problem.weights c) }
    ensures cause { HasCause (D.faults desk.old) (D.faults desk.new) result }
{
    let mut numbers = Numbers::new();
    let order = core.best_order();
    prove_eq!(order.n(), core.weights().n());
    let value = narrow(core.best());
    let bound = narrow(core.bound());
    write_order_lines(order, value, &mut numbers, desk, room)?;
    write_bound_lines(bound, core.cuts(), desk, room)?;
    write_body(core, names, &mut numbers, desk, room)
}

/// Appends the text, in version 2, of the core's certificate to the file that is being made: best with its order, the
/// core's bound, its cuts in order, the records that leaves use, each once, in the order of their first use in
/// preorder, and its tree, which has at least as many nodes as were evaluated, with one call of `write_all` for each
/// line. It takes no memory.
/// O(the number of bytes and of nodes).
pub fn write_certificate<D: Desk>(
    core: &Core,
    desk: &mut D,
    room: &mut TextRoom,
    names: &mut WriteRoom,
) -> Result<(), DeskFailed>
    requires making { IsMaking (D.told desk.old) }
    requires for_budget { core.now.problem.budget ≤ names.old }
    ensures text { (c : Certificate) × IsCertificateOf core.now c × WritesAll (D.told desk.old) (D.told desk.new) (certificate_text Two c) result }
    ensures has_text { (c : Certificate) → IsCertificateOf core.now c → HasText Two c }
    ensures holds { OnOk result ((c : Certificate) → IsCertificateOf core.now c → IsTreeCertificate core.now.problem.weights c) }
    ensures evaluated { (c : Certificate) → IsCertificateOf core.now c → core.now.state.evaluated ≤ tree_size c.tree }
    ensures cause { HasCause (D.faults desk.old) (D.faults desk.new) result }
    ensures same_room { names.new ≡ names.old }
{
    prove!(core.evaluated() <= core.budget());
    prove!(core.record_of(0) <= core.evaluated());
    prove!(core.cuts() <= 65_536);
    names.names.find(core);
    write_lines(core, &names.names, desk, room)
}
