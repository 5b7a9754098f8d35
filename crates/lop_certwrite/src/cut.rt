// The line of a cut.
ghost use Rattle.std.specs.Prelude.{◌≡◌, ◌+◌, ◌≤◌, ◌∷◌, ◌++◌, length, pos, All};
ghost use Rattle.std.specs.List.{flat_map};
ghost use Rattle.arrayvec.specs.ArrayVec.{array_vec_len};
ghost use Rattle.lop_cuts.specs.Kind.{IsCut};
ghost use Rattle.lop_certtext.specs.CutLine.{cut_line, cycle_numbers, IsShapedCut, IsShapedCycle};

use crate::line::{Numbers, push_objects};
use lop_certtext::CertWord;
use lop_cuts::{Cut, CutKind, Cycle};

/// Appends how many objects a cycle has, and the objects.
fn push_cycle(cycle: &Cycle, numbers: &mut Numbers)
    requires { array_vec_len numbers.old + 5 ≤ 8194 }
    ensures items { numbers.new.items ≡ numbers.old.items ++ cycle_numbers cycle.now }
    ensures len { array_vec_len numbers.new ≤ array_vec_len numbers.old + 5 }
    ensures shaped { IsShapedCycle cycle.now }
{
    match cycle {
        Cycle::Three(objects) => {
            numbers.push(3);
            push_objects(objects, numbers);
        }
        Cycle::Four(objects) => {
            numbers.push(4);
            push_objects(objects, numbers);
        }
    }
}

/// Appends how many cycles there are, and the cycles.
fn push_cycles(cycles: &[Cycle], numbers: &mut Numbers)
    requires room { array_vec_len numbers.old ≡ 0 }
    requires few { length cycles.now ≤ 9 }
    ensures items { numbers.new.items ≡ pos (length cycles.now) ∷ flat_map cycle_numbers cycles.now }
    ensures len { array_vec_len numbers.new ≤ 46 }
    ensures shaped { All IsShapedCycle cycles.now }
{
    numbers.push(cycles.len() as i64);
    for cycle in cycles {
        push_cycle(cycle, numbers);
    }
}

/// Leaves the numbers of a cut's line, and answers its first word.
pub fn fill_cut(cut: &Cut, numbers: &mut Numbers) -> CertWord
    ensures line { record { word = result; numbers = numbers.new.items } ≡ cut_line cut.now }
    ensures few { length numbers.new.items ≤ 46 }
    ensures shaped { IsShapedCut cut.now }
{
    numbers.clear();
    match cut.kind() {
        CutKind::Dicycle(objects) => {
            push_objects(objects, numbers);
            CertWord::Dicycle
        }
        CutKind::Fence { u, w } => {
            numbers.push(u.len() as i64);
            push_objects(u, numbers);
            push_objects(w, numbers);
            CertWord::Fence
        }
        CutKind::Ladder(cycles) => {
            push_cycles(cycles, numbers);
            CertWord::Ladder
        }
    }
}
