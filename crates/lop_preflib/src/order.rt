// Order lines.
ghost use Rattle.std.specs.Prelude.{◌≡◌, ◌+◌, ◌≤◌, true, false, None, map, slice_index_or, slice_set, IfOk, IfErr, OnOk, if◌then◌else◌};
ghost use Rattle.lop_preflib.specs.Line.{pieces_in, object_of};
ghost use Rattle.lop_preflib.specs.Groups.{item_of, groups_in, are_bad_ties};
ghost use Rattle.lop_preflib.specs.Refusal.{items_refusal, order_refusal};
ghost use Rattle.lop_preflib.specs.Steps.{IsStop, IsOrderRead};

use crate::groups::{has_bad_ties, parts_of};
use crate::pieces::Pieces;
use crate::profile::{MAX_ALTERNATIVES, MAX_VOTERS};
use crate::ranking::Ranking;
use crate::refusal::PrefRefusal;
use crate::text::{cut, number_up_to, trim};

/// Reads an order line: it answers the count, and leaves the objects and their group numbers in `ranking`. O(bytes).
pub(crate) fn read_order(
    line: &[u8],
    n: u16,
    voters: u64,
    number: u64,
    ranking: &mut Ranking,
) -> Result<u64, PrefRefusal>
    requires within_limit { n ≤ MAX_ALTERNATIVES }
    requires few { voters ≤ MAX_VOTERS }
    ensures order { IfOk result (λ count. IsOrderRead line.now n voters number count ranking.new.objects.items ranking.new.groups.items) }
    ensures refusal { IfErr result (IsStop (order_refusal n voters number line.now)) }
{
    let Some((front, list)) = cut(b':', trim(line)) else {
        return Err(PrefRefusal::BadLine(number));
    };
    let Some(count) = number_up_to(trim(front), MAX_VOTERS) else {
        return Err(PrefRefusal::BadCount(number));
    };
    if has_bad_ties(list) {
        return Err(PrefRefusal::Ties(number));
    }
    read_items(list, n, number, ranking)?;
    if voters + count > MAX_VOTERS {
        return Err(PrefRefusal::TooMany(number));
    }
    Ok(count)
}

// Notes a number, and answers whether it was noted before.
fn note(seen: &mut [bool; 513], number: u16) -> bool
    requires { number ≤ MAX_ALTERNATIVES }
    ensures stood { result ≡ slice_index_or seen.old number false }
    ensures noted { seen.new ≡ slice_set seen.old number true }
{
    let stood = seen[number as usize];
    seen[number as usize] = true;
    stood
}

// The number of the next group, where the one with this number is left open or isn't.
fn next_group(group: u16, inside: bool) -> u16
    requires { group ≤ MAX_ALTERNATIVES }
    ensures { result ≡ group + (if inside then 0 else 1) }
{
    if inside { group } else { group + 1 }
}

// Reads the items of an order, whose braces make groups.
fn read_items(list: &[u8], n: u16, number: u64, ranking: &mut Ranking) -> Result<(), PrefRefusal>
    requires within_limit { n ≤ MAX_ALTERNATIVES }
    requires ties { are_bad_ties (pieces_in list.now) ≡ false }
    ensures objects { OnOk result (ranking.new.objects.items ≡ map object_of (map item_of (pieces_in list.now))) }
    ensures groups { OnOk result (ranking.new.groups.items ≡ groups_in (pieces_in list.now)) }
    ensures good { OnOk result (items_refusal n number (map item_of (pieces_in list.now)) ≡ None) }
    ensures refusal { IfErr result (IsStop (items_refusal n number (map item_of (pieces_in list.now)))) }
{
    ranking.clear();
    let mut seen = [false; 513];
    let mut inside = false;
    let mut group = 0;
    for text in (Pieces { rest: Some(list) }) {
        let piece = parts_of(text);
        let Some(value) = number_up_to(piece.item, n as u64) else {
            return Err(PrefRefusal::BadAlternative(number));
        };
        if note(&mut seen, value as u16) {
            return Err(PrefRefusal::Repeated(number));
        }
        ranking.push(value as u16 - 1, group)?;
        inside = piece.leaves_open(inside);
        group = next_group(group, inside);
    }
    Ok(())
}
