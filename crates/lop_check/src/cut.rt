// The cut that a line spells.
ghost use Rattle.std.specs.Prelude.{◌≡◌, ◌≤◌, ◌<◌, ◌&&◌, ◌-◌, int_le, true, pos, ◌∷◌, nat_abs, length, map, Some, None, MatchOption, All, IfSome};
ghost use Rattle.lop_cuts.specs.Kind.{IsCut, FitsCut};
ghost use Rattle.lop_certtext.specs.declared.word.CertWord.TheVariants as words;
ghost use Rattle.lop_certtext.specs.CutLine.{objects_of, name_objects, cycles_of, if_ladder, if_fence, cut_of};

use crate::ladder::cycles_of;
use arrayvec::ArrayVec;
use lop_certtext::CertWord;
use lop_cuts::Cut;

// Whether the number is one of 1 to n.
pub fn is_object(number: i64, n: u16) -> bool
    ensures { result ≡ (int_le (pos 1) number && int_le number (pos n)) }
{
    1 <= number && number <= i64::from(n)
}

// The object that a number of 1 to n stands for.
pub fn object_of(number: i64, n: u16) -> u16
    requires { (int_le (pos 1) number && int_le number (pos n)) ≡ true }
    ensures object { result ≡ nat_abs number - 1 }
    ensures below { result < n }
{
    (number.unsigned_abs() - 1) as u16
}

// Whether each number is one of 1 to n.
pub fn name_objects(numbers: &[i64], n: u16) -> bool
    ensures { result ≡ name_objects n numbers.now }
{
    for number in numbers {
        if !is_object(*number, n) {
            return false;
        }
    }
    true
}

// The objects that numbers of 1 to n stand for.
pub fn objects_of(numbers: &[i64], n: u16) -> ArrayVec<u16, 16>
    requires named { name_objects n numbers.now ≡ true }
    requires few { length numbers.now ≤ 16 }
    ensures { result.items ≡ objects_of numbers.now }
{
    let mut objects = ArrayVec::new();
    for number in numbers {
        objects.push(object_of(*number, n));
    }
    objects
}

// The cut of 1 to n that the line spells. O(n) for a line of n numbers.
pub fn cut_of(word: CertWord, numbers: &[i64], n: u16) -> Option<Cut>
    ensures cut { MatchOption result (cut_of n word numbers.now ≡ None) (λ cut. cut_of n word numbers.now ≡ Some cut) }
    ensures right { IfSome result IsCut }
    ensures fits { IfSome result (FitsCut n) }
{
    match (word, numbers) {
        (CertWord::Dicycle, _) => dicycle_of(numbers, n),
        (CertWord::Fence, [count, posts @ ..]) => fence_of(*count, posts, n),
        (CertWord::Ladder, [count, cycles @ ..]) => ladder_of(*count, cycles, n),
        _ => None,
    }
}

fn dicycle_of(numbers: &[i64], n: u16) -> Option<Cut>
    ensures cut { MatchOption result (cut_of n words.Dicycle numbers.now ≡ None) (λ cut. cut_of n words.Dicycle numbers.now ≡ Some cut) }
    ensures right { IfSome result IsCut }
    ensures fits { IfSome result (FitsCut n) }
{
    if numbers.len() != 3 || !name_objects(numbers, n) {
        return None;
    }
    let objects = objects_of(numbers, n);
    match Cut::dicycle(objects[0], objects[1], objects[2], n) {
        Ok(cut) => Some(cut),
        Err(_) => None,
    }
}

fn fence_of(count: i64, numbers: &[i64], n: u16) -> Option<Cut>
    ensures cut { MatchOption result (if_fence n (nat_abs count) numbers.now ≡ None) (λ cut. if_fence n (nat_abs count) numbers.now ≡ Some cut) }
    ensures right { IfSome result IsCut }
    ensures fits { IfSome result (FitsCut n) }
{
    if numbers.len() > 16 || !name_objects(numbers, n) {
        return None;
    }
    let posts = numbers.len() / 2;
    if count.unsigned_abs() != posts as u64 || posts * 2 != numbers.len() {
        return None;
    }
    let objects = objects_of(numbers, n);
    let (u, w) = objects.as_slice().split_at(posts);
    match Cut::fence(u, w, n) {
        Ok(cut) => Some(cut),
        Err(_) => None,
    }
}

fn ladder_of(count: i64, numbers: &[i64], n: u16) -> Option<Cut>
    ensures cut { MatchOption result (if_ladder (nat_abs count) (cycles_of n numbers.now) ≡ None) (λ cut. if_ladder (nat_abs count) (cycles_of n numbers.now) ≡ Some cut) }
    ensures right { IfSome result IsCut }
    ensures fits { IfSome result (FitsCut n) }
{
    let cycles = cycles_of(numbers, n)?;
    if count.unsigned_abs() != cycles.len() as u64 {
        return None;
    }
    match Cut::ladder(cycles.as_slice(), n) {
        Ok(cut) => Some(cut),
        Err(_) => None,
    }
}
