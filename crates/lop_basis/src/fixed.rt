// Products and quotients of numbers in units of 2^-32.
ghost use Rattle.std.specs.Prelude.{◌≡◌, ◌≢◌, ◌^◌, ◌≤◌, ℤ, pos, neg_ℤ, ◌*ℤ◌, ◌≤ℤ◌, IfSome, IfNone, FitsSigned};
ghost use Rattle.std.specs.Int.{w64};
ghost use Rattle.lop_basis.specs.Fixed.{product, quotient};

/// The product of two numbers. O(1).
pub fn product_of(x: i64, y: i64) -> i128
    ensures value { result ≡ product x y }
    ensures low { neg_ℤ (pos (2 ^ 94)) ≤ℤ result }
    ensures high { result ≤ℤ pos (2 ^ 94) }
{
    i128::from(x) * i128::from(y) / 4_294_967_296
}

/// The quotient of two numbers. O(1).
pub fn quotient_of(x: i64, y: i64) -> i128
    requires { y ≢ pos 0 }
    ensures { result ≡ quotient x y }
{
    i128::from(x) * 4_294_967_296 / i128::from(y)
}

/// The same number in 64 bits, where it fits.
pub fn narrowed(x: i128) -> Option<i64>
    ensures some { IfSome result (λ y. y ≡ x) }
    ensures none { IfNone result (¬ (FitsSigned w64 x)) }
{
    if x < i128::from(i64::MIN) || x > i128::from(i64::MAX) {
        return None;
    }
    Some(x as i64)
}
