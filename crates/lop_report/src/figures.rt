// What a value is of the total, and what is left of the total.
ghost use Rattle.std.specs.Prelude.{◌≡◌, ◌≤◌, ◌^◌, pos, ◌≤ℤ◌, unsigned_abs};
ghost use Rattle.lop_report.specs.Figures.{linearity_parts, disagreements};

use crate::degree::Linearity;

/// The degree of linearity of an order of this value.
pub fn linearity(value: i128, total: i128) -> Linearity
    requires { value ≤ℤ pos (2 ^ 63) }
    ensures { result ≡ linearity_parts value total }
{
    if value < 0 || total <= 0 {
        return Linearity::None;
    }
    Linearity::Parts(10_000 * (value as u128) / (total as u128))
}

/// What the entries against an order sum to. Of the weights of voters, in how many pairs a voter ranks the other way.
pub fn disagreements(value: i128, total: i128) -> i128
    requires value { unsigned_abs value ≤ 2 ^ 63 }
    requires total { unsigned_abs total ≤ 2 ^ 63 }
    ensures { result ≡ disagreements value total }
{
    total - value
}
