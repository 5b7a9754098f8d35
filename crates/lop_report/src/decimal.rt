// Numbers of units of 10^-k, as text.
ghost use Rattle.std.specs.Prelude.{◌≡◌, ◌≤◌, ◌<◌, ◌+◌, ◌/◌, ◌%◌, ◌^◌, ◌++◌};
ghost use Rattle.std.specs.Fmt.{signed_decimal};
ghost use Rattle.arrayvec.specs.ArrayString.{array_string_len};
ghost use Rattle.lop_report.specs.declared.decimal.TheConstants.{MAX_DECIMALS};
ghost use Rattle.lop_report.specs.Decimal.{decimal_text, fraction_text, last_digits, sign, digit_code};

use arrayvec::ArrayString;
use itoa::Buffer;

/// The most decimals of a number.
pub const MAX_DECIMALS: u8 = 6;

/// A number of units of 10^-k with its k decimals: plainly where k is 0; else the whole ones, a point and k digits, and a
/// minus before them where the number is negative, even if it has no whole ones.
pub fn decimal_text(value: i128, decimals: u8) -> ArrayString<48>
    requires { decimals ≤ MAX_DECIMALS }
    ensures text { result.bytes ≡ decimal_text value decimals }
    ensures plain { decimals ≡ 0 → result.bytes ≡ signed_decimal value }
{
    let mut text = ArrayString::new();
    push_sign(value, &mut text);
    push_fraction(value.unsigned_abs(), decimals, &mut text);
    text
}

fn push_sign(value: i128, text: &mut ArrayString<48>)
    requires { array_string_len text.old ≤ 40 }
    ensures text { text.new.bytes ≡ text.old.bytes ++ sign value }
    ensures short { array_string_len text.new ≤ array_string_len text.old + 1 }
{
    if value < 0 {
        text.push('-');
    }
}

/// Appends so many units of 10^-k, with k decimals.
#[tactic(auto, using(crate::proofs::DecimalLemmas::unit_positive))]
pub fn push_fraction(units: u128, decimals: u8, text: &mut ArrayString<48>)
    requires decimals { decimals ≤ MAX_DECIMALS }
    requires room { array_string_len text.old ≤ 1 }
    ensures text { text.new.bytes ≡ text.old.bytes ++ fraction_text units decimals }
{
    if decimals == 0 {
        text.push_str(Buffer::new().format(units));
        return;
    }
    let one = 10_u128.pow(u32::from(decimals));
    text.push_str(Buffer::new().format(units / one));
    text.push('.');
    push_digits(units % one, decimals, text);
}

// Appends the last digits of a number, with leading zeros.
fn push_digits(number: u128, count: u8, text: &mut ArrayString<48>)
    requires count { count ≤ MAX_DECIMALS }
    requires room { array_string_len text.old ≤ 42 }
    ensures text { text.new.bytes ≡ text.old.bytes ++ last_digits count number }
{
    for left in (0..count).rev() {
        text.push(digit(number, left));
    }
}

// The digit at a place, which counts from the last digit.
#[tactic(auto, using(crate::proofs::DecimalLemmas::unit_positive))]
fn digit(number: u128, place: u8) -> char
    requires { place < MAX_DECIMALS }
    ensures digit { result ≡ digit_code (number / 10 ^ place % 10) }
    ensures ascii { result < 128 }
{
    let one = 10_u128.pow(u32::from(place));
    char::from(b'0' + (number / one % 10) as u8)
}
