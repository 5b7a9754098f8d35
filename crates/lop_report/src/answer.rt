// The answers, line by line.
ghost use Rattle.std.specs.Prelude.{◌≡◌, ◌≤◌, ◌^◌, length, codes, pos, ◌≤ℤ◌, unsigned_abs, IfSome, Some};
ghost use Rattle.std.specs.Option.{option_copied};
ghost use Rattle.lop_desk.specs.Whole.{PrintsAll};
ghost use Rattle.lop_desk.specs.Causes.{HasCause};
ghost use Rattle.lop_model.specs.Matrix.{total};
ghost use Rattle.lop_preflib.specs.Profile.{votes};
ghost use Rattle.lop_report.specs.Lines.{number_line, status_line, linearity_line};
ghost use Rattle.lop_report.specs.AnswerText.{order_lines, figure_lines, voter_lines, ranking, value_lines, bound_lines, solve_text, value_text, gen_text, accepted_text};
ghost use Rattle.lop_model.specs.declared.weights.TheConstants.{MAX_OBJECTS};
ghost use Rattle.lop_report.specs.declared.decimal.TheConstants.{MAX_DECIMALS};

use crate::figures::disagreements;
use crate::lines::{
    print_check_status, print_count, print_decimal, print_linearity, print_number, print_order,
    print_status,
};
use crate::ranks::print_ranks;
use lop_desk::{Desk, DeskFailed, TextRoom, print_all};
use lop_model::{Order, Weights};
use lop_preflib::Profile;
use lop_profile::voters;

/// The numbers of an answer.
#[derive(Clone, Copy)]
pub struct Answer {
    /// The weight of the order, in units of 10^-k.
    pub value: i128,
    /// No order weighs more; in the same units.
    pub bound: i128,
    /// How many nodes of the search were evaluated.
    pub nodes: u32,
    /// k: value, bound and total are printed with so many decimals.
    pub decimals: u8,
}

/// Prints the answer of `solve`, one `print_all` a line; a line with a name takes three. With a profile, the voters and
/// the names of the objects in order follow. O(n²).
pub fn print_answer<D: Desk>(
    answer: &Answer,
    order: &Order,
    weights: &Weights,
    profile: Option<&Profile>,
    desk: &mut D,
    room: &mut TextRoom,
) -> Result<(), DeskFailed>
    requires same_n { length order.now ≡ weights.now.size }
    requires profile { IfSome (option_copied profile) (λ p. p.size ≡ weights.now.size) }
    requires value { unsigned_abs answer.now.value ≤ 2 ^ 63 }
    requires decimals { answer.now.decimals ≤ MAX_DECIMALS }
    ensures effect { PrintsAll (D.told desk.old) (D.told desk.new) (solve_text weights.now (option_copied profile.entry) answer.now.decimals order.now answer.now.value answer.now.bound answer.now.nodes) result }
    ensures cause { HasCause (D.faults desk.old) (D.faults desk.new) result }
{
    prove_eq!(order.n(), weights.n());
    let total = weights.total();
    print_order_lines(answer, order, desk, room)?;
    print_figure_lines(answer, total, desk, room)?;
    print_voter_lines(answer.value, total, profile, desk, room)?;
    print_ranking(order, profile, desk, room)
}

// The order and its two numbers.
fn print_order_lines<D: Desk>(
    answer: &Answer,
    order: &Order,
    desk: &mut D,
    room: &mut TextRoom,
) -> Result<(), DeskFailed>
    requires order { length order.now ≤ MAX_OBJECTS }
    requires decimals { answer.now.decimals ≤ MAX_DECIMALS }
    ensures effect { PrintsAll (D.told desk.old) (D.told desk.new) (order_lines (length order.now) order.now answer.now.decimals answer.now.value answer.now.bound) result }
    ensures cause { HasCause (D.faults desk.old) (D.faults desk.new) result }
{
    print_count(b"objects ", order.n() as u64, desk, room)?;
    print_order(order, desk, room)?;
    print_decimal(b"value ", answer.value, answer.decimals, desk, room)?;
    print_decimal(b"bound ", answer.bound, answer.decimals, desk, room)
}

// What was spent, and how the value lies in the total.
fn print_figure_lines<D: Desk>(
    answer: &Answer,
    total: i128,
    desk: &mut D,
    room: &mut TextRoom,
) -> Result<(), DeskFailed>
    requires value { answer.now.value ≤ℤ pos (2 ^ 63) }
    requires decimals { answer.now.decimals ≤ MAX_DECIMALS }
    ensures effect { PrintsAll (D.told desk.old) (D.told desk.new) (figure_lines answer.now.decimals answer.now.value answer.now.bound answer.now.nodes total) result }
    ensures cause { HasCause (D.faults desk.old) (D.faults desk.new) result }
{
    print_status(answer.value, answer.bound, desk)?;
    print_count(b"nodes ", answer.nodes as u64, desk, room)?;
    print_decimal(b"total ", total, answer.decimals, desk, room)?;
    print_linearity(answer.value, total, desk, room)
}

// How many voters there are, and how often they disagree with an order of this value.
fn print_voter_lines<D: Desk>(
    value: i128,
    total: i128,
    profile: Option<&Profile>,
    desk: &mut D,
    room: &mut TextRoom,
) -> Result<(), DeskFailed>
    requires value { unsigned_abs value ≤ 2 ^ 63 }
    requires total { unsigned_abs total ≤ 2 ^ 63 }
    ensures effect { PrintsAll (D.told desk.old) (D.told desk.new) (voter_lines (option_copied profile.entry) value total) result }
    ensures cause { HasCause (D.faults desk.old) (D.faults desk.new) result }
{
    match profile {
        Some(profile) => print_votes(value, total, profile, desk, room),
        None => Ok(()),
    }
}

fn print_votes<D: Desk>(
    value: i128,
    total: i128,
    profile: &Profile,
    desk: &mut D,
    room: &mut TextRoom,
) -> Result<(), DeskFailed>
    requires value { unsigned_abs value ≤ 2 ^ 63 }
    requires total { unsigned_abs total ≤ 2 ^ 63 }
    ensures effect { PrintsAll (D.told desk.old) (D.told desk.new) (voter_lines (Some profile.now) value total) result }
    ensures cause { HasCause (D.faults desk.old) (D.faults desk.new) result }
{
    print_count(b"voters ", voters(profile), desk, room)?;
    print_number(b"disagreements ", disagreements(value, total), desk, room)
}

fn print_ranking<D: Desk>(
    order: &Order,
    profile: Option<&Profile>,
    desk: &mut D,
    room: &mut TextRoom,
) -> Result<(), DeskFailed>
    requires few { length order.now ≤ MAX_OBJECTS }
    requires profile { IfSome (option_copied profile) (λ p. length order.now ≡ p.size) }
    ensures effect { PrintsAll (D.told desk.old) (D.told desk.new) (ranking (option_copied profile.entry) order.now) result }
    ensures cause { HasCause (D.faults desk.old) (D.faults desk.new) result }
{
    match profile {
        Some(profile) => print_ranks(order, profile, desk, room),
        None => Ok(()),
    }
}

/// Prints what an order weighs, in units of 10^-k, one `print_all` a line. With a profile, the voters follow. O(n²).
pub fn print_value<D: Desk>(
    value: i128,
    decimals: u8,
    weights: &Weights,
    profile: Option<&Profile>,
    desk: &mut D,
    room: &mut TextRoom,
) -> Result<(), DeskFailed>
    requires value { unsigned_abs value ≤ 2 ^ 63 }
    requires decimals { decimals ≤ MAX_DECIMALS }
    ensures effect { PrintsAll (D.told desk.old) (D.told desk.new) (value_text weights.now (option_copied profile.entry) decimals value) result }
    ensures cause { HasCause (D.faults desk.old) (D.faults desk.new) result }
{
    let total = weights.total();
    print_value_lines(weights.n(), value, total, decimals, desk, room)?;
    print_voter_lines(value, total, profile, desk, room)
}

// How a value lies in the total.
fn print_value_lines<D: Desk>(
    n: u16,
    value: i128,
    total: i128,
    decimals: u8,
    desk: &mut D,
    room: &mut TextRoom,
) -> Result<(), DeskFailed>
    requires value { value ≤ℤ pos (2 ^ 63) }
    requires decimals { decimals ≤ MAX_DECIMALS }
    ensures effect { PrintsAll (D.told desk.old) (D.told desk.new) (value_lines n decimals value total) result }
    ensures cause { HasCause (D.faults desk.old) (D.faults desk.new) result }
{
    print_count(b"objects ", n as u64, desk, room)?;
    print_decimal(b"value ", value, decimals, desk, room)?;
    print_decimal(b"total ", total, decimals, desk, room)?;
    print_linearity(value, total, desk, room)
}

/// Prints what the weights of a seed come to, one `print_all` a line. O(n²).
pub fn print_generated<D: Desk>(
    seed: u64,
    answer: &Answer,
    weights: &Weights,
    desk: &mut D,
    room: &mut TextRoom,
) -> Result<(), DeskFailed>
    requires { answer.now.decimals ≤ MAX_DECIMALS }
    ensures effect { PrintsAll (D.told desk.old) (D.told desk.new) (gen_text seed weights.now answer.now.decimals answer.now.value answer.now.bound answer.now.nodes) result }
    ensures cause { HasCause (D.faults desk.old) (D.faults desk.new) result }
{
    print_count(b"seed ", seed, desk, room)?;
    print_bound_lines(weights.n(), answer, desk, room)?;
    print_count(b"nodes ", answer.nodes as u64, desk, room)?;
    print_decimal(b"total ", weights.total(), answer.decimals, desk, room)
}

fn print_bound_lines<D: Desk>(
    n: u16,
    answer: &Answer,
    desk: &mut D,
    room: &mut TextRoom,
) -> Result<(), DeskFailed>
    requires { answer.now.decimals ≤ MAX_DECIMALS }
    ensures effect { PrintsAll (D.told desk.old) (D.told desk.new) (bound_lines n answer.now.decimals answer.now.value answer.now.bound) result }
    ensures cause { HasCause (D.faults desk.old) (D.faults desk.new) result }
{
    print_count(b"objects ", n as u64, desk, room)?;
    print_decimal(b"value ", answer.value, answer.decimals, desk, room)?;
    print_decimal(b"bound ", answer.bound, answer.decimals, desk, room)?;
    print_status(answer.value, answer.bound, desk)
}

/// Prints that a certificate is accepted, its numbers in units of 10^-k, one `print_all` a line.
pub fn print_accepted<D: Desk>(
    value: i128,
    bound: i128,
    decimals: u8,
    desk: &mut D,
    room: &mut TextRoom,
) -> Result<(), DeskFailed>
    requires { decimals ≤ MAX_DECIMALS }
    ensures effect { PrintsAll (D.told desk.old) (D.told desk.new) (accepted_text decimals value bound) result }
    ensures cause { HasCause (D.faults desk.old) (D.faults desk.new) result }
{
    print_all(desk, b"accepted\n")?;
    print_decimal(b"value ", value, decimals, desk, room)?;
    print_decimal(b"bound ", bound, decimals, desk, room)?;
    print_check_status(value, bound, desk)
}
