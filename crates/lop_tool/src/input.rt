// The files that commands read.
ghost use Rattle.std.specs.Prelude.{◌≡◌, ◌≤◌, ◌^◌, length, Some, IfOk, IfErr, IfSome};
ghost use Rattle.lop_desk.specs.Whole.{OnlyOpens};
ghost use Rattle.lop_model.specs.Order.{IsOrder};
ghost use Rattle.lop_lolib.specs.Reading.{lolib_reading};
ghost use Rattle.lop_preflib.specs.Reading.{preflib_reading};
ghost use Rattle.lop_profile.specs.Reading.{profile_reading};
ghost use Rattle.lop_report.specs.declared.decimal.TheConstants.{MAX_DECIMALS};
ghost use Rattle.lop_tool.specs.Input.{matrix_instance, profile_instance, weighed_instance, input_reading, input_named, order_file_reading, order_named, IsOfSize};
ghost use Rattle.lop_tool.specs.Steps.{FileCause};
ghost use Rattle.lop_tool.specs.declared.stop.Stop.TheVariants.{Memory};

use crate::refusal::{InputRefusal, OrderFileRefusal};
use crate::stop::Stop;
use lop_desk::{Desk, ReadStop, read_whole};
use lop_lolib::{LolibRefusal, OrderRefusal, read_lolib, read_order};
use lop_model::{Order, Weights};
use lop_preflib::{PrefRefusal, Profile, read_preflib};
use lop_profile::{ProfileFault, pair_weights};
use lop_words::Format;
use std::alloc::Global;

/// The largest input file, in bytes.
const INPUT_LIMIT: usize = 1 << 26;

/// What a file of weights holds: an instance of the linear ordering problem.
#[derive(Drop)]
pub struct Instance {
    pub weights: Weights,
    /// The orders of voters that the weights are made of, where the file has such.
    pub profile: Option<Profile>,
    /// k: the weights are in units of 10^-k.
    pub decimals: u8,
}

/// The instance that the named file is accepted as, or why it is refused. One pass over the bytes, and for orders of
/// voters one over the orders.
pub fn read_input<D: Desk>(
    alloc: Global,
    format: Format,
    file: &str,
    desk: &mut D,
) -> Result<Result<Instance, InputRefusal>, Stop>
    ensures world { OnlyOpens (D.told desk.old) (D.told desk.new) }
    ensures later { D.faults desk.old ≤ D.faults desk.new }
    ensures input { IfOk result (λ input. IfSome (D.told desk.old) (λ w. input_named format w.files file.now ≡ Some input)) }
    ensures of_size { IfOk result (λ input. IfOk input (λ x. IsOfSize x.weights.size x.profile)) }
    ensures decimals { IfOk result (λ input. IfOk input (λ x. x.decimals ≤ MAX_DECIMALS)) }
    ensures stop { IfErr result (FileCause file.now (D.told desk.old) (D.faults desk.old) (D.faults desk.new)) }
{
    match read_whole(alloc, desk, file, INPUT_LIMIT) {
        Ok(bytes) => instance_in(alloc, format, &bytes),
        Err(ReadStop::TooLong) => Ok(Err(InputRefusal::TooLong)),
        Err(ReadStop::Failed) => Err(Stop::Fault),
        Err(ReadStop::Memory) => Err(Stop::Memory),
    }
}

fn instance_in(
    alloc: Global,
    format: Format,
    bytes: &[u8],
) -> Result<Result<Instance, InputRefusal>, Stop>
    requires { length bytes.now ≤ 2 ^ 26 }
    ensures input { IfOk result (λ input. input_reading format bytes.now ≡ input) }
    ensures of_size { IfOk result (λ input. IfOk input (λ x. IsOfSize x.weights.size x.profile)) }
    ensures decimals { IfOk result (λ input. IfOk input (λ x. x.decimals ≤ MAX_DECIMALS)) }
    ensures stop { IfErr result (λ stop. stop ≡ Memory) }
{
    match format {
        Format::Lolib => matrix_in(alloc, bytes),
        Format::Preflib => orders_in(alloc, bytes),
    }
}

fn matrix_in(alloc: Global, bytes: &[u8]) -> Result<Result<Instance, InputRefusal>, Stop>
    ensures input { IfOk result (λ input. matrix_instance (lolib_reading bytes.now) ≡ input) }
    ensures of_size { IfOk result (λ input. IfOk input (λ x. IsOfSize x.weights.size x.profile)) }
    ensures decimals { IfOk result (λ input. IfOk input (λ x. x.decimals ≤ MAX_DECIMALS)) }
    ensures stop { IfErr result (λ stop. stop ≡ Memory) }
{
    match read_lolib(alloc, bytes) {
        Ok(file) => Ok(Ok(Instance {
            weights: file.weights,
            profile: None,
            decimals: file.decimals,
        })),
        Err(LolibRefusal::Memory) => Err(Stop::Memory),
        Err(refusal) => Ok(Err(InputRefusal::Lolib(refusal))),
    }
}

fn orders_in(alloc: Global, bytes: &[u8]) -> Result<Result<Instance, InputRefusal>, Stop>
    ensures input { IfOk result (λ input. profile_instance (preflib_reading bytes.now) ≡ input) }
    ensures of_size { IfOk result (λ input. IfOk input (λ x. IsOfSize x.weights.size x.profile)) }
    ensures decimals { IfOk result (λ input. IfOk input (λ x. x.decimals ≤ MAX_DECIMALS)) }
    ensures stop { IfErr result (λ stop. stop ≡ Memory) }
{
    match read_preflib(alloc, bytes) {
        Ok(profile) => weighed(alloc, profile),
        Err(PrefRefusal::Memory) => Err(Stop::Memory),
        Err(refusal) => Ok(Err(InputRefusal::Preflib(refusal))),
    }
}

// A profile with its weights.
fn weighed(alloc: Global, profile: Profile) -> Result<Result<Instance, InputRefusal>, Stop>
    ensures input { IfOk result (λ input. weighed_instance profile (profile_reading profile) ≡ input) }
    ensures of_size { IfOk result (λ input. IfOk input (λ x. IsOfSize x.weights.size x.profile)) }
    ensures decimals { IfOk result (λ input. IfOk input (λ x. x.decimals ≤ MAX_DECIMALS)) }
    ensures stop { IfErr result (λ stop. stop ≡ Memory) }
{
    match pair_weights(alloc, &profile) {
        Ok(weights) => Ok(Ok(Instance {
            weights,
            profile: Some(profile),
            decimals: 0,
        })),
        Err(ProfileFault::Memory) => Err(Stop::Memory),
        Err(fault) => Ok(Err(InputRefusal::Profile(fault))),
    }
}

/// The order of n objects that the named file is accepted as, or why it is refused.
pub fn read_order_file<D: Desk>(
    alloc: Global,
    file: &str,
    n: u16,
    desk: &mut D,
) -> Result<Result<Order, OrderFileRefusal>, Stop>
    ensures world { OnlyOpens (D.told desk.old) (D.told desk.new) }
    ensures later { D.faults desk.old ≤ D.faults desk.new }
    ensures input { IfOk result (λ input. IfSome (D.told desk.old) (λ w. order_named n w.files file.now ≡ Some input)) }
    ensures order { IfOk result (λ input. IfOk input (IsOrder n)) }
    ensures stop { IfErr result (FileCause file.now (D.told desk.old) (D.faults desk.old) (D.faults desk.new)) }
{
    match read_whole(alloc, desk, file, INPUT_LIMIT) {
        Ok(bytes) => order_in(alloc, &bytes, n),
        Err(ReadStop::TooLong) => Ok(Err(OrderFileRefusal::TooLong)),
        Err(ReadStop::Failed) => Err(Stop::Fault),
        Err(ReadStop::Memory) => Err(Stop::Memory),
    }
}

fn order_in(alloc: Global, bytes: &[u8], n: u16) -> Result<Result<Order, OrderFileRefusal>, Stop>
    requires { length bytes.now ≤ 2 ^ 26 }
    ensures input { IfOk result (λ input. order_file_reading n bytes.now ≡ input) }
    ensures order { IfOk result (λ input. IfOk input (IsOrder n)) }
    ensures stop { IfErr result (λ stop. stop ≡ Memory) }
{
    match read_order(alloc, bytes, n) {
        Ok(order) => Ok(Ok(order)),
        Err(OrderRefusal::Memory) => Err(Stop::Memory),
        Err(refusal) => Ok(Err(OrderFileRefusal::Order(refusal))),
    }
}
