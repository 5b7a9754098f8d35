// The lines before the cuts: how many objects there are, and what is claimed of their orders.
ghost use Rattle.std.specs.Prelude.{◌≡◌, ◌+◌, ℤ, IfOk, IfErr};
ghost use Rattle.lop_model.specs.Matrix.{Matrix};
ghost use Rattle.lop_model.specs.Closing.{closed};
ghost use Rattle.lop_certtext.specs.Answer.{version_of, version_step, objects_step, order_step, value_step, bound_step, cuts_step};
ghost use Rattle.lop_certtext.specs.declared.version.CertVersion.{CertVersion};
ghost use Rattle.lop_check.specs.Walk.{EndsCheck, HandsOver, IsReading, ReadsOn, spot};

use crate::numbers::{are_order, weight_of};
use crate::reading::Reading;
use crate::{Reason, Verdict};
use lop_certtext::{CertVersion, CertWord};
use lop_desk::Desk;
use lop_model::Weights;

// What a certificate claims: that an order weighs the value, and none more than the bound. And the version of its text.
#[derive(Clone, Copy)]
pub struct Claim {
    pub version: CertVersion,
    pub value: i64,
    pub bound: i64,
}

// The lines before the cuts.
pub fn header<D: Desk>(
    weights: &Weights,
    desk: &mut D,
    reading: &mut Reading,
) -> Result<Claim, Verdict>
    requires { IsReading (spot (D.told desk.old) (D.faults desk.old) reading.old) }
    ensures { HandsOver (spot (D.told desk.old) (D.faults desk.old) reading.old) (spot (D.told desk.new) (D.faults desk.new) reading.new) (version_step closed weights.now (reading.old.number + 1)) (λ claim. cuts_step closed weights.now claim.version claim.value claim.bound (reading.new.number + 1)) result }
{
    let version = version(desk, reading)?;
    objects(weights, desk, reading)?;
    let found = order(weights, desk, reading)?;
    let value = value(desk, reading, found)?;
    let bound = bound(desk, reading)?;
    Ok(Claim {
        version,
        value,
        bound,
    })
}

// `lopcert 1` or `lopcert 2`.
fn version<D: Desk>(desk: &mut D, reading: &mut Reading) -> Result<CertVersion, Verdict>
    requires { IsReading (spot (D.told desk.old) (D.faults desk.old) reading.old) }
    ensures goes { IfOk result (λ version. (C : Matrix) → ReadsOn (spot (D.told desk.old) (D.faults desk.old) reading.old) (spot (D.told desk.new) (D.faults desk.new) reading.new) (version_step closed C (reading.old.number + 1)) (objects_step closed C version (reading.new.number + 1))) }
    ensures stops { IfErr result (λ verdict. (C : Matrix) → EndsCheck (spot (D.told desk.old) (D.faults desk.old) reading.old) (spot (D.told desk.new) (D.faults desk.new) reading.new) (version_step closed C (reading.old.number + 1)) verdict) }
{
    reading.expect(desk, CertWord::Version)?;
    Ok(version_of(reading.numbers()))
}

// The version that the numbers of the first line state.
fn version_of(numbers: &[i64]) -> CertVersion
    ensures { result ≡ version_of numbers.now }
{
    match numbers {
        [2] => CertVersion::Two,
        _ => CertVersion::One,
    }
}

// The number of objects is the file's.
fn objects<D: Desk>(weights: &Weights, desk: &mut D, reading: &mut Reading) -> Result<(), Verdict>
    requires { IsReading (spot (D.told desk.old) (D.faults desk.old) reading.old) }
    ensures goes { IfOk result (λ _. (version : CertVersion) → ReadsOn (spot (D.told desk.old) (D.faults desk.old) reading.old) (spot (D.told desk.new) (D.faults desk.new) reading.new) (objects_step closed weights.now version (reading.old.number + 1)) (order_step closed weights.now version (reading.new.number + 1))) }
    ensures stops { IfErr result (λ verdict. (version : CertVersion) → EndsCheck (spot (D.told desk.old) (D.faults desk.old) reading.old) (spot (D.told desk.new) (D.faults desk.new) reading.new) (objects_step closed weights.now version (reading.old.number + 1)) verdict) }
{
    reading.expect(desk, CertWord::Objects)?;
    if reading.only_number().unsigned_abs() == u64::from(weights.n()) {
        Ok(())
    } else {
        Err(reading.rejected(Reason::Size))
    }
}

// The numbers are an order of 1 to n. What it weighs.
fn order<D: Desk>(weights: &Weights, desk: &mut D, reading: &mut Reading) -> Result<i64, Verdict>
    requires { IsReading (spot (D.told desk.old) (D.faults desk.old) reading.old) }
    ensures goes { IfOk result (λ found. (version : CertVersion) → ReadsOn (spot (D.told desk.old) (D.faults desk.old) reading.old) (spot (D.told desk.new) (D.faults desk.new) reading.new) (order_step closed weights.now version (reading.old.number + 1)) (value_step closed weights.now version found (reading.new.number + 1))) }
    ensures stops { IfErr result (λ verdict. (version : CertVersion) → EndsCheck (spot (D.told desk.old) (D.faults desk.old) reading.old) (spot (D.told desk.new) (D.faults desk.new) reading.new) (order_step closed weights.now version (reading.old.number + 1)) verdict) }
{
    reading.expect(desk, CertWord::OrderLine)?;
    if are_order(reading.numbers(), weights.n()) {
        Ok(weight_of(weights, reading.numbers()))
    } else {
        Err(reading.rejected(Reason::OrderLine))
    }
}

// The order weighs what is stated.
fn value<D: Desk>(desk: &mut D, reading: &mut Reading, found: i64) -> Result<i64, Verdict>
    requires { IsReading (spot (D.told desk.old) (D.faults desk.old) reading.old) }
    ensures goes { IfOk result (λ value. (C : Matrix) (version : CertVersion) → ReadsOn (spot (D.told desk.old) (D.faults desk.old) reading.old) (spot (D.told desk.new) (D.faults desk.new) reading.new) (value_step closed C version found (reading.old.number + 1)) (bound_step closed C version value (reading.new.number + 1))) }
    ensures stops { IfErr result (λ verdict. (C : Matrix) (version : CertVersion) → EndsCheck (spot (D.told desk.old) (D.faults desk.old) reading.old) (spot (D.told desk.new) (D.faults desk.new) reading.new) (value_step closed C version found (reading.old.number + 1)) verdict) }
{
    reading.expect(desk, CertWord::Value)?;
    let stated = reading.only_number();
    if stated == found {
        Ok(stated)
    } else {
        Err(reading.rejected(Reason::Value { stated, found }))
    }
}

// Any bound may be stated; the leaves have to meet it.
fn bound<D: Desk>(desk: &mut D, reading: &mut Reading) -> Result<i64, Verdict>
    requires { IsReading (spot (D.told desk.old) (D.faults desk.old) reading.old) }
    ensures goes { IfOk result (λ bound. (C : Matrix) (version : CertVersion) (value : ℤ) → ReadsOn (spot (D.told desk.old) (D.faults desk.old) reading.old) (spot (D.told desk.new) (D.faults desk.new) reading.new) (bound_step closed C version value (reading.old.number + 1)) (cuts_step closed C version value bound (reading.new.number + 1))) }
    ensures stops { IfErr result (λ verdict. (C : Matrix) (version : CertVersion) (value : ℤ) → EndsCheck (spot (D.told desk.old) (D.faults desk.old) reading.old) (spot (D.told desk.new) (D.faults desk.new) reading.new) (bound_step closed C version value (reading.old.number + 1)) verdict) }
{
    reading.expect(desk, CertWord::Bound)?;
    Ok(reading.only_number())
}
