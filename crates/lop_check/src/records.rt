// The lines of the records.
ghost use Rattle.std.specs.Prelude.{◌≡◌, ◌+◌, [], ◌∷◌, ℕ, ℤ, suc, length, IfOk, IfErr, OnOk};
ghost use Rattle.lop_model.specs.Matrix.{Matrix};
ghost use Rattle.lop_model.specs.Closing.{closed};
ghost use Rattle.lop_certtext.specs.Answer.{records_step, records_left_step, tree_step};
ghost use Rattle.lop_check.specs.Walk.{EndsCheck, IsReading, ReadsOn, spot};
ghost use Rattle.lop_certtext.specs.RecordLine.{leaf_of};
ghost use Rattle.lop_check.specs.Records.{AreRecords};

use crate::header::Claim;
use crate::reading::Reading;
use crate::record::record_of;
use crate::record_list::RecordList;
use crate::{Reason, Verdict};
use lop_certtext::{CertVersion, CertWord};
use lop_cuts::Cut;
use lop_desk::Desk;

// Of version 2 how many records there are, and so many lines of records. The list has them from then on.
pub fn record_lines<D: Desk>(
    desk: &mut D,
    reading: &mut Reading,
    claim: Claim,
    cuts: &[Cut],
    records: &mut RecordList,
) -> Result<(), Verdict>
    requires reading { IsReading (spot (D.told desk.old) (D.faults desk.old) reading.old) }
    requires none { records.old ≡ [] }
    ensures goes { IfOk result (λ _. (C : Matrix) → ReadsOn (spot (D.told desk.old) (D.faults desk.old) reading.old) (spot (D.told desk.new) (D.faults desk.new) reading.new) (records_step closed C claim.version cuts.now claim.value claim.bound (reading.old.number + 1)) (tree_step closed C cuts.now (leaf_of claim.version (length cuts.now) records.new) claim.value claim.bound ([] ∷ []) (reading.new.number + 1))) }
    ensures stops { IfErr result (λ verdict. (C : Matrix) → EndsCheck (spot (D.told desk.old) (D.faults desk.old) reading.old) (spot (D.told desk.new) (D.faults desk.new) reading.new) (records_step closed C claim.version cuts.now claim.value claim.bound (reading.old.number + 1)) verdict) }
    ensures right { AreRecords (length cuts.now) records.new }
{
    if claim.version == CertVersion::One {
        return Ok(());
    }
    reading.expect(desk, CertWord::RecordsLine)?;
    let count = reading.only_number().unsigned_abs();
    'lines: while (records.len() as u64) < count {
        record_line(desk, reading, cuts, records)?;
    }
    Ok(())
}

// One line of a record. The list has it from then on.
fn record_line<D: Desk>(
    desk: &mut D,
    reading: &mut Reading,
    cuts: &[Cut],
    records: &mut RecordList,
) -> Result<(), Verdict>
    requires reading { IsReading (spot (D.told desk.old) (D.faults desk.old) reading.old) }
    requires right { AreRecords (length cuts.now) records.old }
    ensures goes { IfOk result (λ _. (C : Matrix) (value bound : ℤ) (more : ℕ) → ReadsOn (spot (D.told desk.old) (D.faults desk.old) reading.old) (spot (D.told desk.new) (D.faults desk.new) reading.new) (records_left_step closed C cuts.now value bound (suc more) records.old (reading.old.number + 1)) (records_left_step closed C cuts.now value bound more records.new (reading.new.number + 1))) }
    ensures stops { IfErr result (λ verdict. (C : Matrix) (value bound : ℤ) (more : ℕ) → EndsCheck (spot (D.told desk.old) (D.faults desk.old) reading.old) (spot (D.told desk.new) (D.faults desk.new) reading.new) (records_left_step closed C cuts.now value bound (suc more) records.old (reading.old.number + 1)) verdict) }
    ensures right { AreRecords (length cuts.now) records.new }
    ensures one { OnOk result (length records.new ≡ length records.old + 1) }
{
    reading.expect(desk, CertWord::RecordLine)?;
    let Some((scale, terms)) = record_of(cuts.len(), reading.numbers()) else {
        return Err(reading.rejected(Reason::RecordLine));
    };
    if !records.has_room(terms.len() / 2) {
        return Err(reading.rejected(Reason::RecordLine));
    }
    if records.push(scale, terms).is_err() {
        return Err(Verdict::Memory);
    }
    Ok(())
}
