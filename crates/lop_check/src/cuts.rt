// The lines of the cuts.
ghost use Rattle.std.specs.Prelude.{◌≡◌, ◌+◌, [], ℕ, List, IfOk, IfErr, OnOk};
ghost use Rattle.lop_cuts.specs.declared.kind.CutKind.{CutKind};
ghost use Rattle.lop_cuts.specs.Kind.{IsCut, FitsCut};
ghost use Rattle.lop_model.specs.Closing.{closed};
ghost use Rattle.lop_certtext.specs.Answer.{TextLine, CheckAnswer, cuts_step, records_step, spelled, cut_step, is_cut_word, rejected};
ghost use Rattle.lop_check.specs.Walk.{EndsCheck, HandsOver, IsReading, ReadsOn, spot};
ghost use Rattle.lop_check.specs.Nodes.{AreRightCuts, IsCutOf};

use crate::cut::cut_of;
use crate::header::Claim;
use crate::reading::Reading;
use crate::{Reason, Verdict};
use lop_certtext::CertWord;
use lop_cuts::Cut;
use lop_desk::Desk;
use lop_model::Weights;

// How many cuts there are, and so many lines of cuts. The list has them from then on.
pub fn cut_lines<D: Desk>(
    weights: &Weights,
    desk: &mut D,
    reading: &mut Reading,
    claim: Claim,
    cuts: &mut Vec<Cut>,
) -> Result<(), Verdict>
    requires reading { IsReading (spot (D.told desk.old) (D.faults desk.old) reading.old) }
    requires none { cuts.old.items ≡ [] }
    ensures reads { HandsOver (spot (D.told desk.old) (D.faults desk.old) reading.old) (spot (D.told desk.new) (D.faults desk.new) reading.new) (cuts_step closed weights.now claim.version claim.value claim.bound (reading.old.number + 1)) (λ _. records_step closed weights.now claim.version cuts.new.items claim.value claim.bound (reading.new.number + 1)) result }
    ensures right { AreRightCuts weights.now.size cuts.new.items }
{
    reading.expect(desk, CertWord::Cuts)?;
    let count = reading.only_number().unsigned_abs();
    'lines: while (cuts.len() as u64) < count {
        let cut = cut_line(weights.n(), desk, reading)?;
        if cuts.push(cut).is_err() {
            return Err(Verdict::Memory);
        }
    }
    Ok(())
}

// The cut of the next line.
fn cut_line<D: Desk>(n: u16, desk: &mut D, reading: &mut Reading) -> Result<Cut, Verdict>
    requires { IsReading (spot (D.told desk.old) (D.faults desk.old) reading.old) }
    ensures goes { IfOk result (λ cut. (next : ℕ → CutKind → List TextLine → CheckAnswer) → ReadsOn (spot (D.told desk.old) (D.faults desk.old) reading.old) (spot (D.told desk.new) (D.faults desk.new) reading.new) (λ lines. spelled (reading.old.number + 1) lines (λ line rest. cut_step n (reading.old.number + 1) line.word line.numbers (λ c. next (reading.old.number + 1) c rest))) (next reading.new.number cut)) }
    ensures stops { IfErr result (λ verdict. (next : ℕ → CutKind → List TextLine → CheckAnswer) → EndsCheck (spot (D.told desk.old) (D.faults desk.old) reading.old) (spot (D.told desk.new) (D.faults desk.new) reading.new) (λ lines. spelled (reading.old.number + 1) lines (λ line rest. cut_step n (reading.old.number + 1) line.word line.numbers (λ c. next (reading.old.number + 1) c rest))) verdict) }
    ensures right { IfOk result (IsCutOf n) }
    ensures number { OnOk result (reading.new.number ≡ reading.old.number + 1) }
{
    let word = reading.line(desk)?;
    match cut_of_line(n, word, reading.numbers()) {
        Ok(cut) => Ok(cut),
        Err(reason) => Err(reading.rejected(reason)),
    }
}

// The cut that a line spells, or why it spells none.
fn cut_of_line(n: u16, word: CertWord, numbers: &[i64]) -> Result<Cut, Reason>
    ensures goes { IfOk result (λ cut. (number : ℕ) (next : CutKind → CheckAnswer) → cut_step n number word numbers.now next ≡ next cut) }
    ensures stops { IfErr result (λ reason. (number : ℕ) (next : CutKind → CheckAnswer) → cut_step n number word numbers.now next ≡ rejected number reason) }
    ensures right { IfOk result (IsCutOf n) }
{
    if !is_cut_word(word) {
        return Err(Reason::Spelling);
    }
    match cut_of(word, numbers, n) {
        Some(cut) => Ok(cut),
        None => Err(Reason::Cut),
    }
}

// Whether a cut's line begins with the word.
fn is_cut_word(word: CertWord) -> bool
    ensures { result ≡ is_cut_word word }
{
    matches!(word, CertWord::Dicycle | CertWord::Fence | CertWord::Ladder)
}
