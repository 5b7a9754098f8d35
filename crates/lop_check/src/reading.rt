// A certificate's lines, one at a time.
ghost use Rattle.std.specs.Prelude.{◌≡◌, ◌+◌, [], ℕ, ℤ, List, true, IfOk, IfErr, OnOk};
ghost use Rattle.lop_certtext.specs.Answer.{TextLine, CheckAnswer, accepted, expect, only_number, spelled, tail_step};
ghost use Rattle.lop_certtext.specs.Line.{CertLine, is_row};
ghost use Rattle.lop_check.specs.Walk.{EndsCheck, HandsOver, HasDueRow, IsReading, ReadsOn, is_due, spot};

use crate::{Reason, Verdict};
use lop_certtext::{CertWord, NumberRoom, read_line};
use lop_desk::{Desk, Line, LineReader, LineStop};
use std::alloc::{AllocError, Global};

// A text of 2^40 bytes has no more lines than this.
const MOST_LINES: u64 = 1 << 41;

// The reader of lines, the numbers of the line read last, and which line that was, from 1.
#[derive(Drop)]
pub struct Reading {
    lines: LineReader,
    numbers: NumberRoom,
    number: u64,
}

impl Reading {
    pub fn new(alloc: Global) -> Result<Reading, AllocError>
        ensures { IfOk result (λ r. (r.lines ≡ record { count = 0; pending = []; line = [] }) × (r.numbers ≡ []) × (r.number ≡ 0)) }
    {
        let lines = LineReader::new(alloc)?;
        let numbers = NumberRoom::new(alloc)?;
        Ok(Reading {
            lines,
            numbers,
            number: 0,
        })
    }

    // Forgets what was read, for a file that was opened anew.
    pub fn start(&mut self)
        ensures lines { self.new.lines ≡ record { count = 0; pending = []; line = [] } }
        ensures number { self.new.number ≡ 0 }
    {
        self.lines.start();
        self.number = 0;
    }

    // Which line it is, from 1.
    pub fn number(&self) -> u64
        ensures { result ≡ self.now.number }
    {
        self.number
    }

    // The numbers of the line.
    pub fn numbers(&self) -> &[i64]
        ensures { result.now ≡ self.now.numbers }
    {
        self.numbers.numbers()
    }

    // The one number of a line that has one.
    pub fn only_number(&self) -> i64
        ensures { result ≡ only_number self.now.numbers }
    {
        match self.numbers.numbers().first() {
            Some(number) => *number,
            None => 0,
        }
    }

    // The line fails, for this reason.
    pub fn rejected(&self, reason: Reason) -> Verdict
        ensures { result ≡ Verdict.Rejected self.now.number reason }
    {
        Verdict::Rejected {
            line: self.number,
            reason,
        }
    }
}

impl Reading {
    // The next line, which has to be spelled right: its word; then `numbers` has its numbers.
    pub fn line<D: Desk>(&mut self, desk: &mut D) -> Result<CertWord, Verdict>
        requires { IsReading (spot (D.told desk.old) (D.faults desk.old) self.old) }
        ensures goes { IfOk result (λ word. (next : ℕ → CertLine → List TextLine → CheckAnswer) → ReadsOn (spot (D.told desk.old) (D.faults desk.old) self.old) (spot (D.told desk.new) (D.faults desk.new) self.new) (λ lines. spelled (self.old.number + 1) lines (next (self.old.number + 1))) (next self.new.number (record { word = word; numbers = self.new.numbers }))) }
        ensures stops { IfErr result (λ verdict. (next : ℕ → CertLine → List TextLine → CheckAnswer) → EndsCheck (spot (D.told desk.old) (D.faults desk.old) self.old) (spot (D.told desk.new) (D.faults desk.new) self.new) (λ lines. spelled (self.old.number + 1) lines (next (self.old.number + 1))) verdict) }
        ensures row { IfOk result (λ word. is_row word self.new.numbers ≡ true) }
        ensures number { OnOk result (self.new.number ≡ self.old.number + 1) }
    {
        if self.number == MOST_LINES {
            return Err(Verdict::TooLong);
        }
        self.number += 1;
        match self.lines.next_line(desk) {
            Ok(Line::Text { ended: true, .. }) => {
                match read_line(self.lines.text(), &mut self.numbers) {
                    Ok(word) => Ok(word),
                    Err(_) => Err(self.rejected(Reason::Spelling)),
                }
            }
            Ok(Line::Text { ended: false, .. }) => Err(self.rejected(Reason::Spelling)),
            Ok(Line::End) => Err(self.rejected(Reason::Short)),
            Err(LineStop::LineTooLong) => Err(self.rejected(Reason::Spelling)),
            Err(LineStop::TooLong) => Err(Verdict::TooLong),
            Err(LineStop::Failed) => Err(Verdict::Failed),
        }
    }

    // The next line, which has to begin with the word `due`; then `numbers` has its numbers.
    pub fn expect<D: Desk>(&mut self, desk: &mut D, due: CertWord) -> Result<(), Verdict>
        requires { IsReading (spot (D.told desk.old) (D.faults desk.old) self.old) }
        ensures goes { IfOk result (λ _. (next : ℕ → List ℤ → List TextLine → CheckAnswer) → ReadsOn (spot (D.told desk.old) (D.faults desk.old) self.old) (spot (D.told desk.new) (D.faults desk.new) self.new) (λ lines. expect (is_due due) (self.old.number + 1) lines (next (self.old.number + 1))) (next self.new.number self.new.numbers)) }
        ensures stops { IfErr result (λ verdict. (next : ℕ → List ℤ → List TextLine → CheckAnswer) → EndsCheck (spot (D.told desk.old) (D.faults desk.old) self.old) (spot (D.told desk.new) (D.faults desk.new) self.new) (λ lines. expect (is_due due) (self.old.number + 1) lines (next (self.old.number + 1))) verdict) }
        ensures row { OnOk result (HasDueRow due self.new.numbers) }
        ensures number { OnOk result (self.new.number ≡ self.old.number + 1) }
    {
        if self.line(desk)? == due {
            Ok(())
        } else {
            Err(self.rejected(Reason::Spelling))
        }
    }

    // Nothing may stand behind the end.
    pub fn tail<D: Desk>(&mut self, desk: &mut D) -> Result<(), Verdict>
        requires { IsReading (spot (D.told desk.old) (D.faults desk.old) self.old) }
        ensures { (value bound : ℤ) → HandsOver (spot (D.told desk.old) (D.faults desk.old) self.old) (spot (D.told desk.new) (D.faults desk.new) self.new) (tail_step value bound (self.old.number + 1)) (λ _ _. accepted value bound) result }
    {
        let line = self.number + 1;
        let reason = Reason::Tail;
        match self.lines.next_line(desk) {
            Ok(Line::End) => Ok(()),
            Ok(Line::Text { .. }) => Err(Verdict::Rejected { line, reason }),
            Err(LineStop::LineTooLong) => Err(Verdict::Rejected { line, reason }),
            Err(LineStop::TooLong) => Err(Verdict::TooLong),
            Err(LineStop::Failed) => Err(Verdict::Failed),
        }
    }
}
