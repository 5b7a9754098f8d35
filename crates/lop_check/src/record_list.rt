// The records that leaves name.
ghost use Rattle.std.specs.Prelude.{◌≡◌, ◌≤◌, ◌<◌, ◌+◌, ◌*◌, ◌++◌, ◌∷◌, [], ℕ, false, length, nat_abs, nat_le, MatchOption, OnOk, OnErr};
ghost use Rattle.lop_certtext.specs.RecordLine.{term_count, terms_of};
ghost use Rattle.lop_cuts.specs.declared.limits.TheConstants.{MAX_TERMS};
ghost use Rattle.lop_certtext.specs.declared.limits.TheConstants.{MAX_TOTAL_TERMS};
ghost use Rattle.lop_check.specs.Records.{IsPlace, is_number, record_at};

use lop_certtext::MAX_TOTAL_TERMS;
use std::alloc::{AllocError, Global};
use std::marker::Model;

// A record: its scale, and where the numbers of its terms lie.
#[derive(Clone, Copy, Drop)]
pub struct Span {
    pub scale: u32,
    pub start: usize,
    pub end: usize,
}

// Records by number, from 1. The numbers of their terms, two a term, lie one after another in one list. A contract sees
// the list of scales and terms.
#[derive(Drop)]
pub struct RecordList {
    spans: Vec<Span>,
    numbers: Vec<i64>,
    terms: u64,
}

impl Model for RecordList {
    ghost use Rattle.std.specs.Prelude.{List, map};
    ghost use Rattle.lop_certtext.specs.RecordLine.{CertRecord};
    ghost use Rattle.lop_check.specs.Records.{record_in, AreSpans};

    ghost Value = { List CertRecord };

    ghost view = { λ r. map (record_in r.numbers.items) r.spans.items };

    ghost invariant = { λ r. AreSpans r.numbers.items r.spans.items r.terms };
}

impl RecordList {
    // No record. It takes no memory.
    pub fn new(alloc: Global) -> RecordList
        ensures { result ≡ [] }
    {
        RecordList {
            spans: Vec::new(alloc),
            numbers: Vec::new(alloc),
            terms: 0,
        }
    }

    // Forgets all records.
    pub fn clear(&mut self)
        ensures { self.new ≡ [] }
    {
        self.spans.clear();
        self.numbers.clear();
        self.terms = 0;
    }

    // How many records there are.
    pub fn len(&self) -> usize
        ensures { result ≡ length self.now }
    {
        self.spans.len()
    }

    // Whether so many terms more are within the limit of all records.
    pub fn has_room(&self, terms: usize) -> bool
        requires { terms ≤ MAX_TERMS }
        ensures { result ≡ nat_le (term_count self.now + terms) MAX_TOTAL_TERMS }
    {
        self.terms + terms as u64 <= u64::from(MAX_TOTAL_TERMS)
    }

    // One record more. Room for it is taken as it comes; where there is none the list stays as it was.
    pub fn push(&mut self, scale: u32, numbers: &[i64]) -> Result<(), AllocError>
        requires even { (t : ℕ) × (length numbers.now ≡ 2 * t) }
        requires room { term_count self.old + length (terms_of numbers.now) ≤ MAX_TOTAL_TERMS }
        ensures pushed { OnOk result (self.new ≡ self.old ++ record { scale = scale; terms = terms_of numbers.now } ∷ []) }
        ensures unchanged { OnErr result (self.new ≡ self.old) }
    {
        let start = self.numbers.len();
        self.numbers.extend_from_slice(numbers)?;
        let end = self.numbers.len();
        self.spans.push(Span { scale, start, end })?;
        self.terms += numbers.len() as u64 / 2;
        Ok(())
    }

    // The place of the record with this number.
    pub fn place_of(&self, number: i64) -> Option<usize>
        ensures { MatchOption result (is_number self.now (nat_abs number) ≡ false) (IsPlace self.now (nat_abs number)) }
    {
        let number = number.unsigned_abs();
        if 1 <= number && number <= self.spans.len() as u64 {
            Some((number - 1) as usize)
        } else {
            None
        }
    }

    // The scale of the record at a place.
    pub fn scale(&self, place: usize) -> u32
        requires { place < length self.now }
        ensures { result ≡ (record_at self.now place).scale }
    {
        self.spans[place].scale
    }

    // The numbers of its terms.
    pub fn terms(&self, place: usize) -> &[i64]
        requires { place < length self.now }
        ensures even { (t : ℕ) × (length result.now ≡ 2 * t) }
        ensures terms { terms_of result.now ≡ (record_at self.now place).terms }
    {
        let span = self.spans[place];
        &self.numbers[span.start..span.end]
    }
}
