// What is gathered from the lines of a text.
ghost use Rattle.std.specs.Prelude.{◌≡◌, ◌≤◌, ◌++◌, ◌∷◌, [], Ok, Err, Some, None, IfOk, IfErr, OnOk, ℕ};
ghost use Rattle.lop_desk.specs.Number.{digits_value};
ghost use Rattle.lop_preflib.specs.First.{or_else};
ghost use Rattle.lop_preflib.specs.Names.{name_at};
ghost use Rattle.lop_preflib.specs.Profile.{votes};
ghost use Rattle.lop_preflib.specs.Refusal.{sized_refusal, size_refusal, line_refusal};
ghost use Rattle.lop_preflib.specs.Reading.{order_of};
ghost use Rattle.lop_preflib.specs.Gathered.{finished};
ghost use Rattle.lop_preflib.specs.Steps.{IsStop, IsGathered, IsSize, AreCounted};

use crate::line::{Line, kind_of};
use crate::names::Names;
use crate::order::read_order;
use crate::orders::Orders;
use crate::profile::{MAX_ALTERNATIVES, Profile};
use crate::ranking::Ranking;
use crate::refusal::PrefRefusal;
use crate::text::number_up_to;
use std::alloc::Global;

/// What was read so far.
#[derive(Drop)]
pub(crate) struct Gathered {
    pub(crate) size: Option<u16>,
    pub(crate) names: Names,
    pub(crate) orders: Orders,
    // What one order ranks.
    pub(crate) ranking: Ranking,
}

impl Gathered {
    pub(crate) fn new(alloc: Global) -> Gathered
        ensures size { result.size ≡ None }
        ensures names { (i : ℕ) → name_at result.names i ≡ None }
        ensures orders { result.orders ≡ [] }
    {
        Gathered {
            size: None,
            names: Names::new(alloc),
            orders: Orders::new(alloc),
            ranking: Ranking::new(alloc),
        }
    }

    /// Gathers one line more.
    pub(crate) fn add(&mut self, alloc: Global, line: &[u8], number: u64) -> Result<(), PrefRefusal>
        requires { IsSize self.old.size }
        ensures gathered { OnOk result (IsGathered line.now number self.old self.new) }
        ensures size { OnOk result (IsSize self.new.size) }
        ensures refusal { IfErr result (IsStop (line_refusal self.old.size (votes self.old.orders) number line.now)) }
    {
        match kind_of(line) {
            Line::Size(word) => self.size = size_after(self.size, word, number)?,
            Line::Name(object, name) => self.names.note(alloc, object, name)?,
            Line::Order => add_order(&mut self.orders, &mut self.ranking, self.size, line, number)?,
            Line::Other => {}
        }
        Ok(())
    }

    /// The profile, after so many lines.
    pub(crate) fn finish(self, lines: u64) -> Result<Profile, PrefRefusal>
        requires size { IsSize self.size }
        requires counted { AreCounted self.size self.orders }
        ensures profile { IfOk result (λ profile. finished self.size lines self.names self.orders ≡ Ok profile) }
        ensures refusal { IfErr result (λ refusal. finished self.size lines self.names self.orders ≡ Err refusal) }
    {
        let Some(size) = self.size else {
            return Err(PrefRefusal::NoSize(lines));
        };
        if self.orders.len() == 0 {
            return Err(PrefRefusal::NoOrders);
        }
        Ok(Profile::new(size, self.names, self.orders))
    }
}

// The number of alternatives after a line that tells it.
fn size_after(size: Option<u16>, word: &[u8], number: u64) -> Result<Option<u16>, PrefRefusal>
    requires { IsSize size }
    ensures good { OnOk result (size_refusal size number (Some word.now) ≡ None) }
    ensures size { IfOk result (λ after. (after ≡ or_else size (Some (digits_value word.now))) × IsSize after) }
    ensures refusal { IfErr result (IsStop (size_refusal size number (Some word.now))) }
{
    if size.is_some() {
        return Ok(size);
    }
    match number_up_to(word, MAX_ALTERNATIVES) {
        Some(n) => Ok(Some(n as u16)),
        None => Err(PrefRefusal::SizeRange(number)),
    }
}

// Adds the order of a line.
fn add_order(
    orders: &mut Orders,
    ranking: &mut Ranking,
    size: Option<u16>,
    line: &[u8],
    number: u64,
) -> Result<(), PrefRefusal>
    requires { IsSize size }
    ensures good { OnOk result (sized_refusal size (votes orders.old) number line.now ≡ None) }
    ensures orders { OnOk result (orders.new ≡ orders.old ++ order_of line.now ∷ []) }
    ensures refusal { IfErr result (IsStop (sized_refusal size (votes orders.old) number line.now)) }
{
    let Some(n) = size else {
        return Err(PrefRefusal::NoSize(number));
    };
    let count = read_order(line, n, orders.voters(), number, ranking)?;
    orders.push(count, &ranking.objects, &ranking.groups)?;
    Ok(())
}
