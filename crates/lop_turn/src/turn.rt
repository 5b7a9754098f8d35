//! The turn, and the passes by which workers take it.
ghost use Rattle.std.specs.Prelude.{◌≡◌, ◌≢◌, ◌++◌, ◌≤ℤ◌, ℕ, List, length, drop, true, false, IfOk, IfErr, IsSome, IfSome, Some, ℤ, Contains, All};
ghost use Rattle.lop_turn.specs.Lists.{StartsWith, entries_by, list_at};
ghost use Rattle.lop_turn.specs.Views.{first_view, new_view, after_split, after_take, after_refusal, after_give, after_raise, after_reading, after_join};
ghost use Rattle.lop_turn.specs.Rule.{mark_of};

use crate::kept::Kept;
use crate::rule::{Announce, Give, JoinIn, Raise, Read, SplitOff, Try, TurnRule};
use crate::view::View;
use atomic_table::{Refused, Seat, Table};
use std::alloc::Global;
use std::marker::Model;
use std::snapshot::Snapshot;

/// A try was refused: another pass holds the turn.
#[derive(Clone, Copy, Debug, PartialEq, Eq)]
pub struct Held {
    /// The number of that pass.
    pub by: u32,
}

/// One value, which at most one pass has at a time. A clause sees a turn as its name.
///
/// The first word of the table is 0 while the turn is free, and else the holder's number plus 1. The
/// second word is the mark: a score that the value has reached, plus 2^63. The one slot holds the
/// value while no pass has it. Each call is O(1), a step or two on a word, and never waits.
#[derive(Drop)]
pub struct Turn<T: Kept> {
    table: Table<Option<T>, View<T::Entry>, Snapshot<T>, TurnRule, Global>,
}

/// The right to take a turn. A clause sees the turn that it belongs to, and what it knows of the value.
///
/// It is a number and a score at run time; what it knows exists in proofs alone. It may move to
/// another thread. No call changes the turn that it belongs to.
#[derive(Drop)]
pub struct Pass<T: Kept> {
    seat: Seat<Option<T>, View<T::Entry>>,
    number: u32,
    /// The score of the value that was given last, if one was.
    last_given: i64,
}

impl<T: Kept> Model for Turn<T> {
    ghost use Rattle.std.specs.Prelude.{◌≡◌};
    ghost use Rattle.atomic_table.specs.Seated.{table_id_coded};
    ghost use Rattle.lop_turn.specs.Views.{TurnName};

    ghost Value = { TurnName };

    ghost coded = { table_id_coded };

    ghost view = { λ t. t.table.shared.table_id };

    // Two words and one slot.
    ghost invariant = { λ t. (t.table.shared.table_id.words ≡ 2) × (t.table.shared.table_id.slots ≡ 1) };
}

impl<T: Kept> Model for Pass<T> {
    ghost use Rattle.std.specs.Prelude.{◌≡◌, ℤ, true, cond, None, Some, [], ◌∷◌};
    ghost use Rattle.lop_turn.specs.Views.{Known};

    ghost Value = { Known T.Entry };

    ghost view = { λ p. record { turn = p.seat.table_id; view = p.seat.me.0 } };

    // The fields are what the view says, and the slot is out with the pass, and empty, just while it holds the turn.
    ghost invariant = { λ p.
        (p.number ≡ p.seat.me.0.number)
        × (p.seat.me.0.is_live ≡ true)
        × (p.seat.me.1 ≡ cond p.seat.me.0.holds ((0, None) ∷ []) [])
        × ((g : ℤ) → p.seat.me.0.last_given ≡ Some g → p.last_given ≡ g) };
}

// The second word for a score.
fn word_of(score: i64) -> u64
    ensures { mark_of result ≡ score }
{
    (i128::from(score) + (1 << 63)) as u64
}

// The score for which the second word stands.
fn score_of(word: u64) -> i64
    ensures { result ≡ mark_of word }
{
    (i128::from(word) - (1 << 63)) as i64
}

impl<T: Kept> Turn<T> {
    /// Opens a free turn with this value, and the first pass, which has number 0 and has seen all of its history.
    ///
    /// The mark and the pass's floor begin at the value's score. For want of memory the value comes
    /// back. It allocates two small blocks.
    pub fn new(alloc: Global, kept: T) -> Result<(Turn<T>, Pass<T>), T>
        ensures turn { IfOk result (λ t. t.1.turn ≡ t.0) }
        ensures first { IfOk result (λ t.
            t.1.view ≡ first_view T.worker (T.history kept) (T.score kept) (T.fixed kept)) }
        ensures err { IfErr result (λ x. x ≡ kept) }
    {
        let Ok(mut slots) = Vec::with_capacity(alloc, 1) else {
            return Err(kept);
        };
        let about = Snapshot::of(&kept);
        let mark = word_of(kept.score());
        slots.push_reserved(Some(kept));
        match Table::new(alloc, &[0, mark], slots, &about) {
            Ok((table, seat)) => {
                let first = Pass {
                    seat,
                    number: 0,
                    last_given: 0,
                };
                Ok((Turn { table }, first))
            }
            Err(Refused { mut slots }) => {
                let kept = slots.pop().unwrap().unwrap();
                slots.destroy_empty();
                Err(kept)
            }
        }
    }

    /// Splits off a pass with a number of its own, which knows what the first pass knows.
    ///
    /// Its own entries are those that already stand under its number.
    pub fn split(&self, pass: &mut Pass<T>, number: u32) -> Pass<T>
        requires turn { pass.old.turn ≡ self.now }
        requires first { (pass.old.view.number ≡ 0) × (pass.old.view.holds ≡ false) }
        requires number { (number ≢ 0) × ¬ Contains pass.old.view.split_off number }
        ensures turn { (pass.new.turn ≡ pass.old.turn) × (result.turn ≡ pass.old.turn) }
        ensures first { pass.new.view ≡ after_split pass.old.view number }
        ensures new { result.view ≡ new_view T.worker pass.old.view number }
    {
        let shared = &self.table.shared;
        let word = u64::from(number);
        shared.compare_exchange::<Announce>(&mut pass.seat, 0, word, word);
        let seat = shared.split_seat::<SplitOff<T>>(&mut pass.seat);
        Pass {
            seat,
            number,
            last_given: 0,
        }
    }

    /// Tries once to take the turn, and never waits. It is refused only where another pass holds it.
    ///
    /// What is taken has a history that begins with that at the opening and with all that this pass
    /// has seen, and among it just the entries that this pass made. A refusal is noted in `away`. That any try succeeds isn't
    /// promised.
    pub fn try_take(&self, pass: &mut Pass<T>) -> Result<T, Held>
        requires turn { pass.old.turn ≡ self.now }
        requires free { pass.old.view.holds ≡ false }
        ensures turn { pass.new.turn ≡ pass.old.turn }
        ensures taken { IfOk result (λ x.
            pass.new.view ≡ after_take pass.old.view (T.history x) (T.score x)) }
        ensures seen { IfOk result (λ x. StartsWith (T.history x) pass.old.view.seen) }
        ensures opening { IfOk result (λ x. StartsWith (T.history x) pass.old.view.opening) }
        ensures mine { IfOk result (λ x.
            entries_by T.worker pass.old.view.number (T.history x) ≡ pass.old.view.mine) }
        ensures fixed { IfOk result (λ x. T.fixed x ≡ pass.old.view.fixed) }
        ensures floor { IfOk result (λ x. pass.old.view.floor ≤ℤ T.score x) }
        ensures held { IfErr result (λ h. pass.new.view ≡ after_refusal pass.old.view h.by) }
        ensures other { IfErr result (λ h. h.by ≢ pass.old.view.number) }
    {
        let shared = &self.table.shared;
        let name = u64::from(pass.number) + 1;
        let found = shared.compare_exchange::<Try>(&mut pass.seat, 0, 0, name);
        if found == 0 {
            Ok(shared.exchange(&mut pass.seat, 0, None).unwrap())
        } else {
            Err(Held {
                by: (found - 1) as u32,
            })
        }
    }

    /// Gives the turn back with the value, which is what was taken with entries of this pass appended.
    ///
    /// They become visible to the others at this one step, all at once.
    pub fn give(&self, pass: &mut Pass<T>, kept: T)
        requires turn { pass.old.turn ≡ self.now }
        requires holds { pass.old.view.holds ≡ true }
        requires history { (more : List T.Entry)
            × (T.history kept ≡ pass.old.view.taken ++ more)
            × All (λ e. T.worker e ≡ pass.old.view.number) more }
        requires fixed { T.fixed kept ≡ pass.old.view.fixed }
        requires score { pass.old.view.taken_score ≤ℤ T.score kept }
        ensures turn { pass.new.turn ≡ pass.old.turn }
        ensures given { pass.new.view ≡ after_give T.worker pass.old.view (T.history kept) (T.score kept) }

        // Its own entries have grown by what was appended.
        ensures mine { pass.new.view.mine
            ≡ pass.old.view.mine ++ drop (length pass.old.view.taken) (T.history kept) }
    {
        let shared = &self.table.shared;
        pass.last_given = kept.score();
        let before = shared.exchange(&mut pass.seat, 0, Some(kept));
        let None = before else { unreachable!() };
        shared.store::<Give>(&mut pass.seat, 0, 0);
    }

    /// Takes in a pass that was split off: what it has seen, its floor, and all entries that it made.
    pub fn join(&self, pass: &mut Pass<T>, other: Pass<T>)
        requires turn { (pass.old.turn ≡ self.now) × (other.turn ≡ self.now) }
        requires first { (pass.old.view.number ≡ 0) × (pass.old.view.holds ≡ false) }
        requires other { other.view.holds ≡ false }
        ensures turn { pass.new.turn ≡ pass.old.turn }
        ensures joined { pass.new.view ≡ after_join pass.old.view other.view }
    {
        let Pass {
            seat,
            number: _,
            last_given: _,
        } = other;
        self.table.shared.join_seat::<JoinIn>(&mut pass.seat, seat);
    }

    /// Ends the turn, once all passes that were split off are joined, and gives the value.
    ///
    /// Each entry of its history is accounted for: by the pass that made it, or by the opening.
    pub fn close(self, pass: Pass<T>) -> T
        requires turn { pass.turn ≡ self }
        requires first { (pass.view.number ≡ 0) × (pass.view.holds ≡ false) }
        requires joined { (n : ℕ) →
            Contains pass.view.split_off n → IsSome (list_at pass.view.ended n) }
        ensures seen { StartsWith (T.history result) pass.view.seen }
        ensures opening { StartsWith (T.history result) pass.view.opening }
        ensures fixed { T.fixed result ≡ pass.view.fixed }
        ensures floor { pass.view.floor ≤ℤ T.score result }
        ensures ended { (n : ℕ) (xs : List T.Entry) →
            list_at pass.view.ended n ≡ Some xs → entries_by T.worker n (T.history result) ≡ xs }
        ensures mine { entries_by T.worker 0 (T.history result) ≡ pass.view.mine }
        ensures others { (n : ℕ) → n ≢ 0 → ¬ Contains pass.view.split_off n →
            entries_by T.worker n (T.history result) ≡ entries_by T.worker n pass.view.opening }
    {
        let Turn { table } = self;
        let Pass {
            seat,
            number: _,
            last_given: _,
        } = pass;
        let mut closed = table.close_with(seat);
        let value = closed.take(0).unwrap();
        closed.free();
        value
    }

    /// Raises the mark, for all passes to read, to the score of the value that this pass gave last.
    ///
    /// The mark never falls.
    pub fn raise_mark(&self, pass: &mut Pass<T>)
        requires turn { pass.old.turn ≡ self.now }
        requires given { IsSome pass.old.view.last_given }
        ensures turn { pass.new.turn ≡ pass.old.turn }
        ensures raised { IfSome pass.old.view.last_given (λ score.
            pass.new.view ≡ after_raise pass.old.view score) }
    {
        let word = word_of(pass.last_given);
        self.table
            .shared
            .fetch_max::<Raise>(&mut pass.seat, 1, word);
    }

    /// Reads the mark: a score that the value has reached. Each value taken later has at least this.
    ///
    /// That it is the newest mark isn't promised.
    pub fn mark(&self, pass: &mut Pass<T>) -> i64
        requires turn { pass.old.turn ≡ self.now }
        ensures turn { pass.new.turn ≡ pass.old.turn }
        ensures floor { pass.old.view.floor ≤ℤ result }
        ensures read { pass.new.view ≡ after_reading pass.old.view result }
    {
        score_of(self.table.shared.load::<Read>(&mut pass.seat, 1))
    }
}
