// The columns of the linear program: a variable for each pair of objects a < b, which is 1 where a goes before b. They
// lie in a table of n rows of n, of which the places above the diagonal are used.
ghost use Rattle.std.specs.Prelude.{◌≡◌, ◌*◌, ◌<◌, ◌≤◌, length};
ghost use Rattle.lop_cuts.specs.Kind.{IsArcBelow};
ghost use Rattle.lop_model.specs.declared.weights.TheConstants.{MAX_OBJECTS};

use lop_model::Pair;

/// 1, in units of 2^-32.
pub const ONE: i64 = 4_294_967_296;

/// Where a variable stands.
#[derive(Clone, Copy, Debug, PartialEq, Eq)]
pub enum BasisStatus {
    /// At 0.
    Low,
    /// At 1.
    High,
    /// In the basis.
    Basic,
    /// Fixed at 0.
    FixedLow,
    /// Fixed at 1.
    FixedHigh,
}

/// A variable: its objective, where it stands, its value while it is basic, and what a pass computed for it.
#[derive(Clone, Copy, Debug)]
pub struct Column {
    pub objective: i64,
    pub status: BasisStatus,
    pub level: i64,
    pub reduced: i64,
    pub slope: i64,
}

impl Column {
    /// A variable at 0 that the objective doesn't name.
    pub const NONE: Column = Column {
        objective: 0,
        status: BasisStatus::Low,
        level: 0,
        reduced: 0,
        slope: 0,
    };

    /// Its value, in units of 2^-32.
    pub fn value(&self) -> i64 {
        match self.status {
            BasisStatus::Low | BasisStatus::FixedLow => 0,
            BasisStatus::High | BasisStatus::FixedHigh => ONE,
            BasisStatus::Basic => self.level.clamp(0, ONE),
        }
    }
}

/// What is basic at a place of the basis.
#[derive(Clone, Copy, Debug, PartialEq, Eq)]
pub enum Head {
    /// The slack of this row.
    Slack(usize),
    /// The variable at this place of the table.
    Pair(usize),
}

/// The place of an arc's variable in the table.
pub fn place_of(n: usize, arc: Pair) -> usize
    requires within_limit { n ≤ MAX_OBJECTS }
    requires before { arc.before < n }
    requires after { arc.after < n }
    ensures { result < n * n }
{
    let first = arc.before.min(arc.after) as usize;
    let second = arc.before.max(arc.after) as usize;
    first * n + second
}

/// A number, or its opposite where the arc goes from the greater object to the smaller.
pub fn signed(arc: Pair, number: i64) -> i64 {
    if arc.before < arc.after {
        number
    } else {
        number.saturating_neg()
    }
}
