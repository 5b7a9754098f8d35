ghost use Rattle.std.specs.Prelude.{◌≡◌, ◌+◌, ◌≤◌};

/// Where the entries of a row lie in the list of all entries: those of one sign and then those of the other.
#[derive(Clone, Copy)]
pub struct Span {
    pub start: u32,
    pub middle: u32,
    pub end: u32,
    ghost rising: { start ≤ middle },
    ghost ordered: { middle ≤ end },
    ghost within: { end ≤ 262144 },
    ghost few: { end ≤ start + 64 },
}

impl Span {
    /// The number of entries.
    #[inline]
    pub fn len(self) -> u32
        ensures value { result + self.start ≡ self.end }
        ensures few { result ≤ 64 }
    {
        self.end - self.start
    }
}
