/// Two objects, of which `before` is to stand before `after`. Also an arc from the one to the other.
#[derive(Clone, Copy, Debug, Default, PartialEq, Eq)]
pub struct Pair {
    pub before: u16,
    pub after: u16,
}
