/// Why a certificate is rejected at a line.
#[derive(Clone, Copy, Debug, PartialEq, Eq)]
pub enum Reason {
    /// The text has ended where this line is due.
    Short,
    /// The line isn't spelled as a certificate's line, or has another first word than is due here.
    Spelling,
    /// The number of objects isn't the file's.
    Size,
    /// The numbers aren't an order of 1 to n.
    OrderLine,
    /// The order doesn't weigh what is stated.
    Value { stated: i64, found: i64 },
    /// The numbers of the line aren't a cut of the file's objects.
    Cut,
    /// The numbers of the line aren't a scale and terms, or the records so far have too many terms.
    RecordLine,
    /// The numbers of the line aren't an undecided pair of objects.
    SplitLine,
    /// The numbers of the line aren't a scale and terms, or the number of a record.
    Leaf,
    /// The Lagrangian bound of a leaf isn't below what the stated bound allows.
    High { upper: i128, limit: i128 },
    /// A further byte stands behind the end.
    Tail,
}
