/// The two versions of a certificate's text.
#[derive(Clone, Copy, Debug, PartialEq, Eq)]
pub enum CertVersion {
    /// The line of each leaf has the leaf's own record.
    One,
    /// Records have lines of their own, and the line of a leaf names one of them.
    Two,
}
