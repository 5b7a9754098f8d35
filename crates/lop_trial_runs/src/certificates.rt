// Certificates of both versions, and what `check` answers.
use crate::runs::{CHECK, FENCE, HALVES, Row, TIE, TIGHT_ROW, all_end};
use std::test::Fail;

/// Leaves with records of their own.
const OWN_RECORDS: &[Row] = &[
    TIGHT_ROW,
    (
        TIE,
        "lopcert 1\nobjects 3\norder 1 2 3\nvalue 4\nbound 4\ncuts 1\ndicycle 1 2 3\nleaf 1 1 1 1\nend\n",
        CHECK,
        1,
        "rejected line 8 high 5 5\n",
    ),
    (
        TIE,
        "lopcert 1\nobjects 3\norder 1 2 3\nvalue 4\nbound 4\ncuts 1\ndicycle 1 2 3\nsplit 1 2\nsplit 2 1\nend\n",
        CHECK,
        1,
        "rejected line 9 split\n",
    ),
    (
        FENCE,
        "lopcert 1\nobjects 6\norder 4 5 3 6 1 2\nvalue 14\nbound 14\ncuts 1\nfence 3 1 2 3 4 5 6\nleaf 1 1 1 2\nend\n",
        CHECK,
        0,
        "accepted\nvalue 14\nbound 14\nstatus optimal\n",
    ),
    (
        FENCE,
        "lopcert 1\nobjects 6\norder 4 5 3 6 1 2\nvalue 14\nbound 14\ncuts 1\nladder 4 3 1 2 3 3 2 1 4 3 4 5 6 3 6 5 3\nleaf 1 1 1 2\nend\n",
        CHECK,
        1,
        "rejected line 7 cut\n",
    ),
    (
        FENCE,
        "lopcert 1\nobjects 6\norder 4 5 3 6 1 2\nvalue 14\nbound 14\ncuts 1\nladder 3 3 1 2 3 3 1 2 4 3 1 2 5\nleaf 1 1 1 2\nend\n",
        CHECK,
        1,
        "rejected line 7 cut\n",
    ),
    (
        TIE,
        "lopcert 1\nobjects 3\norder 1 2 3\nvalue 4\nbound 4\ncuts 0\nsplit 1 2\nsplit 2 3\nleaf 1 0\nleaf 1 0\nleaf 1 0\nend\n",
        CHECK,
        0,
        "accepted\nvalue 4\nbound 4\nstatus optimal\n",
    ),
    (
        TIE,
        "lopcert 1\nobjects 3\norder 1 2 3\nvalue 4\nbound 6\ncuts 0\nleaf 1 0\nend\n",
        CHECK,
        6,
        "accepted\nvalue 4\nbound 6\nstatus bounded\n",
    ),
    (
        TIE,
        "lopcert 1\nobjects 3\norder 1 2 3\nvalue 4\nbound 5\ncuts 0\nleaf 1 0\nend\n",
        CHECK,
        1,
        "rejected line 7 high 6 6\n",
    ),
    (
        TIE,
        "lopcert 1\nobjects 3\norder 1 2 3\nvalue 4\nbound 4\ncuts 1\ndicycle 1 2 3\nleaf 1 1 1 2\nend\nx\n",
        CHECK,
        1,
        "rejected line 10 tail\n",
    ),
    (
        TIE,
        "lopcert 1\nobjects 3\norder 1 2 3\nvalue 04\nbound 4\ncuts 1\ndicycle 1 2 3\nleaf 1 1 1 2\nend\n",
        CHECK,
        1,
        "rejected line 4 spelling\n",
    ),
    (
        TIE,
        "lopcert 1\nobjects 3\norder 1 2 3\nvalue 5\nbound 4\ncuts 1\ndicycle 1 2 3\nleaf 1 1 1 2\nend\n",
        CHECK,
        1,
        "rejected line 4 value 5 4\n",
    ),
    (
        TIE,
        "lopcert 1\nobjects 3\norder 1 2 3\nvalue 4\nbound 4\ncuts 1\ndicycle 1 2 3\nrecords 0\nleaf 1 1 1 2\nend\n",
        CHECK,
        1,
        "rejected line 8 spelling\n",
    ),
    (TIE, "", CHECK, 1, "rejected line 1 short\n"),
    (
        HALVES,
        "lopcert 1\nobjects 2\norder 1 2\nvalue 150\nbound 200\ncuts 0\nleaf 1 0\nend\n",
        CHECK,
        6,
        "accepted\nvalue 1.50\nbound 2.00\nstatus bounded\n",
    ),
    (
        HALVES,
        "lopcert 1\nobjects 2\norder 1 2\nvalue 151\nbound 200\ncuts 0\nleaf 1 0\nend\n",
        CHECK,
        1,
        "rejected line 4 value 151 150\n",
    ),
];

/// The certificate of the tight row, with a record that its leaf names.
pub(crate) const NAMED: &str =
    "lopcert 2\nobjects 3\norder 1 2 3\nvalue 4\nbound 4\ncuts 1\ndicycle 1 2 3\nrecords 1\nrecord 1 1 1 2\nleaf 1\nend\n";

/// Leaves that name records.
const NAMED_RECORDS: &[Row] = &[
    (
        TIE,
        NAMED,
        CHECK,
        0,
        "accepted\nvalue 4\nbound 4\nstatus optimal\n",
    ),
    (
        TIE,
        "lopcert 2\nobjects 3\norder 1 2 3\nvalue 4\nbound 4\ncuts 0\nrecords 1\nrecord 1 0\nsplit 1 2\nsplit 2 3\nleaf 1\nleaf 1\nleaf 1\nend\n",
        CHECK,
        0,
        "accepted\nvalue 4\nbound 4\nstatus optimal\n",
    ),
    (
        TIE,
        "lopcert 2\nobjects 3\norder 1 2 3\nvalue 4\nbound 4\ncuts 0\nrecords 1\nrecord 1 0\nsplit 1 2\nsplit 2 3\nleaf 2\nleaf 1\nleaf 1\nend\n",
        CHECK,
        1,
        "rejected line 11 leaf\n",
    ),
    (
        TIE,
        "lopcert 2\nobjects 3\norder 1 2 3\nvalue 4\nbound 4\ncuts 0\nrecords 1\nrecord 0 0\nsplit 1 2\nsplit 2 3\nleaf 1\nleaf 1\nleaf 1\nend\n",
        CHECK,
        1,
        "rejected line 8 record\n",
    ),
];

#[test]
fn certificates(rt: HostRuntime) -> Result<(), Fail> {
    all_end(&rt, rt.alloc(), OWN_RECORDS)?;
    all_end(&rt, rt.alloc(), NAMED_RECORDS)
}
