use crate::programs::Worked;
use crate::rows::{LARGE, PLAIN, Row};

/// The depth of calls, at its limit and one call beyond.
pub const ROWS: &[Row] = &[
    // 4,096 calls, `main` among them
    Row {
        of: Worked::CallingItself(4094),
        budget: LARGE,
        told: "returned 0\n",
        ..PLAIN
    },
    // one more
    Row {
        of: Worked::CallingItself(4095),
        budget: LARGE,
        told: "too deep\n",
        ..PLAIN
    },
];
