//! Rows of longer histories.

use super::batches::{
    GROUP_BEGIN_1_4, GROUP_END, RUN_1_10_OF_5, RUN_10_20, RUN_15_18, TRUNCATE_15,
};
use super::owed::{APPEND, REWRITE, Row};
use raft_base::FileSeq;

/// The number of a batch's file, and its bytes in base 16.
pub(crate) type Batch = (FileSeq, &'static str);

const FIRST: Batch = (
    1,
    "0000000000002c000000000000000018787878787764156c020101040101020304020301016b017648a3671c",
);

const SECOND: Batch = (
    1,
    "00000000000025000000000000000018787878787764156c01010104050102030470e2a65f",
);

const THIRD: Batch = (
    2,
    "0000000000001e0000000000000000100201020203020302016b8369a00b",
);

const FOURTH: Batch = (
    2,
    "0000000000001f000000000000000015788316dc8c010101010701b5f0c6c6",
);

const FIFTH: Batch = (
    3,
    "0000000000002a0000000000000000177878780aea9b1c0202010364010203020301016b01769430adeb",
);

const SIXTH: Batch = (3, "0000000000001800000000000000001001020201033e4ddf");

const SEVENTH: Batch = (
    4,
    "0000000000002100000000000000001678780f18e1f80102010232010269f54031",
);

const EIGHTH: Batch = (
    5,
    "0000000000002800000000000000001678780f18e1f80201010208010203030101780176cd383ca0",
);

/// Batches of the append queue: runs and a compaction of region 1; region 2, which is cleaned and written again; and a
/// key of region 3.
pub(crate) const APPENDED: [Batch; 8] = [
    FIRST, SECOND, THIRD, FOURTH, FIFTH, SIXTH, SEVENTH, EIGHTH,
];

/// These batches, and a truncation of region 1 to 9 behind them.
const TRUNCATED: [Batch; 9] = [
    FIRST,
    SECOND,
    THIRD,
    FOURTH,
    FIFTH,
    SIXTH,
    SEVENTH,
    EIGHTH,
    (5, "000000000000190000000000000000100101020309c1868b12"),
];

/// These batches, and behind them a run that leaves a hole.
pub(crate) const WITH_A_HOLE: [Batch; 9] = [
    FIRST,
    SECOND,
    THIRD,
    FOURTH,
    FIFTH,
    SIXTH,
    SEVENTH,
    EIGHTH,
    (
        5,
        "0000000000001f000000000000000015788316dc8c010101010c017e293225",
    ),
];

/// Batches of the rewrite queue: a group around two others, of other regions, and a group that doesn't end.
pub(crate) const REWRITTEN: [Batch; 8] = [
    (1, RUN_1_10_OF_5),
    (2, GROUP_BEGIN_1_4),
    (
        2,
        "0000000000001c00000000000000001001060301016b01763f17ef2d",
    ),
    (
        3,
        "0000000000002e000000000000000018787878787764156c02090301035f5f01010105010404010203048128f7a1",
    ),
    (3, GROUP_END),
    (4, "000000000000190000000000000000100105020203c9c92764"),
    (
        5,
        "00000000000028000000000000000015788316dc8c02090301035f5f01010205010101012071edb3",
    ),
    (
        5,
        "0000000000002500000000000000001002080301035f5f010100060301017a0176998beb9b",
    ),
];

/// Returns the rows of histories.
pub(crate) fn rows_of_histories() -> &'static [Row] {
    &ROWS
}

static ROWS: [Row; 3] = [
    Row {
        batches: &APPENDED,
        lines: Some(
            "\
1 entries 3..10 keys 0 append 1 rewrite -
2 entries 50..52 keys 0 append 4 rewrite -
3 entries - keys 1 append 5 rewrite -
cleaned 2
live 10 0
",
        ),
        places: &[
            (1, 3, 1, 16, 8, 2),
            (1, 4, 1, 16, 8, 3),
            (1, 5, 1, 60, 8, 0),
            (1, 6, 1, 60, 8, 1),
            (1, 7, 2, 46, 5, 0),
            (1, 8, 5, 16, 6, 0),
            (1, 9, 5, 16, 6, 1),
            (2, 50, 4, 16, 6, 0),
            (2, 51, 4, 16, 6, 1),
        ],
        pairs: &[
            (1, b"k", None),
            (2, b"k", None),
            (3, b"x", Some(b"v")),
            (3, b"k", None),
        ],
        ..APPEND
    },
    // A group over two others, of other regions, and one that is left open.
    Row {
        batches: &REWRITTEN,
        lines: Some(
            "\
5 entries 3..8 keys 0 append - rewrite 2
6 entries - keys 1 append - rewrite 2
cleaned -
live 0 6
",
        ),
        places: &[
            (5, 3, 2, 16, 7, 2),
            (5, 4, 3, 16, 8, 0),
            (5, 5, 3, 16, 8, 1),
            (5, 6, 3, 16, 8, 2),
            (5, 7, 3, 16, 8, 3),
        ],
        pairs: &[(6, b"k", Some(b"v")), (6, b"z", None), (5, b"k", None)],
        groups: &[(5, Some((2, 3))), (6, None)],
        waiting: 1,
        ..REWRITE
    },
    // A truncation in between: the entries below it lie in the first file, and those of the run after it in the last.
    Row {
        batches: &[(1, RUN_10_20), (1, TRUNCATE_15), (2, RUN_15_18)],
        lines: Some(
            "\
1 entries 10..18 keys 0 append 1 rewrite -
cleaned -
live 8 0
",
        ),
        places: &[
            (1, 10, 1, 16, 14, 0),
            (1, 14, 1, 16, 14, 4),
            (1, 15, 2, 16, 7, 0),
            (1, 17, 2, 16, 7, 2),
        ],
        ..APPEND
    },
];

/// Returns the row of a history that ends with a truncation.
pub(crate) fn row_ending_with_truncation() -> &'static Row {
    &TRUNCATED_ROW
}

static TRUNCATED_ROW: Row = Row {
    batches: &TRUNCATED,
    lines: Some(
        "\
1 entries 3..9 keys 0 append 1 rewrite -
2 entries 50..52 keys 0 append 4 rewrite -
3 entries - keys 1 append 5 rewrite -
cleaned 2
live 9 0
",
    ),
    places: &[
        (1, 3, 1, 16, 8, 2),
        (1, 6, 1, 60, 8, 1),
        (1, 7, 2, 46, 5, 0),
        (1, 8, 5, 16, 6, 0),
        (2, 51, 4, 16, 6, 1),
    ],
    pairs: &[(3, b"x", Some(b"v"))],
    ..APPEND
};

/// Returns the row of a history that ends with a hole.
pub(crate) fn row_ending_with_hole() -> &'static Row {
    &HOLE_ROW
}

static HOLE_ROW: Row = Row {
    batches: &WITH_A_HOLE,
    lines: None,
    ..APPEND
};
