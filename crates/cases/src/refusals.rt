// Each row of the table, the lowest place where two offend, and lists with two faults, which get the lower row. The rows that need many
// points or many pairs are with the limits.
use runs::Run;
use std::io;

const ROWS_1_AND_2: [Run<'static>; 5] = [
    Run {
        name: "refusal 1, points",
        points: &[0, 0, 8, 0, 0, 8, 2],
        pairs: &[],
    },
    Run {
        name: "refusal 1, pairs",
        points: &[0, 0, 8, 0, 0, 8],
        pairs: &[0],
    },
    Run {
        name: "refusal 1 before refusal 2",
        points: &[0],
        pairs: &[],
    },
    Run {
        name: "refusal 2, n = 2",
        points: &[0, 0, 8, 0],
        pairs: &[],
    },
    Run {
        name: "refusal 2, no points",
        points: &[],
        pairs: &[],
    },
];

const EMPTY: Run<'static> = Run {
    name: "empty lists",
    points: &[],
    pairs: &[],
};

const ROWS_4_TO_10: [Run<'static>; 24] = [
    Run {
        name: "refusal 4, 8,193",
        points: &[0, 0, 8, 0, 0, 8, 2, 2, 8193, 1],
        pairs: &[],
    },
    Run {
        name: "refusal 4, -8,193",
        points: &[0, 0, 8, 0, 0, 8, 2, 2, 1, -8193],
        pairs: &[],
    },
    Run {
        name: "refusal 4, the lower of two",
        points: &[0, 0, 8, 0, 0, 8, 1, 8193, -8193, 1],
        pairs: &[],
    },
    Run {
        name: "refusal 4, the greatest and the least number",
        points: &[0, 0, 2147483647, 0, 0, -2147483648],
        pairs: &[],
    },
    Run {
        name: "refusal 4 before refusal 5",
        points: &[0, 0, 4, 4, 8, 8, 8193, 1],
        pairs: &[],
    },
    Run {
        name: "refusal 5",
        points: &[0, 0, 4, 4, 8, 8, 1, 1],
        pairs: &[],
    },
    Run {
        name: "refusal 5, three equal points",
        points: &[1, 1, 1, 1, 1, 1],
        pairs: &[],
    },
    Run {
        name: "refusal 5 before refusal 6",
        points: &[0, 0, 4, 4, 8, 8, 1, 2],
        pairs: &[],
    },
    Run {
        name: "refusal 6",
        points: &[0, 0, 8, 0, 0, 8, 2, 2, 5, 5],
        pairs: &[],
    },
    Run {
        name: "refusal 6, a clockwise base",
        points: &[0, 0, 0, 8, 8, 0, 2, 2, -1, 2],
        pairs: &[],
    },
    Run {
        name: "refusal 6, the lower of two",
        points: &[0, 0, 8, 0, 0, 8, 2, -1, 9, 9],
        pairs: &[],
    },
    Run {
        name: "refusal 6 before refusal 7",
        points: &[0, 0, 8, 0, 0, 8, 2, 2, 2, 2, 9, 9],
        pairs: &[],
    },
    Run {
        name: "refusal 7, a corner of the base",
        points: &[0, 0, 8, 0, 0, 8, 8, 0],
        pairs: &[],
    },
    Run {
        name: "refusal 7, the lower of two",
        points: &[0, 0, 8, 0, 0, 8, 2, 2, 3, 3, 3, 3, 2, 2],
        pairs: &[],
    },
    Run {
        name: "refusal 7 before refusal 8",
        points: &[0, 0, 8, 0, 0, 8, 2, 2, 2, 2],
        pairs: &[9, 9],
    },
    Run {
        name: "refusal 8, an end not below n",
        points: &[0, 0, 8, 0, 0, 8, 2, 2],
        pairs: &[0, 3, 1, 4],
    },
    Run {
        name: "refusal 8, the greatest number",
        points: &[0, 0, 8, 0, 0, 8, 2, 2],
        pairs: &[4294967295, 3],
    },
    Run {
        name: "refusal 8, equal ends",
        points: &[0, 0, 8, 0, 0, 8, 2, 2],
        pairs: &[0, 3, 2, 2, 9, 9],
    },
    Run {
        name: "refusal 8 before refusal 9",
        points: &[0, 0, 8, 0, 0, 8, 4, 0],
        pairs: &[0, 1, 2, 2],
    },
    Run {
        name: "refusal 9, a point on a side",
        points: &[0, 0, 8, 0, 0, 8, 4, 4],
        pairs: &[0, 3, 2, 1],
    },
    Run {
        name: "refusal 9, the lower of two",
        points: &[0, 0, 8, 0, 0, 8, 2, 2, 4, 4],
        pairs: &[3, 1, 0, 4, 4, 0],
    },
    Run {
        name: "refusal 9 before refusal 10",
        points: &[0, 0, 9, 0, 0, 9, 1, 1, 3, 1, 3, 3, 1, 3, 4, 4],
        pairs: &[4, 6, 3, 5, 0, 7],
    },
    Run {
        name: "refusal 10",
        points: &[0, 0, 8, 0, 0, 8, 2, 1, 1, 2],
        pairs: &[0, 3, 3, 2, 0, 4, 1, 4],
    },
    Run {
        name: "refusal 10, the lower of two",
        points: &[0, 0, 8, 0, 0, 8, 1, 1, 3, 1, 3, 3, 1, 3],
        pairs: &[4, 6, 0, 3, 3, 5, 6, 4, 5, 3],
    },
];

pub fn all(rt: &impl Print) -> io::Result<()> {
    runs::small(rt, &ROWS_1_AND_2)?;
    EMPTY.cut(rt, &mut [], &mut [])?;
    runs::small(rt, &ROWS_4_TO_10)
}
