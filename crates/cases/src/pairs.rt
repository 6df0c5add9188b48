// Small figures with pairs: pairs that are edges already, repeated ones, sides of the base, points on the sides, and cavities in which
// a marked edge hangs or a corner is met twice.
use runs::Run;

pub const CASES: [Run<'static>; 17] = [
    Run {
        name: "P6, the pair repeated",
        points: &[0, 0, 8, 0, 0, 8, 1, 1, 3, 1, 3, 3, 1, 3],
        pairs: &[4, 6, 4, 6],
    },
    Run {
        name: "P6, the pair reversed and repeated",
        points: &[0, 0, 8, 0, 0, 8, 1, 1, 3, 1, 3, 3, 1, 3],
        pairs: &[6, 4, 4, 6, 6, 4],
    },
    Run {
        name: "P5, pairs that are edges already",
        points: &[0, 0, 8, 0, 0, 8, 1, 1, 3, 1, 3, 3, 1, 3],
        pairs: &[3, 5, 3, 4, 6, 2, 0, 3],
    },
    Run {
        name: "P1, the sides of the base",
        points: &[0, 0, 8, 0, 0, 8],
        pairs: &[0, 1, 1, 2, 2, 0],
    },
    Run {
        name: "P2, the sides of the base",
        points: &[0, 0, 0, 8, 8, 0],
        pairs: &[0, 1, 1, 2, 2, 0],
    },
    Run {
        name: "P4, pairs along a side of the base",
        points: &[0, 0, 8, 0, 0, 8, 4, 0],
        pairs: &[0, 3, 3, 1, 2, 1],
    },
    // Three of the pairs are no edges before they are asked for, and what is filled for one must keep those before it.
    Run {
        name: "pairs that share an end",
        points: &[
            0, 0, 20, 0, 0, 20, 1, 1, 9, 2, 4, 5, 3, 7, 6, 6, 1, 11, 8, 5,
        ],
        pairs: &[4, 6, 4, 8, 4, 2, 4, 5, 4, 0],
    },
    Run {
        name: "a point on each side",
        points: &[0, 0, 8, 0, 0, 8, 4, 0, 4, 4, 0, 4],
        pairs: &[],
    },
    Run {
        name: "two points on each side",
        points: &[0, 0, 9, 0, 0, 9, 3, 0, 6, 0, 6, 3, 3, 6, 0, 6, 0, 3, 2, 2],
        pairs: &[],
    },
    Run {
        name: "a side in order",
        points: &[0, 0, 8, 0, 0, 8, 1, 0, 2, 0, 3, 0, 4, 0, 5, 0, 6, 0, 7, 0],
        pairs: &[],
    },
    Run {
        name: "a point on each side, and a pair to a corner",
        points: &[0, 0, 8, 0, 0, 8, 4, 0, 4, 4, 0, 4],
        pairs: &[3, 2],
    },
    Run {
        name: "two points on each side, and pairs between them",
        points: &[0, 0, 9, 0, 0, 9, 3, 0, 6, 0, 6, 3, 3, 6, 0, 6, 0, 3, 2, 2],
        pairs: &[4, 7, 8, 3, 5, 7],
    },
    // The segment from 3 to 4 passes close below the end 6 of the edge 5, 6. Both triangles of that edge are crossed, and the corner 5 is
    // met twice on the left.
    Run {
        name: "a corner twice in a chain",
        points: &[0, 0, 40, 0, 0, 40, 2, 4, 18, 4, 10, 12, 10, 5, 6, 3, 14, 3],
        pairs: &[3, 4],
    },
    Run {
        name: "a marked edge that hangs inside a cavity",
        points: &[0, 0, 40, 0, 0, 40, 2, 4, 18, 4, 10, 12, 10, 5, 6, 3, 14, 3],
        pairs: &[5, 6, 3, 4],
    },
    Run {
        name: "the same from the other end, with a clockwise base",
        points: &[0, 0, 0, 40, 40, 0, 2, 4, 18, 4, 10, 12, 10, 5, 6, 3, 14, 3],
        pairs: &[5, 6, 4, 3],
    },
    // The edge 9, 10 hangs inside the cavity, and 7, 8 is on its border.
    Run {
        name: "a marked edge inside a cavity and one on its border",
        points: &[
            0, 0, 40, 0, 0, 40, 1, 12, 27, 12, 6, 20, 6, 13, 22, 17, 21, 13, 14, 4, 14, 11, 10, 13,
            18, 13, 4, 11, 24, 11,
        ],
        pairs: &[5, 6, 7, 8, 9, 10, 3, 4],
    },
    Run {
        name: "two marked edges on the border of a cavity",
        points: &[
            0, 0, 40, 0, 0, 40, 2, 6, 26, 6, 14, 18, 14, 12, 10, 7, 18, 7, 8, 5, 14, 5, 20, 5,
        ],
        pairs: &[5, 6, 6, 7, 6, 8, 3, 4],
    },
];
