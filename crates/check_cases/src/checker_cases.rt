// The cases of the checker: the sheets and refusals of document 01, for each rule a list that breaks it and no lower one, each refusal with
// its place, and the sizes at the limits.
ghost use Rattle.std.specs.Prelude.{◌<◌, ◌^◌};

use std::io;
use trials::Trial;

const PROVED: [Trial<'static>; 9] = [
    Trial {
        name: "P1",
        points: &[0, 0, 8, 0, 0, 8],
        pairs: &[],
        list: &[0, 1, 2],
    },
    Trial {
        name: "P2",
        points: &[0, 0, 0, 8, 8, 0],
        pairs: &[],
        list: &[0, 2, 1],
    },
    Trial {
        name: "P3",
        points: &[0, 0, 8, 0, 0, 8, 2, 2],
        pairs: &[],
        list: &[0, 1, 3, 0, 3, 2, 1, 2, 3],
    },
    Trial {
        name: "P4",
        points: &[0, 0, 8, 0, 0, 8, 4, 0],
        pairs: &[],
        list: &[0, 3, 2, 1, 2, 3],
    },
    Trial {
        name: "P5",
        points: &[0, 0, 8, 0, 0, 8, 1, 1, 3, 1, 3, 3, 1, 3],
        pairs: &[],
        list: &[
            0, 1, 4, 0, 3, 6, 0, 4, 3, 0, 6, 2, 1, 2, 5, 1, 5, 4, 2, 6, 5, 3, 4, 5, 3, 5, 6,
        ],
    },
    Trial {
        name: "P6",
        points: &[0, 0, 8, 0, 0, 8, 1, 1, 3, 1, 3, 3, 1, 3],
        pairs: &[4, 6],
        list: &[
            0, 1, 4, 0, 3, 6, 0, 4, 3, 0, 6, 2, 1, 2, 5, 1, 5, 4, 2, 6, 5, 3, 4, 6, 4, 5, 6,
        ],
    },
    Trial {
        name: "P10",
        points: &[0, 0, 8, 0, 0, 8, 4, 0],
        pairs: &[0, 1],
        list: &[0, 3, 2, 1, 2, 3],
    },
    Trial {
        name: "P11",
        points: &[0, 0, 8, 0, 0, 8, 1, 1, 3, 1, 3, 3, 1, 3],
        pairs: &[4, 6, 3, 5],
        list: &[
            0, 1, 4, 0, 3, 6, 0, 4, 3, 0, 6, 2, 1, 2, 5, 1, 5, 4, 2, 6, 5, 3, 4, 5, 3, 5, 6,
        ],
    },
    Trial {
        name: "P12",
        points: &[0, 0, 8, 0, 0, 8, 2, 2, 2, 2],
        pairs: &[],
        list: &[0, 1, 2],
    },
];

const RULES: [Trial<'static>; 14] = [
    Trial {
        name: "rule 1, no triple",
        points: &[0, 0, 8, 0, 0, 8, 2, 2],
        pairs: &[],
        list: &[],
    },
    Trial {
        name: "rule 1, too many triples",
        points: &[0, 0, 8, 0, 0, 8, 2, 2],
        pairs: &[],
        list: &[0, 1, 3, 0, 3, 2, 1, 2, 3, 0, 1, 2],
    },
    Trial {
        name: "rule 1, a number not below n",
        points: &[0, 0, 8, 0, 0, 8, 2, 2],
        pairs: &[],
        list: &[0, 1, 4],
    },
    Trial {
        name: "rule 1, a number twice",
        points: &[0, 0, 8, 0, 0, 8, 2, 2],
        pairs: &[],
        list: &[0, 0, 1],
    },
    Trial {
        name: "rule 1, a clockwise triple",
        points: &[0, 0, 8, 0, 0, 8, 2, 2],
        pairs: &[],
        list: &[0, 1, 3, 0, 2, 3, 1, 2, 3],
    },
    Trial {
        name: "rule 2, a directed edge twice",
        points: &[0, 0, 8, 0, 0, 8, 2, 2],
        pairs: &[],
        list: &[0, 1, 3, 0, 1, 2],
    },
    Trial {
        name: "rule 3, an edge with no reverse",
        points: &[0, 0, 8, 0, 0, 8, 2, 2],
        pairs: &[],
        list: &[0, 1, 3],
    },
    Trial {
        name: "rule 4, a point left out",
        points: &[0, 0, 8, 0, 0, 8, 2, 2],
        pairs: &[],
        list: &[0, 1, 2],
    },
    Trial {
        name: "rule 5, the base twice over",
        points: &[0, 0, 8, 0, 0, 8, 4, 0, 2, 2, 3, 2, 4, 4, 0, 4],
        pairs: &[],
        list: &[
            0, 1, 4, 0, 3, 5, 0, 4, 2, 0, 5, 7, 1, 2, 4, 1, 5, 3, 1, 6, 5, 2, 5, 6, 2, 7, 5,
        ],
    },
    Trial {
        name: "rule 6, a pair that is no edge",
        points: &[0, 0, 8, 0, 0, 8, 1, 1, 3, 1, 3, 3, 1, 3],
        pairs: &[4, 6],
        list: &[
            0, 1, 4, 0, 3, 6, 0, 4, 3, 0, 6, 2, 1, 2, 5, 1, 5, 4, 2, 6, 5, 3, 4, 5, 3, 5, 6,
        ],
    },
    Trial {
        name: "rule 7, the other diagonal",
        points: &[0, 0, 8, 0, 0, 8, 1, 1, 3, 1, 3, 3, 1, 3],
        pairs: &[],
        list: &[
            0, 1, 4, 0, 3, 6, 0, 4, 3, 0, 6, 2, 1, 2, 5, 1, 5, 4, 2, 6, 5, 3, 4, 6, 4, 5, 6,
        ],
    },
    Trial {
        name: "rule 8, triples out of order",
        points: &[0, 0, 8, 0, 0, 8, 2, 2],
        pairs: &[],
        list: &[0, 3, 2, 0, 1, 3, 1, 2, 3],
    },
    Trial {
        name: "rule 8, a triple turned",
        points: &[0, 0, 8, 0, 0, 8, 2, 2],
        pairs: &[],
        list: &[0, 1, 3, 0, 3, 2, 2, 3, 1],
    },
    Trial {
        name: "rule 7 before rule 8",
        points: &[0, 0, 8, 0, 0, 8, 1, 1, 3, 1, 3, 3, 1, 3],
        pairs: &[],
        list: &[
            0, 3, 6, 0, 4, 3, 0, 6, 2, 1, 2, 5, 1, 5, 4, 2, 6, 5, 3, 4, 6, 4, 5, 6, 0, 1, 4,
        ],
    },
];

const REFUSALS: [Trial<'static>; 17] = [
    Trial {
        name: "refusal 1, points",
        points: &[0, 0, 8, 0, 0, 8, 2],
        pairs: &[],
        list: &[0, 1, 2],
    },
    Trial {
        name: "refusal 1, pairs",
        points: &[0, 0, 8, 0, 0, 8],
        pairs: &[0],
        list: &[0, 1, 2],
    },
    Trial {
        name: "refusal 1, list",
        points: &[0, 0, 8, 0, 0, 8],
        pairs: &[],
        list: &[0, 1, 2, 0],
    },
    Trial {
        name: "refusal 2, n = 2",
        points: &[0, 0, 8, 0],
        pairs: &[],
        list: &[0, 1, 2],
    },
    Trial {
        name: "refusal 4",
        points: &[0, 0, 8, 0, 0, 8, 2, 2, 8193, 1],
        pairs: &[],
        list: &[],
    },
    Trial {
        name: "refusal 4, two points",
        points: &[0, 0, 8, 0, 0, 8, -8193, 1, 2, 8193],
        pairs: &[],
        list: &[],
    },
    Trial {
        name: "8,192 and -8,192",
        points: &[-8192, -8192, 8192, -8192, -8192, 8192],
        pairs: &[],
        list: &[0, 1, 2],
    },
    Trial {
        name: "refusal 5",
        points: &[0, 0, 4, 4, 8, 8, 1, 1],
        pairs: &[],
        list: &[],
    },
    Trial {
        name: "refusal 6",
        points: &[0, 0, 8, 0, 0, 8, 2, 2, 5, 5, 9, 9],
        pairs: &[],
        list: &[],
    },
    Trial {
        name: "refusal 6, a clockwise base",
        points: &[0, 0, 0, 8, 8, 0, 2, 2, -1, 2],
        pairs: &[],
        list: &[],
    },
    Trial {
        name: "refusal 7, the lowest of two",
        points: &[0, 0, 8, 0, 0, 8, 2, 2, 3, 3, 3, 3, 2, 2],
        pairs: &[],
        list: &[],
    },
    Trial {
        name: "refusal 8, an end",
        points: &[0, 0, 8, 0, 0, 8, 2, 2],
        pairs: &[0, 3, 1, 4],
        list: &[],
    },
    Trial {
        name: "refusal 8, equal ends",
        points: &[0, 0, 8, 0, 0, 8, 2, 2],
        pairs: &[0, 3, 2, 2, 9, 9],
        list: &[],
    },
    Trial {
        name: "refusal 9, the lowest of two",
        points: &[0, 0, 8, 0, 0, 8, 2, 2, 4, 4],
        pairs: &[3, 1, 0, 4, 4, 0],
        list: &[],
    },
    Trial {
        name: "refusal 10, the lowest of two",
        points: &[0, 0, 8, 0, 0, 8, 1, 1, 3, 1, 3, 3, 1, 3],
        pairs: &[4, 6, 0, 3, 3, 5, 6, 4, 5, 3],
        list: &[],
    },
    Trial {
        name: "refusal 7 before refusal 8",
        points: &[0, 0, 8, 0, 0, 8, 2, 2, 2, 2],
        pairs: &[9, 9],
        list: &[],
    },
    Trial {
        name: "a repeated and a reversed pair",
        points: &[0, 0, 8, 0, 0, 8, 1, 1, 3, 1, 3, 3, 1, 3],
        pairs: &[4, 6, 4, 6, 6, 4],
        list: &[
            0, 1, 4, 0, 3, 6, 0, 4, 3, 0, 6, 2, 1, 2, 5, 1, 5, 4, 2, 6, 5, 3, 4, 6, 4, 5, 6,
        ],
    },
];

// Points 3 and up stand on a grid inside the base, so that many points pass every check on points. The corners of the base stand in a match of
// their own, as in `put` of long_cases: both are programs, and a crate between them for one match is no plainer.
fn spread(points: &mut [[i32; 2]]) {
    for (p, point) in points.iter_mut().enumerate() {
        *point = match p {
            0 => [-1, -1],
            1 => [8192, -1],
            2 => [-1, 8192],
            _ => [(p % 64) as i32, (p / 64 % 128) as i32],
        };
    }
}

// The list is empty, so rule 1 is broken where no refusal comes first. The working area has this length, and is gone
// from the stack before the next case.
#[inline(never)]
fn unlisted<R: Print, const WORK: usize>(
    rt: &R,
    name: &str,
    points: &[[i32; 2]],
    pairs: &[[u32; 2]],
) -> io::Result<()>
    requires { WORK < 2 ^ 32 }
{
    let trial = Trial {
        name,
        points: points.as_flattened(),
        pairs: pairs.as_flattened(),
        list: &[],
    };
    trial.judge(rt, &mut [7; WORK])
}

fn at_the_limits(rt: &impl Print) -> io::Result<()> {
    let mut points = [[0; 2]; 4097];
    spread(&mut points);
    let most = &points[..4096];
    let pairs = [[0; 2]; 12289];
    unlisted::<_, 262144>(rt, "n = 4,096", most, &[])?;
    unlisted::<_, 262208>(rt, "n = 4,097", &points, &[])?;
    unlisted::<_, 262143>(rt, "n = 4,096, a working area of 64n - 1", most, &[])?;
    unlisted::<_, 262144>(rt, "m = 12,288, all with equal ends", most, &pairs[..12288])?;
    unlisted::<_, 262144>(rt, "m = 12,289", most, &pairs)
}

pub fn all(rt: &impl Print) -> io::Result<()> {
    trials::small(rt, &PROVED)?;
    trials::small(rt, &RULES)?;
    trials::small(rt, &REFUSALS)?;
    at_the_limits(rt)
}
