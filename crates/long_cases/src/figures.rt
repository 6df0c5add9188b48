// Large figures: a square grid in several orders, a long corridor, and a lattice of 4,096 points with many pairs.
use reports::MARK;
use runs::Run;
use std::io;

// Points 0, 1 and 2 are a base with two sides along the axes. The others stand where the closure says.
pub fn put<F: Fn(usize) -> [i32; 2]>(points: &mut [[i32; 2]], low: i32, high: i32, place: F)
    requires { F.IsAlwaysCallable place }
{
    for (p, point) in points.iter_mut().enumerate() {
        *point = match p {
            0 => [low, low],
            1 => [high, low],
            2 => [low, high],
            _ => place(p),
        };
    }
}

// The names of an order of a grid's cells, alone and with a zigzag, the step through the cells, and the number that times the step is 1 modulo
// 64.
const ORDERS: [(&str, &str, usize, u32); 5] = [
    ("a grid by rows", "a grid by rows, with a zigzag", 1, 1),
    (
        "a grid from behind",
        "a grid from behind, with a zigzag",
        63,
        63,
    ),
    (
        "a grid by knight's steps",
        "a grid by knight's steps, with a zigzag",
        17,
        49,
    ),
    ("a grid in leaps", "a grid in leaps, with a zigzag", 27, 19),
    (
        "a grid in other leaps",
        "a grid in other leaps, with a zigzag",
        45,
        37,
    ),
];

// The 64 cells of a square grid in the order of a step through them.
fn grid(rt: &impl Print, name: &str, step: usize, pairs: &[u32]) -> io::Result<()> {
    let mut points = [[0; 2]; 67];
    put(&mut points, -1, 20, |p| {
        let cell = p.wrapping_sub(3).wrapping_mul(step) % 64;
        [(cell % 8) as i32, (cell / 8) as i32]
    });
    let run = Run {
        name,
        points: points.as_flattened(),
        pairs,
    };
    run.cut(rt, &mut [MARK; 400], &mut [MARK; 4300])
}

// A zigzag runs from the first cell of the grid to the last one of the next row, from there to the first one of the row after it, and so on.
// Each pair crosses many edges of the grid.
fn grids(rt: &impl Print) -> io::Result<()> {
    for (name, _, step, _) in ORDERS {
        grid(rt, name, step, &[])?;
    }
    for (_, name, step, back) in ORDERS {
        let pairs = [0, 15, 15, 16, 16, 31, 31, 32, 32, 47, 47, 48, 48, 63].map(|cell: u32| 3
            + cell.wrapping_mul(back) % 64);
        grid(rt, name, step, &pairs)?;
    }
    Ok(())
}

// Points 3 and 4 stand at the two ends between two rows, one of points with odd and one of points with even numbers.
fn corridor(rt: &impl Print, name: &str, pairs: &[u32]) -> io::Result<()> {
    let mut points = [[0; 2]; 200];
    put(&mut points, 0, 4000, |p| match p {
        3 => [8, 52],
        4 => [1010, 52],
        _ => {
            let x = p % 4096;
            [(x * 5) as i32, (50 + x % 2 * 4) as i32]
        }
    });
    let run = Run {
        name,
        points: points.as_flattened(),
        pairs,
    };
    run.cut(rt, &mut [MARK; 1200], &mut [MARK; 12801])
}

fn corridors(rt: &impl Print) -> io::Result<()> {
    corridor(rt, "a strip of 200 points", &[])?;
    corridor(rt, "a strip of 200 points and the pair along it", &[3, 4])?;
    corridor(
        rt,
        "the same after pairs of its rows",
        &[5, 7, 6, 8, 101, 103, 102, 104, 197, 199, 3, 4, 4, 3],
    )
}

// Point p stands in column p modulo 64 of row p / 64.
fn lattice(rt: &impl Print, name: &str, pairs: &[[u32; 2]]) -> io::Result<()> {
    let mut points = [[0; 2]; 4096];
    put(&mut points, -1, 8192, |p| {
        [(p % 64) as i32, (p / 64 % 64) as i32]
    });
    let run = Run {
        name,
        points: points.as_flattened(),
        pairs: pairs.as_flattened(),
    };
    run.cut(rt, &mut [MARK; 24600], &mut [MARK; 262145])
}

// Pair k runs from a column that is a multiple of 4 in an even row, from row 2 on, to the next row, two columns on. Then pairs 300, 400 and 50
// are put across pairs 100, 200 and 450. So 300, 400 and 450 each cross one before them, and 300 is the lowest. Then pair 495 is put across a
// point, and row 9 is tested before row 10.
fn lattices(rt: &impl Print) -> io::Result<()> {
    lattice(rt, "a lattice of 4,096 points", &[])?;
    let mut pairs = [[0; 2]; 496];
    for (k, pair) in pairs.iter_mut().enumerate() {
        let p = (128 + k / 16 * 128 + k % 16 * 4) as u32;
        *pair = [p, p + 66];
    }
    lattice(rt, "a lattice of 4,096 points with 496 pairs", &pairs)?;
    pairs[50] = [3721, 3785];
    lattice(rt, "the same, and pair 50 crosses pair 450", &pairs)?;
    pairs[400] = [1761, 1697];
    pairs[300] = [913, 977];
    let name = "the same, and 300 crosses 100, 400 crosses 200";
    lattice(rt, name, &pairs)?;
    pairs[495] = [4028, 4030];
    lattice(rt, "the same, and a point is inside pair 495", &pairs)
}

pub fn all(rt: &impl Print) -> io::Result<()> {
    grids(rt)?;
    corridors(rt)?;
    lattices(rt)
}
