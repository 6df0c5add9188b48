// The limits of document 01 on the numbers of points and of pairs.
ghost use Rattle.std.specs.Prelude.{◌<◌, ◌^◌};

use crate::figures;
use reports::MARK;
use runs::Run;
use std::io;

// Every pair runs from point 0 to point 1.
fn same_pairs(rt: &impl Print) -> io::Result<()> {
    let pairs = [[0, 1]; 12289];
    let points = &[0, 0, 8, 0, 0, 8, 2, 2];
    let most = Run {
        name: "m = 12,288, all the same",
        points,
        pairs: pairs[..12288].as_flattened(),
    };
    let too_many = Run {
        name: "m = 12,289",
        points,
        pairs: pairs.as_flattened(),
    };
    runs::small(rt, &[most, too_many])
}

// No pairs, and an output and a working area of these lengths, which are gone from the stack before the next case.
#[inline(never)]
fn bare<R: Print, const OUT: usize, const WORK: usize>(
    rt: &R,
    name: &str,
    points: &[[i32; 2]],
) -> io::Result<()>
    requires out { OUT < 2 ^ 32 }
    requires work { WORK < 2 ^ 32 }
{
    let run = Run {
        name,
        points: points.as_flattened(),
        pairs: &[],
    };
    run.cut(rt, &mut [MARK; OUT], &mut [MARK; WORK])
}

// Point p stands at x = p, and y leaps.
fn scattered(rt: &impl Print) -> io::Result<()> {
    let mut points = [[0; 2]; 4097];
    figures::put(&mut points, -1, 8192, |p| {
        let x = p % 4096;
        [x as i32, (x * 2503 % 4093) as i32]
    });
    let most = &points[..4096];
    bare::<_, 24561, 262144>(rt, "n = 4,096", most)?;
    bare::<_, 24567, 262208>(rt, "n = 4,097", &points)?;
    let name = "n = 4,096, a working area of 64n - 1";
    bare::<_, 24561, 262143>(rt, name, most)
}

pub fn all(rt: &impl Print) -> io::Result<()> {
    same_pairs(rt)?;
    scattered(rt)
}
