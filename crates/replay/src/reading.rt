// One case of the data. It has how many coordinates and numbers of pairs there are, the lengths of the output and of the working area, the
// count of the triangles, which is 0 for a refusal; then the coordinates, the numbers of the pairs, and three numbers for each triangle, or the
// row and the place.
use crate::comparing;
use findings::telling::Tally;
use findings::{Expected, MARK};
use std::io;
use texts::{Entry, Fault};

// How many numbers the answer has. Of more triangles than the lists have room for, none are read. That 0 triangles are a refusal is the form of
// the data, which stays.
fn size(triangles: usize) -> usize {
    match triangles {
        0 => 2,
        1..86 => 3 * triangles,
        _ => 1000,
    }
}

// Why the data end before a case does: the text has a fault, or the system refused what was told of a case.
#[derive(Drop)]
pub enum Stop {
    Data(Fault),
    System(io::Error),
}

impl From<Fault> for Stop {
    fn from(fault: Fault) -> Stop {
        Stop::Data(fault)
    }
}

impl From<io::Error> for Stop {
    fn from(why: io::Error) -> Stop {
        Stop::System(why)
    }
}

// ---- the words of a case

// So many numbers, into the first part of the list: that part, and the place after them.
fn read<'a, T: Entry>(
    text: &[u8],
    from: usize,
    list: &'a mut [T],
    count: usize,
) -> Result<(&'a mut [T], usize), Fault> {
    let part = list.get_mut(..count).ok_or(Fault::NoRoom)?;
    let next = texts::read_numbers(text, from, part, count)?;
    Ok((part, next))
}

// ---- the case itself

// The place after the case. Each list is as long as the case's head says.
pub fn case_at(
    rt: &impl Print,
    text: &[u8],
    from: usize,
    case: usize,
    tally: &mut Tally,
) -> Result<usize, Stop> {
    let mut head = [0u32; 5];
    let mut points = [0i32; 64];
    let mut pairs = [0u32; 512];
    let mut expected = [0u32; 256];
    let at = texts::read_numbers(text, from, &mut head, 5)?;
    let [places, ends, room, work_room, triangles] = head.map(|n| n as usize);
    let (points, at) = read(text, at, &mut points, places)?;
    let (pairs, at) = read(text, at, &mut pairs, ends)?;
    let (list, at) = read(text, at, &mut expected, size(triangles))?;
    let expected = match &*list {
        &[number, place] if triangles == 0 => Expected::Refused { number, place },
        list => Expected::Sheet(list),
    };
    let mut out = [MARK; 256];
    let mut work = [MARK; 2048];
    let out = &mut out[..room.min(256)];
    let work = &mut work[..work_room.min(2048)];
    let finding = comparing::compared(points, pairs, expected, out, work);
    tally.found(rt, case, expected, finding)?;
    Ok(at)
}
