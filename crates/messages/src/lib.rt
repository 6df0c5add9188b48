// What is said on standard error where there is no answer: what is wrong, and where.
#![tactic(auto)]

use pages::Pen;
use std::convert::AsSlice;
use std::fmt;
use std::io::{Result, Write};
use tables::Refusal;
use texts::Fault;

// The line and the column of a place, both from 1; a column is a byte.
#[derive(Clone, Copy, Debug, PartialEq, Eq)]
pub struct Spot {
    line: usize,
    column: usize,
}

impl Spot {
    fn of(text: &[u8], place: usize) -> Spot {
        let mut spot = Spot { line: 1, column: 1 };
        for b in text.iter().take(place) {
            if *b == b'\n' {
                spot.line = spot.line.saturating_add(1);
                spot.column = 1;
            } else {
                spot.column = spot.column.saturating_add(1);
            }
        }
        spot
    }
}

impl fmt::Display for Spot {
    fn fmt<W: fmt::Write>(&self, f: &mut fmt::Formatter<W>) -> fmt::Result {
        let line = self.line;
        let column = self.column;
        write!(f, "line {line}, column {column}: ")
    }
}

// The count of the text's words.
fn words(text: &[u8]) -> usize {
    text.split(|b| texts::is_space(*b))
        .filter(|word| !word.is_empty())
        .count()
}

// A byte that would not be seen is shown as a question mark.
fn shown(b: u8) -> u8 {
    if b.is_ascii_graphic() { b } else { b'?' }
}

// The word at a place in quotes; of a long one the first 40 bytes.
fn quoted<W: Write>(pen: &mut W, text: &[u8], place: usize) -> Result<()> {
    pen.write_all(b"'")?;
    for (i, b) in text.iter().skip(place).enumerate() {
        if texts::is_space(*b) {
            break;
        }
        if i == 40 {
            pen.write_all(b"...")?;
            break;
        }
        pen.write_all(&[shown(*b)])?;
    }
    pen.write_all(b"'")
}

// How many numbers the two counts ask for, and how many words there are; or which of the two counts is missing.
fn counts<W: Write>(pen: &mut W, text: &[u8]) -> Result<()> {
    let Ok((n, first)) = texts::take_number::<u32>(text, 0) else {
        return write!(pen, "n, the count of the points, is missing");
    };
    let Ok((m, _)) = texts::take_number::<u32>(text, first.end) else {
        return write!(pen, "m, the count of the pairs, is missing");
    };
    let asked = 2 + 2 * (n as usize) + 2 * (m as usize);
    let there = words(text);
    write!(
        pen,
        "n = {n} and m = {m} ask for {asked} numbers, and the text has {there}"
    )
}

// Who speaks, and what of.
fn start<W: Write>(pen: &mut W, name: &[u8]) -> Result<()> {
    pen.write_all(b"cut_figure: ")?;
    pen.write_all(name)?;
    pen.write_all(b": ")
}

// The word at a place, and what is wrong with it.
fn word<W: Write>(pen: &mut W, text: &[u8], place: usize, what: &str) -> Result<()> {
    let spot = Spot::of(text, place);
    write!(pen, "{spot}")?;
    quoted(pen, text, place)?;
    write!(pen, "{what}")
}

fn wrong<W: Write>(pen: &mut W, text: &[u8], fault: Fault) -> Result<()> {
    match fault {
        Fault::NotANumber(place) => word(
            pen,
            text,
            place,
            " is not a whole number in decimal digits",
        ),
        Fault::DoesNotFit(place) => word(
            pen,
            text,
            place,
            " does not fit: a coordinate is at most 2147483647 in size, any other number is from 0 to 4294967295",
        ),
        Fault::TooMany(place) => {
            word(pen, text, place, " is too much: ")?;
            counts(pen, text)
        }
        // There is no room where a count asks for more numbers than the text has words.
        Fault::TooFew | Fault::NoRoom => {
            let spot = Spot::of(text, text.len());
            write!(pen, "{spot}the text ends too early: ")?;
            counts(pen, text)
        }
    }
}

// A refusal in words: its number, its place, and why.
#[derive(Drop)]
struct Reason(Refusal);

impl fmt::Display for Reason {
    fn fmt<W: fmt::Write>(&self, f: &mut fmt::Formatter<W>) -> fmt::Result {
        let r = self.0;
        let number = row_numbers::number(r);
        let place = row_numbers::place(r);
        let (what, why) = match r {
            Refusal::OddLength => ("place", "a list has odd length"),
            Refusal::Counts => (
                "place",
                "fewer than 3 points, more than 4096 points or more than 12288 pairs",
            ),
            Refusal::Room => ("place", "the output or the working area is too short"),
            Refusal::FarPoint(_) => ("point", "a coordinate is below -8192 or above 8192"),
            Refusal::NoArea => ("place", "the base has no area"),
            Refusal::OutsidePoint(_) => ("point", "the point is outside the base"),
            Refusal::EqualPoint(_) => ("point", "the point equals one with a lower number"),
            Refusal::BadPair(_) => (
                "pair",
                "an end of the pair is no point, or its ends are equal",
            ),
            Refusal::BlockedPair(_) => {
                ("pair", "a point lies strictly inside the pair's segment")
            }
            Refusal::CrossingPair(_) => ("pair", "the pair crosses one with a lower index"),
            Refusal::StuckPair(_) => ("pair", "the recovery of the pair sticks"),
        };
        write!(f, "refusal {number}, {what} {place}: {why}")
    }
}

// A message of one line: who speaks and what of, and what the closure writes.
fn try_line<E: Write + Drop, F>(err: E, name: &[u8], say: F) -> Result<()>
where
    F: FnOnce(&mut Pen<E>) -> Result<()>,
    requires { F.IsAlwaysCallable say }
{
    let mut pen = Pen::new(err);
    start(&mut pen, name)?;
    say(&mut pen)?;
    writeln!(pen)?;
    pen.finish()
}

// A message with no place in a text. What does not go out of a message is lost: there is nowhere left to say so.
pub fn plain<W: Write + Drop, S: AsSlice<u8> + Drop>(err: W, name: &[u8], what: S) {
    let what = what.as_slice();
    let _ = try_line(err, name, |pen| pen.write_all(what));
}

// What is wrong with a text, and where.
pub fn fault<W: Write + Drop>(err: W, name: &[u8], text: &[u8], fault: Fault) {
    let _ = try_line(err, name, |pen| wrong(pen, text, fault));
}

// Why there is no picture.
pub fn no_picture<W: Write + Drop>(err: W, name: &[u8], r: Refusal) {
    let reason = Reason(r);
    let _ = try_line(
        err,
        name,
        |pen| write!(pen, "no picture, since the figure is refused: {reason}"),
    );
}
