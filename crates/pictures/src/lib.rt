// A picture of a sheet, in the figure's own coordinates with y upwards.
#![tactic(auto)]

use frames::{Frame, Place, Thousandths};
use pages::Pen;
use std::io::{Result, Write};

fn head<W: Write>(pen: &mut W, frame: &Frame) -> Result<()> {
    let Frame {
        left,
        top,
        width,
        height,
        dots_wide,
        dots_high,
        letter: _,
    } = *frame;
    write!(
        pen,
        "<svg xmlns=\"http://www.w3.org/2000/svg\" viewBox=\"{left} {top} {width} {height}\""
    )?;
    writeln!(pen, " width=\"{dots_wide}\" height=\"{dots_high}\">")?;
    write!(pen, "<rect x=\"{left}\" y=\"{top}\"")?;
    writeln!(
        pen,
        " width=\"{width}\" height=\"{height}\" fill=\"white\"/>"
    )
}

fn triangles<W: Write>(pen: &mut W, points: &[i32], list: &[u32]) -> Result<()> {
    for corners in list.chunks_exact(3) {
        if let [p, q, r] = *corners {
            let a = Place::of(points, p);
            let b = Place::of(points, q);
            let c = Place::of(points, r);
            writeln!(pen, "<path d=\"M{a} {b} {c}Z\"/>")?;
        }
    }
    Ok(())
}

fn lines<W: Write>(pen: &mut W, points: &[i32], pairs: &[u32]) -> Result<()> {
    for ends in pairs.chunks_exact(2) {
        if let [p, q] = *ends {
            let a = Place::of(points, p);
            let b = Place::of(points, q);
            writeln!(pen, "<path d=\"M{a} {b}\"/>")?;
        }
    }
    Ok(())
}

// How many points the list has; a sheet has at most 4,096.
fn count(points: &[i32]) -> u32 {
    (points.len() / 2).min(4096) as u32
}

fn dots<W: Write>(pen: &mut W, points: &[i32], radius: Thousandths) -> Result<()> {
    for p in 0..count(points) {
        let Place { x, y } = Place::of(points, p);
        writeln!(pen, "<circle cx=\"{x}\" cy=\"{y}\" r=\"{radius}\"/>")?;
    }
    Ok(())
}

// The numbers of the points, with y downwards, so that the digits stand upright.
fn labels<W: Write>(pen: &mut W, points: &[i32]) -> Result<()> {
    for p in 0..count(points) {
        let place = Place::of(points, p);
        let x = place.x;
        let y = place.down();
        writeln!(pen, "<text x=\"{x}\" y=\"{y}\">{p}</text>")?;
    }
    Ok(())
}

// The group of the triangles, thin, and that of the demanded lines, heavy.
fn strokes<W: Write>(
    pen: &mut W,
    points: &[i32],
    pairs: &[u32],
    list: &[u32],
    unit: usize,
) -> Result<()> {
    let thin = Thousandths(unit / 24);
    let heavy = Thousandths(unit / 6);
    writeln!(pen, "<g stroke=\"#777\" stroke-width=\"{thin}\">")?;
    triangles(pen, points, list)?;
    writeln!(pen, "</g>\n<g stroke=\"black\" stroke-width=\"{heavy}\">")?;
    lines(pen, points, pairs)?;
    writeln!(pen, "</g>")
}

// The group of the points, and that of their numbers, a little to the right and above, each with a rim that keeps the lines off it.
fn marks<W: Write>(pen: &mut W, points: &[i32], unit: usize) -> Result<()> {
    let size = Thousandths(unit);
    let radius = Thousandths(unit / 6);
    let shift = Thousandths(unit / 4);
    writeln!(pen, "<g fill=\"black\">")?;
    dots(pen, points, radius)?;
    write!(
        pen,
        "</g>\n</g>\n<g font-family=\"sans-serif\" font-size=\"{size}\" fill=\"#05a\""
    )?;
    write!(
        pen,
        " stroke=\"white\" paint-order=\"stroke\" stroke-width=\"{radius}\""
    )?;
    writeln!(pen, " transform=\"translate({shift} -{shift})\">")?;
    labels(pen, points)?;
    writeln!(pen, "</g>")
}

// The picture, as far as its writes succeed.
pub fn write_picture<W: Write>(
    pen: &mut W,
    points: &[i32],
    pairs: &[u32],
    list: &[u32],
) -> Result<()> {
    let frame = Frame::of(points);
    head(pen, &frame)?;
    writeln!(
        pen,
        "<g transform=\"scale(1 -1)\" fill=\"none\" stroke-linejoin=\"round\" stroke-linecap=\"round\">"
    )?;
    strokes(pen, points, pairs, list, frame.letter)?;
    marks(pen, points, frame.letter)?;
    writeln!(pen, "</svg>")
}

// A pen takes all that it is given, and tells at its end whether that went out.
pub fn draw<W: Write>(pen: &mut Pen<W>, points: &[i32], pairs: &[u32], list: &[u32]) {
    let _ = write_picture(pen, points, pairs, list);
}
