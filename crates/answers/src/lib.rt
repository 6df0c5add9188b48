// The answer on standard output: the line of a sheet or of a refusal, or a picture of the sheet.
#![tactic(auto)]

use pages::Pen;
use requests::arguments::Form;
use std::io::{Result, Write};
use tables::Refusal;

// Says so where not all of the answer went out.
fn end<E: Write + Drop>(err: E, name: &[u8], written: Result<()>) {
    if written.is_err() {
        messages::plain(err, name, "not all of the answer could be written");
    }
}

// The count of the triangles, and the list.
fn sheet_line<O: Write + Drop>(out: O, list: &[u32]) -> Result<()> {
    let mut pen = Pen::new(out);
    let count = list.len() / 3;
    write!(pen, "{count}")?;
    for corner in list {
        write!(pen, " {corner}")?;
    }
    writeln!(pen)?;
    pen.finish()
}

fn sheet_picture<O: Write + Drop>(
    out: O,
    points: &[i32],
    pairs: &[u32],
    list: &[u32],
) -> Result<()> {
    let mut pen = Pen::new(out);
    pictures::draw(&mut pen, points, pairs, list);
    pen.finish()
}

fn refusal_line<O: Write + Drop>(out: O, r: Refusal) -> Result<()> {
    let mut pen = Pen::new(out);
    let number = row_numbers::number(r);
    let place = row_numbers::place(r);
    writeln!(pen, "0 {number} {place}")?;
    pen.finish()
}

pub fn sheet<O: Write + Drop, E: Write + Drop>(
    out: O,
    err: E,
    name: &[u8],
    form: Form,
    points: &[i32],
    pairs: &[u32],
    list: &[u32],
) {
    let written = match form {
        Form::Line => sheet_line(out, list),
        Form::Picture => sheet_picture(out, points, pairs, list),
    };
    end(err, name, written);
}

// A refusal is an answer of its own; there is no picture of it.
pub fn refusal<O: Write + Drop, E: Write + Drop>(
    out: O,
    err: E,
    name: &[u8],
    form: Form,
    r: Refusal,
) {
    match form {
        Form::Line => end(err, name, refusal_line(out, r)),
        Form::Picture => messages::no_picture(err, name, r),
    }
}
