// Reads a figure as text and prints the line of its answer, or a picture of its sheet.
#![tactic(auto)]

use requests::arguments::{Form, Wish};
use requests::failures;
use requests::reading::{self, Unread, read_text};
use std::env::{Env, FillError};
use std::io::{Error, Read};

// A text that is to be cut: the runtime, whose outputs take the answer and the messages, the name of the text, with which each message begins,
// and the form of the answer.
#[derive(Clone, Copy)]
struct Task<'a> {
    rt: HostRuntime,
    name: &'a [u8],
    form: Form,
}

impl Task<'_> {
    // The sheet is the first part of the output. A sheet has as many numbers as its count says: the room never ends before.
    fn cut(self, points: &[i32], pairs: &[u32], out: &mut [u32], work: &mut [u32]) {
        let Task { rt, name, form } = self;
        match cutter::cut(points, pairs, out, work) {
            Ok(count) => {
                let list = out.get(..count.saturating_mul(3)).unwrap_or(out);
                answers::sheet(rt.stdout(), rt.stderr(), name, form, points, pairs, list);
            }
            Err(r) => answers::refusal(rt.stdout(), rt.stderr(), name, form, r),
        }
    }

    // The output and the working area suffice for 4,096 points, so that row 3 of the table is never met here.
    fn answer(self, points: &[i32], pairs: &[u32]) {
        let mut out = [0u32; 24561];
        let mut work = [0u32; 262144];
        self.cut(points, pairs, &mut out, &mut work);
    }

    // The figure is the first part of each list. It has as many numbers as its counts say: the room never ends before.
    fn read(self, text: &[u8], points: &mut [i32], pairs: &mut [u32]) {
        match texts::read_figure(text, points, pairs) {
            Ok(figure) => {
                let points = points
                    .get(..figure.points.saturating_mul(2))
                    .unwrap_or(points);
                let pairs = pairs.get(..figure.pairs.saturating_mul(2)).unwrap_or(pairs);
                self.answer(points, pairs);
            }
            Err(fault) => messages::fault(self.rt.stderr(), self.name, text, fault),
        }
    }

    // A text of 524,288 bytes has at most 262,144 words, so each list has room for all of them, and every refusal of the counts is the table's.
    fn of_text(self, text: &[u8]) {
        let mut points = [0i32; 262144];
        let mut pairs = [0u32; 262144];
        self.read(text, &mut points, &mut pairs);
    }

    // The list has one byte more than a text may have. Merged into `main`, it would take that room of the stack for `--help` too.
    #[inline(never)]
    fn of_input(self, input: &mut impl Read) {
        let mut text = [0u8; 524289];
        let err = self.rt.stderr();
        match read_text(input, &mut text) {
            Ok(text) => self.of_text(text),
            Err(Unread::TooLong) => {
                messages::plain(err, self.name, "the text is longer than 524288 bytes");
            }
            Err(Unread::Failed(why)) => failures::fail(err, self.name, &why),
        }
    }
}

fn from_path(rt: HostRuntime, path: &[u8], form: Form) {
    match reading::open(&rt, path) {
        Ok(mut file) => {
            let task = Task {
                rt,
                name: path,
                form,
            };
            task.of_input(&mut file);
        }
        Err(why) => failures::fail(rt.stderr(), path, &why),
    }
}

// A name that is too long, and an argument that is missing, by the system's numbers, since an `ErrorKind` has other words than the system's.
fn no_name(why: FillError) -> Error {
    match why {
        FillError::TooLong => Error::from_raw_os_error(36),
        FillError::NotPresent => Error::from_raw_os_error(22),
    }
}

fn from_file(rt: HostRuntime, i: usize, form: Form) {
    let mut path = [0u8; 4096];
    match rt.arg(i, &mut path) {
        Ok(n) => from_path(rt, &path[..n], form),
        Err(why) => failures::fail(rt.stderr(), b"the file's name", &no_name(why)),
    }
}

fn from_input(rt: HostRuntime, form: Form) {
    let task = Task {
        rt,
        name: b"standard input",
        form,
    };
    task.of_input(&mut rt.stdin());
}

fn wrong_argument(rt: HostRuntime, i: usize, what: &str) {
    let mut word = [0u8; 4096];
    let n = rt.arg(i, &mut word).unwrap_or(0);
    messages::plain(rt.stderr(), &word[..n], what);
}

// The exit status is 0 also where there is a message and no answer; the command `dergulam` tells the two apart.
fn main(rt: HostRuntime) {
    match requests::arguments::asked(&rt) {
        Wish::Cut {
            form,
            file: Some(i),
        } => from_file(rt, i, form),
        Wish::Cut { form, file: None } => from_input(rt, form),
        Wish::Help => {
            let _ = requests::help::print(&rt);
        }
        Wish::Unknown(i) => wrong_argument(
            rt,
            i,
            "there is no such option (--help says which there are)",
        ),
        Wish::Second(i) => wrong_argument(rt, i, "a second file (--help says what is read)"),
    }
}
