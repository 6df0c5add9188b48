// What the arguments ask for.
use std::env::{Env, FillError};

// The two forms of the answer: a line, or a picture of the sheet.
#[derive(Clone, Copy, Debug, PartialEq, Eq)]
pub enum Form {
    Line,
    Picture,
}

// The form of the answer, and which argument names the file, if one does; or what the program does instead: it says how it is used, or which
// argument it does not take.
#[derive(Clone, Copy, Debug, PartialEq, Eq)]
pub enum Wish {
    Cut { form: Form, file: Option<usize> },
    Help,
    Unknown(usize),
    Second(usize),
}

// What one argument is.
#[derive(Clone, Copy, Debug, PartialEq, Eq)]
enum Kind {
    Svg,
    Help,
    Option,
    Name,
}

fn kind_of(word: &[u8]) -> Kind {
    match word {
        b"--svg" => Kind::Svg,
        b"--help" => Kind::Help,
        [b'-', ..] => Kind::Option,
        _ => Kind::Name,
    }
}

// Argument i, if there are so many. One that is too long for a path is taken for a name, which then cannot be opened.
fn kind_at(rt: &impl Env, i: usize) -> Option<Kind> {
    let mut word = [0u8; 4096];
    match rt.arg(i, &mut word) {
        Ok(n) => Some(kind_of(&word[..n])),
        Err(FillError::TooLong) => Some(Kind::Name),
        Err(FillError::NotPresent) => None,
    }
}

// The arguments from the first to the last, in any order; the first that is not taken is the answer.
pub fn asked(rt: &impl Env) -> Wish {
    let mut form = Form::Line;
    let mut file = None;
    for i in 1..usize::MAX {
        let Some(kind) = kind_at(rt, i) else {
            break;
        };
        match kind {
            Kind::Svg => form = Form::Picture,
            Kind::Help => return Wish::Help,
            Kind::Option => return Wish::Unknown(i),
            Kind::Name if file.is_some() => return Wish::Second(i),
            Kind::Name => file = Some(i),
        }
    }
    Wish::Cut { form, file }
}
