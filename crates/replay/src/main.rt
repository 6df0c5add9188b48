// Goes through the oracle's answers: figures, and for each what the original and the second implementation of the table answered. The cutter
// is asked the same, and its answer, its list, what it leaves in the lent lists and the checker's verdict are compared. `oracle/replay` makes
// the data, and says in oracle/src/replay.rs how.
#![tactic(auto)]

mod comparing;
mod reading;

use findings::telling::{self, Tally};
use reading::Stop;
use requests::reading::{Unread, read_text};
use std::env::Env;
use std::io::{self, Read};

// The cases, one after the other. The answer is whether the text has no more than the cases.
fn cases(rt: &impl Print, text: &[u8], tally: &mut Tally) -> Result<bool, Stop> {
    let (count, word) = texts::take_number::<u32>(text, 0)?;
    let mut at = word.end;
    for i in 0..count {
        at = reading::case_at(rt, text, at, i as usize, tally)?;
    }
    Ok(matches!(texts::next_word(text, at), Ok(None)))
}

fn of_text(rt: &impl Print, text: &[u8]) -> io::Result<()> {
    let mut tally = Tally::default();
    let is_whole = match cases(rt, text, &mut tally) {
        Ok(is_whole) => is_whole,
        Err(Stop::Data(_)) => false,
        Err(Stop::System(why)) => return Err(why),
    };
    telling::summary(rt, &tally, is_whole)
}

// The list has more room than the data need: where they fill it, their end is not seen, and they are not taken.
fn from(rt: &(impl Print + Eprint), input: &mut impl Read) -> io::Result<()> {
    let mut text = [0u8; 262144];
    match read_text(input, &mut text) {
        Ok(text) => of_text(rt, text),
        Err(Unread::TooLong) => rt.eprintln("replay: the data are too long"),
        Err(Unread::Failed(why)) => Err(why),
    }
}

fn main(rt: HostRuntime) -> io::Result<()> {
    let mut path = [0u8; 4096];
    let n = rt.arg(1, &mut path).unwrap_or(0);
    match requests::reading::open(&rt, &path[..n]) {
        Ok(mut file) => from(&rt, &mut file),
        Err(why) => {
            requests::failures::fail(rt.stderr(), &path[..n], &why);
            Ok(())
        }
    }
}
