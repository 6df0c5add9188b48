// What is said on standard error where the system refuses.
use std::io::{Cursor, Error, Write};

// The system's own words: the library adds the number of the error to them, as in `No such file or directory (os error 2)`. Zeros are room
// that nothing was said in.
fn words(said: &[u8]) -> &[u8] {
    let end = (0..said.len()).position(|i| said[i] == 0 || said[i..].starts_with(b" (os error "));
    match end {
        Some(i) => &said[..i],
        None => said,
    }
}

// A line: what failed, as the caller names it, a colon and the system's words.
pub fn fail<W: Write + Drop>(err: W, what: &[u8], why: &Error) {
    let mut err = err;
    let mut room = Cursor::new([0u8; 256]);
    let _ = write!(room, "{why}");
    let said = room.into_inner();
    let _ = err.write_all(what);
    let _ = err.write_all(b": ");
    let _ = err.write_all(words(&said));
    let _ = err.write_all(b"\n");
}
