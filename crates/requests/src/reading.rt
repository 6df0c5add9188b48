// The file of a name, and a whole text into a list.
ghost use Rattle.std.specs.Prelude.{◌≡◌, IsErrAnd, IsUtf8};
ghost use Rattle.std.specs.IoError.{error_kind};

use std::fs::{self, Files};
use std::io::{self, Error, ErrorKind, Read};

// A path of std is text: a name that is no UTF-8 is refused, and nothing is opened.
pub fn open<R: Files>(files: &R, path: &[u8]) -> io::Result<R::File>
    ensures { (IsUtf8 path.now → ⊥) → IsErrAnd result (λ e. error_kind e ≡ ErrorKind.InvalidFilename) }
{
    match str::from_utf8(path) {
        Ok(name) => fs::open(files, name),
        Err(_) => Err(Error::from(ErrorKind::InvalidFilename)),
    }
}

// Why there is no text: it does not end within the list; or the system refused, and why.
#[derive(Drop)]
pub enum Unread {
    TooLong,
    Failed(Error),
}

impl From<Error> for Unread {
    fn from(why: Error) -> Unread {
        Unread::Failed(why)
    }
}

// Reads to the text's end, and answers the part of the list that the text is. A list that is filled holds no whole text, since its end was not
// met.
pub fn read_text<'a>(input: &mut impl Read, text: &'a mut [u8]) -> Result<&'a [u8], Unread> {
    let mut at = 0;
    while at < text.len() {
        let n = input.read(&mut text[at..])?;
        if n == 0 {
            return Ok(&text[..at]);
        }
        at += n;
    }
    Err(Unread::TooLong)
}
