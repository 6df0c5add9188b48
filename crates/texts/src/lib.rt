// The words of a text, which are the longest runs of bytes that are no white space, and the numbers that they are.
#![tactic(auto)]

ghost use Rattle.std.specs.Prelude.{◌≡◌, Bool, true, false, ℕ, ◌+◌, ◌*◌, ◌-◌, ◌≤◌, ◌<◌, length};
ghost use Rattle.texts.specs.Words.{is_space, is_digit, word_start, word_end, capped, digits_of, number_at, word_at, next_word};
ghost use Rattle.texts.specs.Figures.{signed, unsigned, allowed, entry_of, taken, entered, read_all, put_all, outcome, ended, figure_of};

// What is wrong with a text: the word at a place is no number, or one beyond the limit; words lack, or the one at a place is too much; or the
// lists have no room for the numbers.
#[derive(Clone, Copy, Debug, PartialEq, Eq)]
pub enum Fault {
    NotANumber(usize),
    DoesNotFit(usize),
    TooFew,
    TooMany(usize),
    NoRoom,
}

// A word that is a number: its sign, its size and the places where the word starts and ends.
#[derive(Clone, Copy, Debug, PartialEq, Eq)]
pub struct Number {
    pub minus: bool,
    pub size: u32,
    pub start: usize,
    pub end: usize,
}

// How many points and pairs a figure has.
#[derive(Clone, Copy, Debug, PartialEq, Eq)]
pub struct Figure {
    pub points: usize,
    pub pairs: usize,
}

// What a list of a figure holds: coordinates, or counts and point numbers.
pub trait Entry: Copy {
    ghost coordinate: { Bool };

    ghost value: { Bool → ℕ → Self };

    // The number of a size and a sign, where it may stand.
    fn entry(minus: bool, size: u32) -> Option<Self>
        ensures { result ≡ entry_of coordinate value minus size };
}

impl Entry for i32 {
    ghost coordinate = { true };

    ghost value = { signed };

    fn entry(minus: bool, size: u32) -> Option<i32> {
        match i32::try_from(size) {
            Ok(n) => Some(if minus { -n } else { n }),
            Err(_) => None,
        }
    }
}

impl Entry for u32 {
    ghost coordinate = { false };

    ghost value = { unsigned };

    #[tactic(auto, unfolding(crate::specs::Figures::allowed))]
    fn entry(minus: bool, size: u32) -> Option<u32> {
        (!minus || size == 0).then_some(size)
    }
}

// A byte is white space.
#[tactic(auto, unfolding(crate::specs::Words::is_space))]
pub fn is_space(b: u8) -> bool
    ensures { result ≡ is_space b }
{
    b == b' ' || (9..=13).contains(&b)
}

// A byte is a digit.
#[tactic(auto, unfolding(crate::specs::Words::is_digit))]
pub fn is_digit(b: u8) -> bool
    ensures { result ≡ is_digit b }
{
    b.is_ascii_digit()
}

// Where the next word starts: the first place from there on whose byte is no white space, or the text's end.
// This and `word_end` are `for` loops over the places, as the text's end is an answer too and the library has no law for `position` of a part.
pub fn word_start(text: &[u8], from: usize) -> usize
    ensures { result ≡ word_start text.now from }
{
    for i in from..text.len() {
        if !is_space(text[i]) {
            return i;
        }
    }
    from.max(text.len())
}

// Where a word ends: the first place from there on whose byte is white space, or the text's end.
pub fn word_end(text: &[u8], from: usize) -> usize
    requires { from ≤ length text.now }
    ensures { (result ≡ word_end text.now from) × (from ≤ result) × (result ≤ length text.now) }
{
    for i in from..text.len() {
        if is_space(text[i]) {
            return i;
        }
    }
    text.len()
}

// One digit more.
#[tactic(auto, using(crate::proofs::Words::capped_is))]
fn more(v: u64, b: u8) -> u64
    requires { (v ≤ 4294967296) × (48 ≤ b) × (b ≤ 57) }
    ensures { result ≡ capped (10 * v + (b - 48)) }
{
    (10 * v + (b - b'0') as u64).min(4294967296)
}

// The number that the bytes of a part of the text are, where they are digits. A number beyond the limit is answered as the limit and one.
// The limit and one for too large is what `capped` and `digits_of` of specs/ say.
pub fn read_digits(text: &[u8], from: usize, end: usize) -> Option<u64>
    requires { (from ≤ end) × (end ≤ length text.now) }
    ensures { result ≡ digits_of text.now from (end - from) }
{
    let mut v: u64 = 0;
    for i in from..end {
        if !is_digit(text[i]) {
            return None;
        }
        v = more(v, text[i]);
    }
    Some(v)
}

// The word at start, whose digits are from place i to its end.
// The sign stays a flag beside the size: a count may be -0, and specs/ tells the two apart.
fn number_at(text: &[u8], start: usize, minus: bool, i: usize, end: usize) -> Result<Number, Fault>
    requires { end ≤ length text.now }
    ensures { result ≡ number_at text.now start minus i end }
{
    if end <= i {
        return Err(Fault::NotANumber(start));
    }
    let Some(v) = read_digits(text, i, end) else {
        return Err(Fault::NotANumber(start));
    };
    if v > 4294967295 {
        return Err(Fault::DoesNotFit(start));
    }
    Ok(Number {
        minus,
        size: v as u32,
        start,
        end,
    })
}

// The word from start to end.
fn word_at(text: &[u8], start: usize, end: usize) -> Result<Number, Fault>
    requires { (start < length text.now) × (end ≤ length text.now) }
    ensures { result ≡ word_at text.now start end }
{
    if text[start] == b'-' {
        return number_at(text, start, true, start + 1, end);
    }
    number_at(text, start, false, start, end)
}

// The first word from a place on, where there is one.
pub fn next_word(text: &[u8], from: usize) -> Result<Option<Number>, Fault>
    ensures { result ≡ next_word text.now from }
{
    let start = word_start(text, from);
    if start >= text.len() {
        return Ok(None);
    }
    let end = word_end(text, start);
    word_at(text, start, end).map(Some)
}

// The next number, and its word, which has the sign too: of a count -0 is the number 0.
pub fn take_number<T: Entry>(text: &[u8], from: usize) -> Result<(T, Number), Fault>
    ensures { result ≡ entered T.value (taken T.coordinate (next_word text.now from)) }
{
    let Some(word) = next_word(text, from)? else {
        return Err(Fault::TooFew);
    };
    match T::entry(word.minus, word.size) {
        Some(value) => Ok((value, word)),
        None => Err(Fault::DoesNotFit(word.start)),
    }
}

// The next numbers become the first of the list. The answer is the place after them.
// The list and the count are two arguments, since the clause says what the whole list holds afterwards.
pub fn read_numbers<T: Entry>(
    text: &[u8],
    from: usize,
    list: &mut [T],
    count: usize,
) -> Result<usize, Fault>
    requires { count ≤ length list.old }
    ensures { (result ≡ read_all T.coordinate text.now from count) × (list.new ≡ put_all T.coordinate T.value text.now from 0 count list.old) }
{
    let mut at = from;
    for p in 0..count {
        let (value, word) = take_number(text, at)?;
        list[p] = value;
        at = word.end;
    }
    Ok(at)
}

// No word follows a figure.
fn finish(text: &[u8], at: usize, figure: Figure) -> Result<Figure, Fault>
    ensures { result ≡ ended figure.points figure.pairs (next_word text.now at) }
{
    let start = word_start(text, at);
    if start < text.len() {
        return Err(Fault::TooMany(start));
    }
    Ok(figure)
}

// A figure from its text: n, m, then 2n coordinates into the points, then 2m point numbers into the pairs.
pub fn read_figure(text: &[u8], points: &mut [i32], pairs: &mut [u32]) -> Result<Figure, Fault>
    ensures { outcome result points.new pairs.new ≡ figure_of text.now points.old pairs.old }
{
    let (n, word) = take_number::<u32>(text, 0)?;
    let (m, word) = take_number::<u32>(text, word.end)?;
    let n = n as usize;
    let m = m as usize;
    if points.len() < 2 * n || pairs.len() < 2 * m {
        return Err(Fault::NoRoom);
    }
    let at = read_numbers(text, word.end, points, 2 * n)?;
    let at = read_numbers(text, at, pairs, 2 * m)?;
    finish(
        text,
        at,
        Figure {
            points: n,
            pairs: m,
        },
    )
}
