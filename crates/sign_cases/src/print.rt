// What the intake prints.
use std::io;

pub fn text(rt: &impl Print, s: &[u8]) -> io::Result<()> {
    rt.write_all(s)
}

pub fn line_end(rt: &impl Print) -> io::Result<()> {
    text(rt, b"\n")
}

pub fn small(rt: &impl Print, n: i32) -> io::Result<()> {
    rt.print(n)
}

// A float by its bits; a NaN has no bits of its own.
pub fn float(rt: &impl Print, v: f64) -> io::Result<()> {
    if v.is_nan() {
        rt.print("a NaN")
    } else {
        print!(rt; "0x{:016x}", v.to_bits())
    }
}
