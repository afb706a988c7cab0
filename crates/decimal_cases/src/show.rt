// What a letter shows, each with a blank before it.
use std::io;

// A byte as it stands. By `write_all`: bytes need be no text, which `print!` takes.
pub(crate) fn byte(rt: &impl Print, b: u8) -> io::Result<()> {
    rt.write_all(&[b])
}

// The number that is read from a text, with the place after it.
pub(crate) fn read(rt: &impl Print, text: &[u8], at: usize, bound: u32) -> io::Result<()> {
    match decimal::read(text, at, bound) {
        Some((n, next)) => print!(rt; " {n}, next {next}"),
        None => print!(rt; " nothing"),
    }
}

// How many digits a number has.
pub(crate) fn digits(rt: &impl Print, n: u32) -> io::Result<()> {
    print!(rt; " {}", decimal::digits(n))
}

// The place after the numeral, and sixteen bytes of which the first `size` are the buffer.
pub(crate) fn written(rt: &impl Print, n: u32, size: usize, at: usize) -> io::Result<()> {
    let mut bytes = [b'.'; 16];
    let Some(buffer) = bytes.get_mut(..size) else {
        return Ok(());
    };
    match decimal::write(n, buffer, at) {
        Some(next) => print!(rt; " next {next} ")?,
        None => print!(rt; " no room ")?,
    }
    rt.write_all(&bytes)
}
