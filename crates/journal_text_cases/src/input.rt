// Standard input, from one byte to the next.
use std::io;
use std::io::Read;

// The next byte, or 0 at the end.
pub(crate) fn next(input: &mut impl Read) -> io::Result<u8> {
    let mut one = [0u8; 1];
    input.read(&mut one)?;
    Ok(one[0])
}

// The number whose digits stand next, at most nine of them, up to a blank or a line end, which is taken too.
pub(crate) fn number(input: &mut impl Read) -> io::Result<usize> {
    let mut n = 0;
    for _ in 0..10 {
        let b = next(input)?;
        if b < b'0' {
            break;
        }
        n = n % 100000000 * 10 + usize::from(b - b'0');
    }
    Ok(n)
}

// Shows the bytes up to a quote, of which there are at most 100, as a line.
// By `write_all`: bytes need be no text, which `print!` takes.
pub(crate) fn label(rt: &impl Print, input: &mut impl Read) -> io::Result<()> {
    for _ in 0..100 {
        let b = next(input)?;
        if b == b'"' {
            return println!(rt);
        }
        rt.write_all(&[b])?;
    }
    Ok(())
}
