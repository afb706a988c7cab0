// The text, of whose room the first `size` bytes are in use.
use crate::input;
use std::io::Read;
use std::rt::Files;
use std::{fs, io};

// Reads until the buffer is full or the input ends, and answers how many bytes came.
// No `read_exact`: a short input keeps what came.
fn read_full(input: &mut impl Read, buf: &mut [u8]) -> io::Result<usize> {
    let mut end = 0;
    while end < buf.len() {
        let got = input.read(&mut buf[end..])?;
        if got == 0 {
            break;
        }
        end += got;
    }
    Ok(end)
}

// The number of bytes of the vector that the input names, read into `text`.
pub(crate) fn load<R: Files + Eprint>(
    rt: &R,
    input: &mut impl Read,
    text: &mut [u8],
) -> io::Result<usize> {
    let mut name = [0u8; 6];
    read_full(input, &mut name)?;
    let path = str::from_utf8(&name).unwrap_or("");
    match fs::open(rt, path) {
        Ok(mut file) => read_full(&mut file, text),
        Err(error) => {
            eprintln!(rt; "{path}: {error}")?;
            Ok(0)
        }
    }
}

// Adds the bytes up to `>`, as far as there is room, and answers the size.
pub(crate) fn add(input: &mut impl Read, text: &mut [u8], size: usize) -> io::Result<usize> {
    for at in size..text.len() {
        let b = input::next(input)?;
        if b == b'>' {
            return Ok(at);
        }
        text[at] = b;
    }
    Ok(size.max(text.len()))
}
