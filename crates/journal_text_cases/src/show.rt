// Prints answers.
use journal::Index;
use journal_text::{OutOfShape, ReadError, WriteError};
use std::io;

pub(crate) fn read(rt: &impl Print, answer: Result<usize, ReadError>) -> io::Result<()> {
    match answer {
        Ok(entries) => println!(rt; "0 {entries}"),
        Err(ReadError::BadLine(offset)) => println!(rt; "16 {offset}"),
        Err(ReadError::TooShort) => println!(rt; "17"),
    }
}

pub(crate) fn cleaned(rt: &impl Print, answer: Result<(), OutOfShape>) -> io::Result<()> {
    match answer {
        Ok(()) => println!(rt; "0"),
        Err(OutOfShape) => println!(rt; "1"),
    }
}

pub(crate) fn wrote(rt: &impl Print, answer: Result<usize, WriteError>) -> io::Result<()> {
    match answer {
        Ok(bytes) => println!(rt; "0 {bytes}"),
        Err(WriteError::OutOfShape) => println!(rt; "1"),
        Err(WriteError::NoLine(Index(index))) => println!(rt; "16 {index}"),
        Err(WriteError::TooShort) => println!(rt; "17"),
    }
}
