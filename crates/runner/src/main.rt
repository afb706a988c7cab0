// The runner: plays the inputs that its arguments name, or standard input where it has no argument, and writes the
// answers to standard output. What a line says is in `script_line`, what a journal text says in `journal_text`, and what
// a step does in `script`. No contract can speak of what is read or written, so most functions here promise only that
// they are safe and end.
#![tactic(auto)]

mod input;
mod output;
mod play;

use std::env::{Env, FillError};
use std::fs;
use std::rt::Files;

// Plays the file of a name, or says why it cannot be opened.
fn play_file(rt: &(impl Files + Print + Eprint), name: &str) {
    match fs::open(rt, name) {
        Ok(file) => play::play(rt, file),
        Err(error) => eprintln!(rt; "{name}: {error}").unwrap_or(()),
    }
}

// Plays the input of a name, after a line with the name. `-` is standard input.
fn play_named(rt: &(impl Files + Input + Print + Eprint), name: &[u8]) {
    rt.write_all(name).unwrap_or(());
    println!(rt).unwrap_or(());
    match str::from_utf8(name) {
        Ok("-") => play::play(rt, rt.reader()),
        Ok(name) => play_file(rt, name),
        Err(_) => rt.eprintln("argument: not UTF-8").unwrap_or(()),
    }
}

// Plays the input that an argument names, or says why there is no such name. std's `args` needs an allocator, and there
// is no heap here.
fn play_argument(rt: &(impl Env + Files + Input + Print + Eprint), i: usize) {
    let mut name = [0; 4096];
    match rt.arg(i, &mut name) {
        Ok(length) => play_named(rt, &name[..length]),
        Err(_) => rt.eprintln("argument: File name too long").unwrap_or(()),
    }
}

// Whether there is an argument i.
// Alike in runner and meeting: reading and printing stand in no library (docs/DECISIONS.md).
fn has_argument(rt: &impl Env, i: usize) -> bool {
    !matches!(rt.arg(i, &mut []), Err(FillError::NotPresent))
}

fn main(rt: HostRuntime) {
    if !has_argument(&rt, 1) {
        play::play(&rt, rt.reader());
        return;
    }
    for i in (1..usize::MAX).take_while(|&i| has_argument(&rt, i)) {
        play_argument(&rt, i);
    }
}
