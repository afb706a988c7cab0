// The program's arguments: numbers within bounds.
ghost use Rattle.std.specs.Prelude.{◌≤◌, IfSome};

use std::env::{Env, FillError};

// The number that fills argument i, if it is a decimal numeral from `least` to `most`.
pub(crate) fn number(rt: &impl Env, i: usize, least: u32, most: u32) -> Option<u32>
    ensures { IfSome result (λ number. number ≤ most) }
{
    let mut text = [0; 4096];
    let length = rt.arg(i, &mut text).ok()?;
    let (number, next) = decimal::read(&text[..length], 0, most)?;
    (next == length && least <= number && number <= most).then_some(number)
}

// Whether there is an argument i.
// Alike in runner and meeting: reading and printing stand in no library (docs/DECISIONS.md).
pub(crate) fn has(rt: &impl Env, i: usize) -> bool {
    !matches!(rt.arg(i, &mut []), Err(FillError::NotPresent))
}
