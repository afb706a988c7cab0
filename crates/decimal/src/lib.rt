// One decimal numeral, read from a place of a text and written to a place of a buffer.
#![tactic(auto)]

ghost use Rattle.std.specs.Prelude.{◌+◌, ◌≤◌, ◌≡◌, length};
ghost use Rattle.decimal.specs.Numeral.{numeral, is_digit, lead_digits, canonical, read_at, write_at, with_numeral};

// The most bytes of a numeral that are looked at. A number of 32 bits has at most ten digits.
const LONGEST: usize = 11;

// The numeral that stands at `at`, its number and the place after its last digit: all digits from there on, if they have no leading
// zero but in `0` itself and their value is at most `bound`. Where no digit stands there, or `at` is past the end, there is none.
pub fn read(text: &[u8], at: usize, bound: u32) -> Option<(u32, usize)>
    ensures { result ≡ read_at bound text.now at }
{
    let rest = text.get(at..)?;
    let near = &rest[..LONGEST.min(rest.len())];
    let mut value: u64 = 0;
    let mut count = 0;
    for &byte in near {
        if !byte.is_ascii_digit() {
            break;
        }
        value = value * 10 + u64::from(byte - b'0');
        if u64::from(bound) < value {
            return None;
        }
        count += 1;
    }
    let digits = &near[..count];
    if !is_canonical(digits) {
        return None;
    }
    Some((value as u32, at + digits.len()))
}

// Whether digits are one digit, or several of which the first is not `0`.
#[tactic(auto, unfolding(crate::specs::Numeral::canonical))]
fn is_canonical(digits: &[u8]) -> bool
    ensures { result ≡ canonical digits.now }
{
    match digits {
        [] => false,
        [_] => true,
        [first, ..] => *first != b'0',
    }
}

// How many digits the numeral of `n` has. Most numbers of a journal have one: they are told by a comparison alone, without a logarithm.
#[tactic(auto, using(crate::proofs::Writing::numeral_length_one, crate::proofs::Writing::numeral_length_is))]
pub fn digits(n: u32) -> usize
    ensures { result ≡ length (numeral n) }
{
    if n < 10 {
        return 1;
    }
    n.ilog10() as usize + 1
}

// Writes the numeral of `n` at `at` and answers the place after it; where the buffer has no room for all of it, there is no such place,
// and nothing is written.
#[tactic(auto, using(crate::proofs::Writing::write_some, crate::proofs::Writing::write_none, crate::proofs::Writing::write_nothing))]
pub fn write(n: u32, out: &mut [u8], at: usize) -> Option<usize>
    ensures { (result ≡ write_at n (length out.old) at) × (out.new ≡ with_numeral n out.old at) }
{
    let end = at.checked_add(digits(n))?;
    if out.len() < end {
        return None;
    }
    fill(n, out, at, end);
    Some(end)
}

// Puts the digits of `n` into the places from `at` to before `end`, the last one first. What is left then is the first digit.
// By index: what is written through an adapter of `iter_mut`, here `rev`, a proof does not know.
fn fill(n: u32, out: &mut [u8], at: usize, end: usize)
    requires { (end ≡ at + length (numeral n)) × (end ≤ length out.old) }
    ensures { out.new ≡ with_numeral n out.old at }
{
    let mut rest = n;
    for i in (at + 1..end).rev() {
        out[i] = b'0' + (rest % 10) as u8;
        rest /= 10;
    }
    out[at] = b'0' + rest as u8;
}
