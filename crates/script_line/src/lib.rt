// The lines of a script beside the journal: `windows` and a count, `run`, and the steps. A line is given without its LF.
#![tactic(auto)]

ghost use Rattle.std.specs.Prelude.{◌≡◌};
ghost use Rattle.script_line.specs.Line.{same, number_after, step_of, windows_of, run_word};

// The word of a step that has a window.
#[derive(Clone, Copy, Debug, PartialEq, Eq)]
pub enum Verb {
    Catch,
    Send,
    Written,
    Ack,
    Drop,
    Join,
    Take,
}

// A step of a script: `main`, or a word and a window of 0 to 99.
#[derive(Clone, Copy, Debug, PartialEq, Eq)]
pub enum Step {
    Main,
    At(Verb, u32),
}

// The words of the steps that have a window, each with the blank before its number.
const WORDS: [(&[u8], Verb); 7] = [
    (b"catch ", Verb::Catch),
    (b"send ", Verb::Send),
    (b"written ", Verb::Written),
    (b"ack ", Verb::Ack),
    (b"drop ", Verb::Drop),
    (b"join ", Verb::Join),
    (b"take ", Verb::Take),
];

// The number after a word and the place after it, if the line is the word and then a numeral of at most the bound.
#[tactic(auto, using(crate::specs::Laws::same_swapped), unfolding(crate::specs::Line::number_after))]
fn number_after(line: &[u8], word: &[u8], bound: u32) -> Option<(u32, usize)>
    ensures { result ≡ number_after word.now bound line.now }
{
    if !line.starts_with(word) {
        return None;
    }
    decimal::read(line, word.len(), bound).filter(|&(_, next)| next == line.len())
}

// What a step line says; nothing where it is malformed.
#[tactic(auto, unfolding(crate::specs::Line::step_of))]
pub fn read_step(line: &[u8]) -> Option<Step>
    ensures { result ≡ step_of line.now }
{
    if line == b"main".as_slice() {
        return Some(Step::Main);
    }
    for &(word, verb) in &WORDS {
        if let Some((w, _)) = number_after(line, word, 99) {
            return Some(Step::At(verb, w));
        }
    }
    None
}

// The number of windows that the first line gives, 1 to 16; nothing where it is malformed.
#[tactic(auto, unfolding(crate::specs::Line::windows_of))]
pub fn read_windows(line: &[u8]) -> Option<u32>
    ensures { result ≡ windows_of line.now }
{
    let (n, _) = number_after(line, b"windows ", 16)?;
    (1 <= n).then_some(n)
}

// Whether a line is `run`.
pub fn is_run(line: &[u8]) -> bool
    ensures { result ≡ same line.now run_word }
{
    line == b"run".as_slice()
}
