// The journal of a meeting, made by rule.

// The windows that entry i is for: window w, unless i + w is a multiple of 4.
fn set_of(i: u32) -> u32 {
    match i % 4 {
        0 => 0b1110111011101110,
        1 => 0b0111011101110111,
        2 => 0b1011101110111011,
        _ => 0b1101110111011101,
    }
}

// Makes so many entries, four numbers each. Kinds and races take turns, and the value of entry i is i. It wraps nowhere: what bounds the
// places, a proof no longer sees behind `zip`.
pub(crate) fn fill(numbers: &mut [u32], count: u32) {
    let (entries, _) = numbers.as_chunks_mut::<4>();
    for (place, entry) in (0..count).zip(entries) {
        let i = place.wrapping_add(1);
        *entry = [set_of(i), 1 + place % 4, 1 + place % 12, i];
    }
}
