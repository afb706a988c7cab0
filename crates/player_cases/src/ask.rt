// What a letter asks of the player.
use crate::show;
use crate::state::State;
use journal::Index;
use player::{Played, Player};
use rules::{Settings, Term};
use std::io;
use window::Window;

// Shows an answer, and gives the player as it then is.
fn answered(rt: &impl Print, played: Played) -> io::Result<Player> {
    show::answer(rt, played.answer)?;
    Ok(played.player)
}

// Send, lent the first of 165 nines.
fn send(rt: &impl Print, p: Player, journal: &[u32], numbers: [u32; 4]) -> io::Result<Player> {
    let [_, w, size, shown] = numbers;
    let mut nines = [9; 165];
    let Some(out) = nines.get_mut(..size as usize) else {
        return Ok(p);
    };
    let after = answered(rt, operations::send_on(p, journal, w, out))?;
    show::out(rt, &nines, shown as usize)?;
    Ok(after)
}

// Send at window w on its own, lent five nines.
fn send_alone(
    rt: &impl Print,
    window: Window,
    journal: &[u32],
    w: u32,
    limit: u32,
) -> io::Result<()> {
    let mut nines = [9; 5];
    let turned = window_send::send_at(window, journal, w, limit, &mut nines);
    show::answer(rt, turned.answer)?;
    show::out(rt, &nines, 5)
}

// Start with the first term and the reports of a state, and the spacing and the set of silent windows before W.
fn start(rt: &impl Print, s: State, journal: &[u32], numbers: [u32; 4]) -> io::Result<Player> {
    let [spacing, silent, count, limit] = numbers;
    let Some(reports) = s.reports.cells.get(..s.reports.len) else {
        return Ok(s.player);
    };
    let settings = Settings {
        limit,
        spacing,
        first: s.first,
        silent,
    };
    answered(
        rt,
        operations::start_on(s.player, journal, count, settings, reports),
    )
}

// The operations on a player but Start. A `match`, here and in the other files: the numbers mean another thing for each
// letter, so closures in a table would each take them all and name them anew.
fn operation(
    rt: &impl Print,
    p: Player,
    journal: &[u32],
    numbers: [u32; 4],
    letter: u8,
) -> io::Result<Player> {
    let [_, b, c, d] = numbers;
    let played = match letter {
        b'M' => operations::main_on(p, journal, Index(d)),
        b'C' => operations::catch_on(p, journal, b, Term(c), Index(d)),
        b'S' => return send(rt, p, journal, numbers),
        b'W' => operations::written_on(p, journal, c, Term(d)),
        b'A' => operations::ack_on(p, journal, b, Term(c), Index(d)),
        b'D' => operations::drop_on(p, journal, d),
        b'J' => operations::join_on(p, journal, c, Index(d)),
        _ => return Ok(p),
    };
    answered(rt, played)
}

// What each operation answers, 1 where the player is out of shape: Main with the next index, the others at a window
// that no player has, with a term and an index that are nobody's.
fn shape(rt: &impl Print, p: Player, journal: &[u32]) -> io::Result<()> {
    let next = p.current.0.wrapping_add(1);
    let asked = [
        ([0, 0, 0, next], b'M'),
        ([0, 16, 9, 9], b'C'),
        ([0, 0, 16, 9], b'W'),
        ([0, 16, 9, 9], b'A'),
        ([0, 0, 0, 16], b'D'),
        ([0, 0, 16, 9], b'J'),
    ];
    for (numbers, letter) in asked {
        operation(rt, p, journal, numbers, letter)?;
    }
    Ok(())
}

// What a letter asks over a journal, and the player as it then is.
fn over(
    rt: &impl Print,
    s: State,
    journal: &[u32],
    numbers: [u32; 4],
    letter: u8,
) -> io::Result<Player> {
    let [_, _, c, d] = numbers;
    let w = (s.place % 16) as u32;
    Ok(match letter {
        b'P' => start(rt, s, journal, numbers)?,
        b'O' => {
            send_alone(rt, s.window(), journal, w, s.player.limit)?;
            s.player
        }
        b'N' => s.put(window_fill::main_at(s.window(), journal, w, c, Index(d))),
        b'Q' => {
            let turned = window_fill::catch_at(s.window(), journal, w, Term(c), Index(d));
            show::answer(rt, turned.answer)?;
            s.put(turned.window)
        }
        b'I' => {
            shape(rt, s.player, journal)?;
            s.player
        }
        _ => operation(rt, s.player, journal, numbers, letter)?,
    })
}

// What a letter asks or shows, and the state as it then is.
pub(crate) fn letter(
    rt: &impl Print,
    s: State,
    zeros: &[u32],
    numbers: [u32; 4],
    letter: u8,
) -> io::Result<State> {
    let d = numbers[3];
    show::letter(rt, s.player, d, letter)?;
    if letter == b'Z' {
        if let Some(journal) = zeros.get(..d as usize) {
            shape(rt, s.player, journal)?;
        }
    }
    let Some(journal) = s.journal.cells.get(..s.journal.len) else {
        return Ok(s);
    };
    Ok(State {
        player: over(rt, s, journal, numbers, letter)?,
        ..s
    })
}
