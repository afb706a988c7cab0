// The operations on one window of the player: 1; 2; then the operation at that window.
ghost use Rattle.std.specs.Prelude.{◌≡◌, ◌<◌, ◌≤◌, true, length, IfOk, IfErr};
ghost use Rattle.window.specs.declared.Window.{Window};
ghost use Rattle.player.specs.View.{player_of};
ghost use Rattle.player.specs.Promise.{Meets};
ghost use Rattle.rules.specs.Rules.{operate, catch_rule, send_rule, send_output, written_rule, ack_rule, drop_rule, join_rule};
ghost use Rattle.rules.specs.Shape.{shape};
ghost use Rattle.rules.specs.View.{WindowView};
ghost use Rattle.rules.specs.Window.{Turn};
ghost use Rattle.operations.specs.Turns.{Follows};

use journal::Index;
use player::{Played, Player};
use rules::Term;
use window::{Answer, Refusal, Turned, Window};

// The place of window w: 1 where the state is out of shape; 2 where there is no such window.
fn place(player: &Player, journal: &[u32], w: u32) -> Result<usize, Refusal>
    ensures there { IfOk result (λ at. (at ≡ w) × (w < player.now.count) × (player.now.count ≤ 16)
        × (shape journal.now (player_of player.now) ≡ true)) }
    ensures refused { IfErr result (λ refusal. (rule : WindowView → Turn) →
        Meets player.now (record { answer = Err refusal; player = player.now })
        (operate journal.now w rule (player_of player.now))) }
{
    if !player.in_shape(journal) {
        return Err(Refusal::OutOfShape);
    }
    if player.count <= w {
        return Err(Refusal::NoSuchWindow);
    }
    Ok(w as usize)
}

// An operation on window w of the player, which is `turn` at that window; its window is stored. The player does whatever
// rule the turn follows.
fn at_window<F: FnOnce(Window) -> Turned>(
    player: &mut Player,
    journal: &[u32],
    w: u32,
    turn: F,
) -> Answer
    requires { (x : Window) → F.pre turn x }
    ensures { (rule : WindowView → Turn) → Follows journal.now player.old (F.post turn) rule →
        Meets player.old (record { answer = result; player = player.new })
        (operate journal.now w rule (player_of player.old)) }
{
    let at = place(player, journal, w)?;
    let turned = turn(player.windows[at]);
    player.windows[at] = turned.window;
    turned.answer
}

// Catch: the next entry that a window still has to fetch. 1; 2; then Catch at the window.
pub fn catch_on(mut player: Player, journal: &[u32], w: u32, term: Term, index: Index) -> Played
    ensures { Meets player result (catch_rule journal.now w term index.0 (player_of player)) }
{
    let answer = at_window(&mut player, journal, w, |window| {
        window_fill::catch_at(window, journal, w, term, index)
    });
    Played { answer, player }
}

// Written: the line of a window is free again. 1; 2; then Written at the window.
pub fn written_on(mut player: Player, journal: &[u32], w: u32, term: Term) -> Played
    ensures { Meets player result (written_rule journal.now w term (player_of player)) }
{
    let answer = at_window(&mut player, journal, w, |window| {
        window_line::written_at(window, term)
    });
    Played { answer, player }
}

// Ack: a window has taken its entries up to an index. 1; 2; then Ack at the window.
pub fn ack_on(mut player: Player, journal: &[u32], w: u32, term: Term, index: Index) -> Played
    ensures { Meets player result (ack_rule journal.now w term index.0 (player_of player)) }
{
    let answer = at_window(&mut player, journal, w, |window| {
        window_line::ack_at(window, term, index)
    });
    Played { answer, player }
}

// Drop: the line of a window is dropped. 1; 2; then Drop at the window.
pub fn drop_on(mut player: Player, journal: &[u32], w: u32) -> Played
    ensures { Meets player result (drop_rule journal.now w (player_of player)) }
{
    let answer = at_window(
        &mut player,
        journal,
        w,
        |window| window_line::drop_at(window),
    );
    Played { answer, player }
}

// Join: a window is back, with its last index. 1; 2; then Join at the window, up to `current`.
pub fn join_on(mut player: Player, journal: &[u32], w: u32, report: Index) -> Played
    ensures { Meets player result (join_rule journal.now w report.0 (player_of player)) }
{
    let current = player.current;
    let answer = at_window(&mut player, journal, w, |window| {
        window_line::join_at(window, current, report)
    });
    Played { answer, player }
}

// Send at window w, which is stored. What a closure leaves of what it is lent, no clause of `at_window` says, so this is
// no turn of it.
fn send(player: &mut Player, journal: &[u32], w: u32, out: &mut [u32]) -> Answer
    ensures { (Meets player.old (record { answer = result; player = player.new })
        (send_rule journal.now w (length out.old) (player_of player.old)))
        × (out.new ≡ send_output journal.now w out.old (player_of player.old)) }
{
    let from = place(player, journal, w)?;
    let sent = window_send::send_at(player.windows[from], journal, w, player.limit, out);
    player.windows[from] = sent.window;
    sent.answer
}

// Send: a batch for a window, written into the output lent. 1; 2; then Send at the window, with the player's batch limit.
// A refusal leaves the player and the output as they were.
pub fn send_on(mut player: Player, journal: &[u32], w: u32, out: &mut [u32]) -> Played
    ensures { (Meets player result (send_rule journal.now w (length out.old) (player_of player)))
        × (out.new ≡ send_output journal.now w out.old (player_of player)) }
{
    let answer = send(&mut player, journal, w, out);
    Played { answer, player }
}
