// Start: windows from the report of each, or from its silence. A set says which windows are silent: bit w for window w.
ghost use Rattle.std.specs.Prelude.{◌≤◌, ◌≡◌, length};
ghost use Rattle.journal.specs.Entry.{count_of};
ghost use Rattle.lists.specs.All.{all};
ghost use Rattle.window.specs.Promise.{started_window_by};
ghost use Rattle.player.specs.View.{player_of};
ghost use Rattle.player.specs.Promise.{fresh_windows, Starts};
ghost use Rattle.rules.specs.Rules.{said_by, said, is_start_report, first_fits, start_fits, start_rule};
ghost use Rattle.player.specs.declared.Player.{Player};
ghost use Rattle.operations.specs.Starting.{lesser, lowest, played};

use journal::Index;
use player::{Played, Player, count_fits};
use rules::{Settings, Term};
use window::{Refusal, Window, limit_fits, spacing_fits};

// Whether a term can be the first: any but 0, which is a number and no term of a window.
fn first_fits(first: Term) -> bool
    ensures { result ≡ first_fits first }
{
    1 <= first.0
}

// Whether the number of windows, the batch limit, the first term and the journal are in shape, and there are exactly so
// many reports.
fn start_in_shape(journal: &[u32], count: u32, settings: Settings, reports: &[u32]) -> bool
    ensures { result ≡ start_fits journal.now count settings reports.now }
{
    count_fits(count)
        && limit_fits(settings.limit)
        && first_fits(settings.first)
        && journal::in_shape(journal)
        && reports.len() == count as usize
}

// Whether window w is silent, or its report is at most L, l here.
fn is_start_report(l: u32, w: u32, report: u32, silent: u32) -> bool
    ensures { result ≡ is_start_report l (said_by silent w report) }
{
    journal::has(silent, w) || report <= l
}

// Whether this holds of each window and its report. Here and below there are at most sixteen reports, as `start` finds
// before it asks: a type for so many would be made there and used in these three functions alone.
fn are_reports(l: u32, reports: &[u32], silent: u32) -> bool
    requires { length reports.now ≤ 16 }
    ensures { result ≡ all (is_start_report l) (said silent reports.now) }
{
    for (w, &report) in reports.iter().enumerate() {
        if !is_start_report(l, w as u32, report, silent) {
            return false;
        }
    }
    true
}

// The lesser of a number and the report of window w, or the number where the window is silent.
fn lesser(low: u32, w: u32, report: u32, silent: u32) -> u32
    ensures { result ≡ lesser low (said_by silent w report) }
{
    if journal::has(silent, w) {
        low
    } else {
        low.min(report)
    }
}

// The least of L and the reports of the windows that are not silent.
fn lowest(l: u32, reports: &[u32], silent: u32) -> Index
    requires { length reports.now ≤ 16 }
    ensures { result.0 ≡ lowest l (said silent reports.now) }
{
    let mut low = l;
    for (w, &report) in reports.iter().enumerate() {
        low = lesser(low, w as u32, report, silent);
    }
    Index(low)
}

// Window w as Start leaves it.
fn window_of(first: Term, l: Index, w: u32, report: Index, silent: u32) -> Window
    ensures { result ≡ started_window_by first l.0 (said_by silent w report.0) }
{
    if journal::has(silent, w) {
        Window::silent(first, l)
    } else {
        Window::started(first, report)
    }
}

// The sixteen windows as Start leaves them: those from the number of reports up with a report of 0.
fn windows_of(first: Term, l: Index, reports: &[u32], silent: u32) -> [Window; 16]
    requires { length reports.now ≤ 16 }
    ensures { result ≡ fresh_windows first l.0 (said silent reports.now) }
{
    let mut windows = [Window::started(first, Index(0)); 16];
    // By index: what is written through an adapter of iter_mut a proof does not know.
    for w in 0..reports.len() {
        windows[w] = window_of(first, l, w as u32, Index(reports[w]), silent);
    }
    windows
}

// The player that Start makes, or its refusal.
fn start(
    journal: &[u32],
    count: u32,
    settings: Settings,
    reports: &[u32],
) -> Result<Player, Refusal>
    ensures { (before : Player) → Starts before (count_of journal.now) count settings reports.now (played before result)
        (start_rule journal.now count settings reports.now (player_of before)) }
{
    if !start_in_shape(journal, count, settings, reports) {
        return Err(Refusal::OutOfShape);
    }
    if !spacing_fits(settings.spacing) {
        return Err(Refusal::BadSpacing);
    }
    let l = journal::entries(journal) as u32;
    if !are_reports(l, reports, settings.silent) {
        return Err(Refusal::BadReport);
    }
    Ok(Player {
        count,
        limit: settings.limit,
        spacing: settings.spacing,
        current: lowest(l, reports, settings.silent),
        windows: windows_of(settings.first, Index(l), reports, settings.silent),
    })
}

// Start: 1, also where the first term is 0 or there are not exactly `count` reports; 18: the spacing is not 1 to
// 65,535; 13: a report above L, unless the window is silent. Every window begins on the first term, from its report, or
// as `Window::silent` has it; those from `count` up from a report of 0. `current` is the least report of a window that
// is not silent, or L where all are. What the player held before is not read: that the first term is above every term
// used so far is for the host to see to.
pub fn start_on(
    player: Player,
    journal: &[u32],
    count: u32,
    settings: Settings,
    reports: &[u32],
) -> Played
    ensures { Starts player (count_of journal.now) count settings reports.now result
        (start_rule journal.now count settings reports.now (player_of player)) }
{
    match start(journal, count, settings, reports) {
        Ok(fresh) => Played {
            player: fresh,
            answer: Ok(()),
        },
        Err(refusal) => Played {
            player,
            answer: Err(refusal),
        },
    }
}
