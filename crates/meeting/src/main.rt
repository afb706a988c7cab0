// A meeting played whole with the public calls, as a host written in Rattle makes them. `meeting W ENTRIES LIMIT` makes
// a journal of so many entries and plays it to W windows in batches of at most LIMIT; the line of every fifth batch
// drops. Then it prints what each window has taken, and the number of calls. No contract can speak of what is printed,
// so the functions here promise only that they are safe and end.
#![tactic(auto)]

mod arguments;
mod entries;
mod host;
mod line;
mod output;
mod tally;

ghost use Rattle.std.specs.Prelude.{◌≤◌};

use host::Host;
use std::io;

// Plays a meeting and prints how it ends.
fn play(rt: &impl Print, windows: u32, entries: u32, limit: u32) -> io::Result<()>
    requires { (windows ≤ 16) × (entries ≤ 65535) }
{
    let mut numbers = [0; 262140];
    entries::fill(&mut numbers, entries);
    let journal = &numbers[..entries as usize * 4];
    let mut host = Host::start(journal, entries, windows, limit);
    host.play();
    match host.tally.refused {
        None => output::windows(rt, &host.records[..windows as usize])?,
        Some(number) => println!(rt; "refused {number}")?,
    }
    println!(rt; "calls {}", host.tally.calls)
}

fn main(rt: HostRuntime) -> io::Result<()> {
    let windows = arguments::number(&rt, 1, 1, 16);
    let entries = arguments::number(&rt, 2, 0, 65535);
    let limit = arguments::number(&rt, 3, 1, 32);
    match (windows, entries, limit) {
        (Some(windows), Some(entries), Some(limit)) if !arguments::has(&rt, 4) => {
            play(&rt, windows, entries, limit)
        }
        _ => output::usage(&rt),
    }
}
