// Cases of Take and May stamp, a line each: the edges of every range of document 01, "The window".
#![tactic(auto)]

use journal::{Entry, Index, Kind};
use record::{Race, Record, Refusal};
use std::{fmt, io};

// How many races are not as in a new record.
fn count_touched(races: [Race; 12]) -> usize {
    races.iter().filter(|&&x| x != Race::EMPTY).count()
}

// The race of this number, or an empty one where there is none.
fn race_of(races: [Race; 12], race: u32) -> Race {
    race.checked_sub(1)
        .and_then(|place| races.get(place as usize))
        .copied()
        .unwrap_or(Race::EMPTY)
}

// Writes the case's name, the answer, the record's last index and count, the number of races touched, and one race.
// Gives the record as it then is: where the answer is a refusal, the one before.
fn show(
    rt: &impl Print,
    name: impl fmt::Display + Drop,
    before: Record,
    answer: Result<Record, Refusal>,
    race: u32,
) -> io::Result<Record> {
    let number = record::number(&answer);
    let left = answer.unwrap_or(before);
    let touched = count_touched(left.races);
    let x = race_of(left.races, race);
    let open = if x.closed { "closed" } else { "open" };
    println!(rt;
        "{name}: answer {number}, last {}, count {}, touched {touched}, race {race} off {} price {} {open}",
        left.last.0, left.count, x.off, x.price
    )?;
    Ok(left)
}

// Folds one entry into the record and shows the race that it names.
fn step(
    rt: &impl Print,
    name: impl fmt::Display + Drop,
    record: Record,
    at: u32,
    kind: u32,
    race: u32,
    value: u32,
) -> io::Result<Record> {
    let e = Entry {
        set: 1,
        kind,
        race,
        value,
    };
    show(rt, name, record, record.fold(Index(at), e), race)
}

// Takes the numbers into the record and shows race 1.
fn take(rt: &impl Print, name: &str, record: Record, numbers: &[u32]) -> io::Result<Record> {
    show(rt, name, record, record::take_by_value(record, numbers), 1)
}

fn stamp(rt: &impl Print, name: &str, record: Record, race: u32, second: u32) -> io::Result<()> {
    let stamped = if record.may_stamp(race, second) {
        "stamped"
    } else {
        "not stamped"
    };
    println!(rt; "{name}: {stamped}")
}

fn posts(rt: &impl Print) -> io::Result<()> {
    for value in [0, 1, 86399, 86400, 4294967295] {
        step(
            rt,
            format_args!("post {value}"),
            Record::new(),
            9,
            Kind::Post.into(),
            1,
            value,
        )?;
    }
    Ok(())
}

fn kinds(rt: &impl Print) -> io::Result<()> {
    for kind in 0..6 {
        step(
            rt,
            format_args!("kind {kind}"),
            Record::new(),
            9,
            kind,
            1,
            350,
        )?;
    }
    Ok(())
}

fn races(rt: &impl Print) -> io::Result<()> {
    for race in [0, 1, 12, 13] {
        step(
            rt,
            format_args!("odds to race {race}"),
            Record::new(),
            9,
            Kind::Odds.into(),
            race,
            350,
        )?;
    }
    step(
        rt,
        "odds of 4294967295",
        Record::new(),
        9,
        Kind::Odds.into(),
        2,
        4294967295,
    )?;
    Ok(())
}

fn after_close(rt: &impl Print) -> io::Result<()> {
    let a = step(
        rt,
        "post 50400",
        Record::new(),
        1,
        Kind::Post.into(),
        1,
        50400,
    )?;
    let b = step(rt, "close", a, 2, Kind::Close.into(), 1, 0)?;
    let c = step(rt, "post after close", b, 3, Kind::Post.into(), 1, 50500)?;
    let d = step(rt, "odds after close", c, 4, Kind::Odds.into(), 1, 350)?;
    let e = step(rt, "close twice", d, 5, Kind::Close.into(), 1, 0)?;
    step(
        rt,
        "post to another race",
        e,
        6,
        Kind::Post.into(),
        12,
        50600,
    )?;
    Ok(())
}

fn counts(rt: &impl Print) -> io::Result<()> {
    let mut r = Record::new();
    r.count = 4294967294;
    let full = step(rt, "count 4294967294", r, 9, Kind::Post.into(), 1, 50400)?;
    step(
        rt,
        "count 4294967295",
        full,
        10,
        Kind::Post.into(),
        1,
        50500,
    )?;
    Ok(())
}

fn slices(rt: &impl Print) -> io::Result<()> {
    let r = Record::new();
    let five = [9, 1, 1, 1, 50400];
    let six = [9, 1, 1, 1, 50400, 0];
    let lower = [8, 1, 2, 1, 350];
    take(rt, "take of no numbers", r, &[])?;
    take(rt, "take of 4 numbers", r, &five[0..4])?;
    take(rt, "take of 6 numbers", r, &six)?;
    let taken = take(rt, "take of 5 numbers", r, &five)?;
    take(rt, "take of a lower index", taken, &lower)?;
    take(rt, "take of 4 numbers again", taken, &five[0..4])?;
    let mut full = taken;
    full.count = 4294967295;
    take(rt, "take of 5 numbers, full", full, &lower)?;
    take(rt, "take of 6 numbers, full", full, &six)?;
    Ok(())
}

fn stamps(rt: &impl Print) -> io::Result<()> {
    let r = Record::new();
    stamp(rt, "stamp with off 0 at 0", r, 1, 0)?;
    let a = step(rt, "post 50400", r, 1, Kind::Post.into(), 1, 50400)?;
    stamp(rt, "stamp at off - 1", a, 1, 50399)?;
    stamp(rt, "stamp at off", a, 1, 50400)?;
    stamp(rt, "stamp at 0", a, 1, 0)?;
    stamp(rt, "stamp race 0", a, 0, 0)?;
    stamp(rt, "stamp race 2", a, 2, 0)?;
    stamp(rt, "stamp race 13", a, 13, 0)?;
    let b = step(rt, "post 1", a, 2, Kind::Post.into(), 12, 1)?;
    stamp(rt, "stamp race 12 at 0", b, 12, 0)?;
    stamp(rt, "stamp race 12 at 1", b, 12, 1)?;
    let c = step(rt, "close", b, 3, Kind::Close.into(), 1, 0)?;
    stamp(rt, "stamp closed at off - 1", c, 1, 50399)
}

fn main(rt: HostRuntime) -> io::Result<()> {
    posts(&rt)?;
    kinds(&rt)?;
    races(&rt)?;
    after_close(&rt)?;
    counts(&rt)?;
    slices(&rt)?;
    stamps(&rt)
}
