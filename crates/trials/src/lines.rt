// Lines of sessions with their answers, as they stand in a record.
use session::{Answer, Bench};
use std::alloc::Global;
use std::process::Abort;
use std::test::Fail;

// Gives the lines to a new bench in turn; "" stands for no answer.
pub(crate) fn answers(rt: &impl Abort, heap: Global, rows: &[(&str, &str)]) -> Result<(), Fail> {
    let mut bench = Bench::new(heap)?;
    for (line, expected) in rows {
        let told = match bench.take(heap, line.as_bytes())? {
            Some(answer) => format!(in heap; "{answer}")?,
            None => String::new(heap),
        };
        assert!(rt; told.as_str() == *expected, "{}", *line);
    }
    Ok(())
}

#[test]
fn passed_over(rt: HostRuntime) -> Result<(), Fail> {
    answers(
        &rt,
        rt.alloc(),
        &[
            ("", ""),
            (" \t\r", ""),
            ("# weigh 1", ""),
            ("  #", ""),
            ("#", ""),
        ],
    )
}

#[test]
fn commands(rt: HostRuntime) -> Result<(), Fail> {
    let rows = [
        ("weigh 1", "0 g"),
        ("weigh 64", "0 g"),
        ("weigh 65", "fault 41 not fitted"),
        ("put 1 1250 rest", "done"),
        ("\tput  2\t-7 moving \r", "done"),
        ("weigh 01", "1250 g"),
        ("weigh 2", "fault 42 not at rest"),
        ("tare 1 300", "done"),
        ("interval 200", "done"),
        ("weigh 1", "800 g"),
        ("pile tare-step", "done"),
        ("weigh 1", "900 g"),
        ("raw 3 2147483647 rest", "done"),
        ("raw 4 -2147483648 rest", "done"),
        ("weigh 3", "fault 43 beyond the limit"),
        ("total 1 1", "1800 g"),
        ("total 1 2 3", "fault 42 not at rest, channel 2"),
        ("arithmetic fine", "done"),
        ("total 1", "900 g"),
        ("records 2", "2 records"),
        ("weigh 3", "fault 41 not fitted"),
        ("weigh 1", "-300 g"),
        ("records 0", "0 records"),
        ("put 1 0 rest", "refused 61 the channel is not there"),
        ("station 4294967295", "new station 4294967295"),
        ("station 4294967295", "station 4294967295"),
        ("station 1", "station 1"),
    ];
    answers(&rt, rt.alloc(), &rows)
}

const NUMBER: &str =
    "not understood: the channel is to be a whole number; channels are 1 to 64; write weigh CHANNEL";

const GRAMS: &str =
    "not understood: the weight is to be whole grams from -2147483648 to 2147483647; write tare CHANNEL GRAMS";

const UNKNOWN: &str = "not understood: no such command; --help lists the commands";

const NOT_UNDERSTOOD: [(&str, &str); 19] = [
    ("weigh 4294967296", NUMBER),
    ("weigh 99999999999999999999999999999999", NUMBER),
    ("weigh -1", NUMBER),
    ("weigh +1", NUMBER),
    ("weigh 1x", NUMBER),
    (
        "weigh",
        "not understood: the channel is missing; write weigh CHANNEL",
    ),
    (
        "weigh 1 2",
        "not understood: a word too many; write weigh CHANNEL",
    ),
    ("tare 1 2147483648", GRAMS),
    ("tare 1 -2147483649", GRAMS),
    ("tare 1 -", GRAMS),
    ("tare 1 --1", GRAMS),
    ("Weigh 1", UNKNOWN),
    ("weigh1", UNKNOWN),
    (
        "put 1 5 resting",
        "not understood: the mark is to be rest or moving; write put CHANNEL GRAMS rest, or moving",
    ),
    (
        "pile tares",
        "not understood: the pile is to be board, tare, step, step-tare or tare-step; write pile board, tare, step, step-tare or tare-step",
    ),
    (
        "arithmetic",
        "not understood: the arithmetic is missing; write arithmetic gram, old or fine",
    ),
    (
        "total 1 2 x",
        "not understood: the channel is to be a whole number; channels are 1 to 64; write total CHANNEL CHANNEL ..",
    ),
    (
        "records 10001",
        "not understood: a board has at most 10000 records",
    ),
    ("weigh 1", "0 g"),
];

#[test]
fn not_understood(rt: HostRuntime) -> Result<(), Fail> {
    answers(&rt, rt.alloc(), &NOT_UNDERSTOOD)
}

#[test]
fn stations_up_to_sixty_four(rt: HostRuntime) -> Result<(), Fail> {
    let heap = rt.alloc();
    let mut bench = Bench::new(heap)?;
    for number in 2..65u32 {
        let line = format!(in heap; "station {number}")?;
        let told = bench.take(heap, line.as_bytes())?;
        assert_eq!(rt; told, Some(Answer::NewStation(number)));
    }
    let told = bench.take(heap, b"station 65")?;
    assert_eq!(rt; told, Some(Answer::TooManyStations));
    let back = bench.take(heap, b"station 64")?;
    assert_eq!(rt; back, Some(Answer::Station(64)));
    Ok(())
}
