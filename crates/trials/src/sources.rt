// Edge cases of the sources of readings, as lines of a session over the board and its layers.
use crate::lines::answers;
use std::test::Fail;

const NO_CHANNEL: &str = "refused 61 the channel is not there";

const BAD_WEIGHT: &str =
    "refused 62 a weight is at most 268435455 g either way, and a tare not negative";

const BAD_INTERVAL: &str =
    "refused 63 an interval is 1, 2 or 5 times a power of ten, at most 50000 g";

const NOT_FITTED: &str = "fault 41 not fitted";

const NOT_AT_REST: &str = "fault 42 not at rest";

const BEYOND: &str = "fault 43 beyond the limit";

#[test]
fn board(rt: HostRuntime) -> Result<(), Fail> {
    let rows = [
        ("pile board", "done"),
        ("records 5", "5 records"),
        ("raw 2 268435456 moving", "done"),
        ("raw 3 268435456 rest", "done"),
        ("put 4 -268435455 rest", "done"),
        ("raw 5 -268435456 rest", "done"),
        ("weigh 1", "0 g"),
        // not at rest comes before the limit
        ("weigh 2", NOT_AT_REST),
        ("weigh 3", BEYOND),
        ("weigh 4", "-268435455 g"),
        ("weigh 5", BEYOND),
        ("weigh 6", NOT_FITTED),
        ("weigh 0", NOT_FITTED),
        ("weigh 4294967295", NOT_FITTED),
        // the channel comes before the weight, and the weight is judged whatever the mark
        ("put 6 268435456 rest", NO_CHANNEL),
        ("put 0 0 rest", NO_CHANNEL),
        ("put 4 268435456 moving", BAD_WEIGHT),
        ("put 4 -268435456 rest", BAD_WEIGHT),
        ("weigh 4", "-268435455 g"),
        ("put 4 5 moving", "done"),
        ("weigh 4", NOT_AT_REST),
        ("raw 6 1 rest", NO_CHANNEL),
        ("raw 0 1 rest", NO_CHANNEL),
        ("raw 1 -2147483648 rest", "done"),
        ("weigh 1", BEYOND),
    ];
    answers(&rt, rt.alloc(), &rows)
}

#[test]
fn sixty_four_records_count(rt: HostRuntime) -> Result<(), Fail> {
    let rows = [
        ("records 65", "65 records"),
        ("weigh 64", "0 g"),
        ("weigh 65", NOT_FITTED),
        ("put 65 1 rest", NO_CHANNEL),
        ("raw 65 1 rest", NO_CHANNEL),
        ("put 64 1 rest", "done"),
        ("weigh 64", "1 g"),
        ("weigh 63", "0 g"),
    ];
    answers(&rt, rt.alloc(), &rows)
}

#[test]
fn tares(rt: HostRuntime) -> Result<(), Fail> {
    let rows = [
        ("pile tare", "done"),
        ("records 3", "3 records"),
        ("put 1 1250 rest", "done"),
        ("put 2 -268435455 rest", "done"),
        ("put 3 5 moving", "done"),
        ("weigh 1", "1250 g"),
        ("tare 1 300", "done"),
        ("weigh 1", "950 g"),
        ("weigh 2", "-268435455 g"),
        ("tare 2 1", "done"),
        ("weigh 2", BEYOND),
        ("tare 3 268435455", "done"),
        ("weigh 3", NOT_AT_REST),
        // a tare needs no record
        ("tare 64 268435455", "done"),
        ("weigh 64", NOT_FITTED),
        ("tare 65 -1", NO_CHANNEL),
        ("tare 0 1", NO_CHANNEL),
        ("tare 1 -1", BAD_WEIGHT),
        ("tare 1 268435456", BAD_WEIGHT),
        ("weigh 1", "950 g"),
        ("tare 1 0", "done"),
        ("weigh 1", "1250 g"),
    ];
    answers(&rt, rt.alloc(), &rows)
}

#[test]
fn intervals(rt: HostRuntime) -> Result<(), Fail> {
    let rows = [
        ("pile step", "done"),
        ("records 3", "3 records"),
        ("put 1 268435455 rest", "done"),
        ("put 2 -950 rest", "done"),
        ("put 3 3 moving", "done"),
        ("weigh 1", "268435455 g"),
        ("interval 50000", "done"),
        ("weigh 1", "268400000 g"),
        ("weigh 2", "0 g"),
        ("interval 100000", BAD_INTERVAL),
        ("interval 0", BAD_INTERVAL),
        ("interval 3", BAD_INTERVAL),
        ("interval 15", BAD_INTERVAL),
        ("interval 4294967295", BAD_INTERVAL),
        ("weigh 1", "268400000 g"),
        ("interval 200", "done"),
        ("weigh 2", "-800 g"),
        ("weigh 3", NOT_AT_REST),
        ("weigh 4", NOT_FITTED),
        ("interval 1", "done"),
        ("weigh 2", "-950 g"),
    ];
    answers(&rt, rt.alloc(), &rows)
}

#[test]
fn layers_in_either_order(rt: HostRuntime) -> Result<(), Fail> {
    let rows = [
        ("put 1 1250 rest", "done"),
        ("tare 1 300", "done"),
        ("interval 200", "done"),
        ("pile step-tare", "done"),
        ("weigh 1", "800 g"),
        ("pile tare-step", "done"),
        ("weigh 1", "900 g"),
        // a layer that the pile leaves out keeps its settings
        ("pile board", "done"),
        ("tare 1 400", "done"),
        ("interval 500", "done"),
        ("weigh 1", "1250 g"),
        ("pile tare", "done"),
        ("weigh 1", "850 g"),
        ("pile step-tare", "done"),
        ("weigh 1", "500 g"),
    ];
    answers(&rt, rt.alloc(), &rows)
}
