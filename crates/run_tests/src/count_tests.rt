//! How many pairs a solver has counted after a run, and how many workers it has then.
use crate::answers::same;
use crate::runs::{WORKERS, told};
use crate::texts::{
    BOX, CERTIFICATE, CROSSED, CROSSED_OBJECT, ONE_OBJECT, RING, THREE_SQUARES, TUBES, TWO_OBJECTS,
    TWO_SQUARES, joined, long_pair, long_ring, stack, with_lines,
};
use std::process::Abort;
use std::test::Fail;
use surface_cli::Status;

// Asserts how a run of this line ends, how many pairs its new solver has counted then, and how many workers that has.
fn counts<R: Abort + AllocGlobal>(
    rt: &R,
    line: &str,
    input: &[u8],
    status: Status,
    solved: u64,
    workers: u32,
) -> Result<(), Fail> {
    let answer = told(rt.alloc(), line, input)?;
    same(rt, answer.status, status);
    same(rt, answer.solved, solved);
    same(rt, answer.workers, workers);
    Ok(())
}

// Words, a text and what follows it, how the run ends, how many pairs are counted, and how many workers there are.
type Row = (&'static str, &'static str, &'static str, Status, u64, u32);

fn count_each<R: Abort + AllocGlobal>(rt: &R, rows: &[Row]) -> Result<(), Fail> {
    for (line, text, more, status, solved, workers) in rows {
        let input = joined(rt.alloc(), &[*text, *more])?;
        counts(rt, line, &input, *status, *solved, *workers)?;
    }
    Ok(())
}

const PLAIN: &[Row] = &[
    ("tilings", THREE_SQUARES, "", Status::Done, 2, 1),
    ("tilings --workers 3", TUBES, "", Status::Done, 2, 3),
    (
        "reconstruct --workers=64",
        THREE_SQUARES,
        "",
        Status::Done,
        2,
        64,
    ),
    (
        "report --workers 2",
        "SECTION 0\n",
        "",
        Status::Refused,
        0,
        2,
    ),
    ("report", TUBES, "", Status::Done, 2, 1),
    ("ringcaps --workers 3", RING, "", Status::Done, 0, 3),
    ("ringcaps", TWO_SQUARES, "", Status::Done, 1, 1),
    (
        "slice --height=15 --workers 2",
        THREE_SQUARES,
        "",
        Status::Done,
        1,
        2,
    ),
    ("slice --height=5", TUBES, "", Status::Done, 2, 1),
    (
        "slice --height=10",
        THREE_SQUARES,
        "",
        Status::Refused,
        0,
        1,
    ),
    ("demo 7 10 50 --workers 8", "", "", Status::Done, 9, 8),
    ("count", BOX, "", Status::Done, 0, WORKERS),
    ("count", "", "", Status::Refused, 0, WORKERS),
    ("weave", "", "", Status::BadWords, 0, WORKERS),
    (
        "tilings --workers 65",
        THREE_SQUARES,
        "",
        Status::BadWords,
        0,
        WORKERS,
    ),
];

#[test]
fn commands_on_surfaces(rt: HostRuntime) -> Result<(), Fail> {
    count_each(&rt, PLAIN)
}

const CERTIFIED: &[Row] = &[
    ("certify", TWO_SQUARES, "", Status::Done, 1, WORKERS),
    (
        "certify --pair=2",
        THREE_SQUARES,
        "",
        Status::Done,
        1,
        WORKERS,
    ),
    (
        "certify --pair 2",
        TWO_SQUARES,
        "",
        Status::Refused,
        0,
        WORKERS,
    ),
    ("certify", CERTIFICATE, "", Status::Refused, 0, WORKERS),
    ("check", TWO_SQUARES, CERTIFICATE, Status::Done, 0, WORKERS),
    ("check", TWO_SQUARES, "", Status::Refused, 0, WORKERS),
    ("check", CROSSED, "x\n", Status::Refused, 0, WORKERS),
    ("landmarks", TWO_SQUARES, "MARK 1 0 2\n", Status::Done, 0, 1),
    (
        "landmarks --workers 8",
        TWO_SQUARES,
        "MARK 1 0 2\n",
        Status::Done,
        0,
        8,
    ),
    (
        "landmarks",
        TWO_SQUARES,
        "MARK 2 0 0\n",
        Status::Refused,
        0,
        1,
    ),
    ("landmarks", CROSSED, "x\n", Status::Refused, 0, 1),
];

#[test]
fn commands_on_pairs(rt: HostRuntime) -> Result<(), Fail> {
    count_each(&rt, CERTIFIED)
}

const CROSSES: &str = "MOVE b 2 12 12\nMOVE b 2 -5 5\nMOVE b 2 10 10\n";

const REMOVES: &str = "MOVE q 0 1 1\nREMOVE b 0\nREMOVE b 0\nDROP b\nDROP a\n";

// Two pairs of the densified squares are counted, and the name of the section between them is taken.
const DENSE: &str = "SECTIONS 1\nCOST span\nPAIR links\n\
    SECTION 0\nCONTOUR a 4\n0 0\n10 0\n10 10\n0 10\n\
    SECTION 5\nCONTOUR m1 8\n0 0\n5 0\n10 0\n10 5\n10 10\n5 10\n0 10\n0 5\n\
    SECTION 10\nCONTOUR b 4\n0 0\n10 0\n10 10\n0 10\nLINK a m1\nLINK m1 b\nEND\n";

const NEAR: &str = "SECTIONS 1\nCOST span\nPAIR overlap\n\
    SECTION 0\nCONTOUR a 4\n0 0\n10 0\n10 10\n0 10\n\
    SECTION 1\nCONTOUR b 4\n0 0\n10 0\n10 10\n0 10\nEND\n";

const CHANGED: &[Row] = &[
    ("edit --workers 3", TWO_SQUARES, CROSSES, Status::Done, 3, 3),
    ("edit --workers 3", TWO_SQUARES, REMOVES, Status::Done, 2, 3),
    (
        "edit --workers 3",
        TWO_SQUARES,
        "INSERT b 4 0 5\nREMOVE b 4\n",
        Status::Done,
        3,
        3,
    ),
    (
        "edit --workers 3",
        TWO_SQUARES,
        "INSERT b 5 0 5\n",
        Status::Done,
        1,
        3,
    ),
    ("edit", TWO_SQUARES, "\n# none\n", Status::Done, 1, 1),
    (
        "edit",
        THREE_SQUARES,
        "MOVE c 2 12 12\nMOVE c 2 10 10\n",
        Status::Done,
        4,
        1,
    ),
    ("edit", "SECTIONS 1\nEND\n", "", Status::Refused, 0, 1),
    ("densify --workers=3", TWO_SQUARES, "", Status::Done, 1, 3),
    ("densify --workers=3", NEAR, "", Status::Done, 0, 3),
    ("densify", DENSE, "", Status::Refused, 2, 1),
    ("densify", CROSSED, "", Status::Refused, 0, 1),
    ("densify", TWO_SQUARES, "LINK a b\n", Status::Refused, 0, 1),
];

#[test]
fn commands_that_make_other_sections(rt: HostRuntime) -> Result<(), Fail> {
    count_each(&rt, CHANGED)
}

const OBJECTS: &[Row] = &[
    ("reconstruct", TWO_OBJECTS, "", Status::Done, 1, 1),
    (
        "reconstruct --workers 4",
        TWO_OBJECTS,
        "",
        Status::Done,
        1,
        4,
    ),
    ("ringcaps", TWO_OBJECTS, "", Status::Done, 1, 1),
    ("report", TWO_OBJECTS, "", Status::Done, 1, 1),
    ("tilings", TWO_OBJECTS, "", Status::Done, 1, 1),
    ("slice --height=5", TWO_OBJECTS, "", Status::Done, 1, 1),
    ("slice --height=11", TWO_OBJECTS, "", Status::Refused, 0, 1),
    ("edit", TWO_OBJECTS, "MOVE p 0 1 1\n", Status::Refused, 0, 1),
    ("densify", TWO_OBJECTS, "", Status::Refused, 0, 1),
    (
        "certify --pair 2",
        TWO_OBJECTS,
        "",
        Status::Refused,
        0,
        WORKERS,
    ),
    ("landmarks", TWO_OBJECTS, "", Status::Done, 0, 1),
    ("certify", ONE_OBJECT, "", Status::Done, 1, WORKERS),
    ("edit", ONE_OBJECT, "MOVE a 0 1 1\n", Status::Done, 2, 1),
    ("densify", ONE_OBJECT, "", Status::Done, 1, 1),
    ("tilings", CROSSED_OBJECT, "", Status::Refused, 0, 1),
    ("reconstruct", CROSSED_OBJECT, "", Status::Refused, 0, 1),
    ("ringcaps", CROSSED_OBJECT, "", Status::Refused, 0, 1),
    ("report", CROSSED_OBJECT, "", Status::Refused, 0, 1),
    (
        "slice --height=5",
        CROSSED_OBJECT,
        "",
        Status::Refused,
        0,
        1,
    ),
    ("densify", CROSSED_OBJECT, "", Status::Refused, 0, 1),
    ("edit", CROSSED_OBJECT, "", Status::Refused, 0, 1),
    ("certify", CROSSED_OBJECT, "", Status::Refused, 0, WORKERS),
];

#[test]
fn commands_on_objects(rt: HostRuntime) -> Result<(), Fail> {
    count_each(&rt, OBJECTS)
}

// No pair is counted before a cap that is too long is refused.
#[test]
fn a_cap_past_its_limit(rt: HostRuntime) -> Result<(), Fail> {
    let input = long_ring(rt.alloc())?;
    let answer = told(rt.alloc(), "ringcaps", &input)?;
    same(
        &rt,
        answer.text.as_slice(),
        b"REFUSED 26 CAP LIMIT section 2 count 4108\n",
    );
    same(&rt, (answer.solved, answer.workers), (0, 1));
    counts(&rt, "report", &input, Status::Done, 1, 1)
}

#[test]
fn edits_at_their_limit(rt: HostRuntime) -> Result<(), Fail> {
    let edit = "MOVE b 0 0 0\n";
    let most = with_lines(rt.alloc(), TWO_SQUARES, edit, 1000)?;
    counts(&rt, "edit", &most, Status::Done, 1, 1)?;
    let many = with_lines(rt.alloc(), TWO_SQUARES, edit, 1001)?;
    counts(&rt, "edit", &many, Status::Refused, 0, 1)
}

#[test]
fn what_did_not_change_is_not_solved_again(rt: HostRuntime) -> Result<(), Fail> {
    let edits = "MOVE s2 2 12 12\nDROP s4\nMOVE s2 2 10 10\n";
    let input = stack(rt.alloc(), 5, 10, edits)?;
    counts(&rt, "edit --workers 3", &input, Status::Done, 8, 3)
}

// Pairs are counted before a middle section is refused.
#[test]
fn middle_sections_past_their_limits(rt: HostRuntime) -> Result<(), Fail> {
    let most = stack(rt.alloc(), 8192, 2, "")?;
    counts(&rt, "densify", &most, Status::Done, 8191, 1)?;
    let many = stack(rt.alloc(), 8193, 2, "")?;
    counts(&rt, "densify", &many, Status::Refused, 8192, 1)?;
    let long = long_pair(rt.alloc())?;
    counts(&rt, "densify", &long, Status::Refused, 1, 1)
}
