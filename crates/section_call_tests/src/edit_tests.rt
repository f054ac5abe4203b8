//! Sessions of edits. `tools/tests/rows/edit.rows` has more.
ghost use Rattle.std.specs.Prelude.{◌≤◌, length};

use crate::comparisons::same;
use crate::texts::{SQUARES, THREE_SQUARES, sections_of};
use fku_types::{NoMemory, Point, Spot};
use pair_pool::{OneByOne, PairSolver};
use row_paths::Solved;
use section_edits::{Done, Edit, EditFault, Session, Spots, edit_fault_line, read_edit};
use std::alloc::Global;
use std::process::Abort;
use std::str;
use std::test::Fail;
use strip_graph::Pair;
use surface_core::{Built, surface};

fn opened<P: PairSolver>(alloc: Global, text: &[u8], solver: &mut P) -> Result<Session, Fail>
    requires { length text.now ≤ 1000 }
{
    let sections = sections_of(alloc, text)?;
    match Session::open(alloc, sections, solver) {
        Ok(session) => Ok(session),
        Err(_) => Err(Fail::from("the sections have pairs")),
    }
}

// The outcome of an edit's line.
fn outcome_of(
    alloc: Global,
    session: &mut Session,
    line: &str,
    solver: &mut OneByOne,
) -> Result<Done, EditFault> {
    let edit = read_edit(alloc, line.as_bytes())?;
    session.apply(alloc, &edit, solver)
}

fn refusal(alloc: Global, fault: &EditFault) -> Result<String, Fail> {
    let words = edit_fault_line(fault).ok_or("memory is wanting")?;
    let words = str::from_utf8(&words).ok().ok_or("the words are text")?;
    Ok(format!(in alloc; "REFUSED {words}")?)
}

// The answer to an edit's line.
fn answer_to(
    alloc: Global,
    session: &mut Session,
    line: &str,
    solver: &mut OneByOne,
) -> Result<String, Fail> {
    match outcome_of(alloc, session, line, solver) {
        Ok(Done { solved, reused }) => Ok(format!(in alloc;
            "DONE solved {solved} reused {reused}"
        )?),
        Err(fault) => refusal(alloc, &fault),
    }
}

fn built_anew(alloc: Global, text: &[u8]) -> Result<Built, Fail>
    requires { length text.now ≤ 1000 }
{
    let sections = sections_of(alloc, text)?;
    let built = surface(alloc, &sections, &mut OneByOne::new()).ok();
    Ok(built.ok_or("there is a surface")?)
}

// Two surfaces of one part are equal.
fn expect_equal<R: Abort>(rt: &R, built: &Built, anew: &Built) -> Result<(), Fail> {
    same(rt, (built.pairs, built.folded), (anew.pairs, anew.folded));
    same(rt, built.cost, anew.cost);
    let vertices = built.mesh.vertices.as_slice();
    same(rt, vertices, anew.mesh.vertices.as_slice());
    let part = built.mesh.parts.first().ok_or("there is a part")?;
    let part_anew = anew.mesh.parts.first().ok_or("there is a part")?;
    same(rt, part.as_slice(), part_anew.as_slice());
    Ok(())
}

// Asserts that the mesh of the session is that of the sections of a text.
fn expect_surface<R: Abort + AllocGlobal>(
    rt: &R,
    session: &Session,
    text: &[u8],
) -> Result<(), Fail>
    requires { length text.now ≤ 1000 }
{
    let anew = built_anew(rt.alloc(), text)?;
    let built = session.build(rt.alloc())?;
    expect_equal(rt, &built, &anew)
}

fn expect_answer<R: Abort>(rt: &R, said: &str, answer: &str, line: &str) {
    assert_eq!(rt; said, answer, "at {line}");
}

// Asserts the answers of a session to edits.
fn expect_answers<R: Abort + AllocGlobal>(
    rt: &R,
    session: &mut Session,
    edits: &[(&str, &str)],
    solver: &mut OneByOne,
) -> Result<(), Fail> {
    for (line, answer) in edits {
        let said = answer_to(rt.alloc(), session, line, solver)?;
        expect_answer(rt, said.as_str(), answer, line);
    }
    Ok(())
}

// Asserts the answers to the edits of a text, the solver's count of pairs in all, and that the last surface is that of
// another text.
fn expect_edits<R: Abort + AllocGlobal>(
    rt: &R,
    text: &[u8],
    edits: &[(&str, &str)],
    solved: u64,
    last: &[u8],
) -> Result<(), Fail>
    requires text { length text.now ≤ 1000 }
    requires last { length last.now ≤ 1000 }
{
    let mut solver = OneByOne::new();
    let mut session = opened(rt.alloc(), text, &mut solver)?;
    expect_answers(rt, &mut session, edits, &mut solver)?;
    same(rt, (solver.solved_count(), solver.workers()), (solved, 1));
    expect_surface(rt, &session, last)
}

const THERE_AND_BACK: &[(&str, &str)] = &[
    ("MOVE b 2 12 12", "DONE solved 1 reused 0"),
    ("MOVE b 2 -5 5", "REFUSED 8 SELF CROSSING b 1 3"),
    ("MOVE b 2 10 10", "DONE solved 1 reused 0"),
];

const KEPT: &[(&str, &str)] = &[
    ("MOVE c 2 12 12", "DONE solved 1 reused 1"),
    ("MOVE c 2 12 12", "DONE solved 0 reused 2"),
    ("MOVE c 2 10 10", "DONE solved 1 reused 1"),
];

#[test]
fn edits_keep_what_they_can(rt: HostRuntime) -> Result<(), Fail> {
    expect_edits(&rt, SQUARES, THERE_AND_BACK, 3, SQUARES)?;
    expect_edits(&rt, THREE_SQUARES, KEPT, 4, THREE_SQUARES)
}

// A solver that returns `NoMemory` once when the test says so, and otherwise passes its pairs on.
#[derive(Drop)]
struct Refusing {
    inner: OneByOne,
    refuses: bool,
}

impl PairSolver for Refusing {
    ghost solved_pairs = { λ s. s.inner.solved_pairs };

    ghost worker_count = { λ s. s.inner.worker_count };

    fn solve_each(&mut self, alloc: Global, pairs: &[&Pair]) -> Result<Vec<Solved>, NoMemory> {
        if self.refuses {
            self.refuses = false;
            return Err(NoMemory);
        }
        self.inner.solve_each(alloc, pairs)
    }

    fn set_workers(&mut self, workers: u32) {
        self.inner.set_workers(workers);
    }
}

fn is_want(outcome: Result<Done, EditFault>) -> bool {
    matches!(outcome, Err(EditFault::NoMemory))
}

// The third corner of the upper one of two squares.
fn corner_of(session: &Session) -> Option<Point> {
    let upper = session.sections().sections().get(1)?;
    upper.contours.first()?.points.get(2).copied()
}

// Asserts that the edit is applied, with one counted pair.
fn expect_done<R: Abort + AllocGlobal>(
    rt: &R,
    session: &mut Session,
    edit: &Edit,
    solver: &mut Refusing,
) -> Result<(), Fail> {
    let done = session
        .apply(rt.alloc(), edit, solver)
        .ok()
        .ok_or("memory is there")?;
    same(rt, (done.solved, done.reused), (1, 0));
    same(rt, solver.inner.solved_count(), 2);
    Ok(())
}

// Asserts that an edit returns `NoMemory` if the solver does, and leaves the squares; and that it is applied later.
fn expect_want<R: Abort + AllocGlobal>(
    rt: &R,
    session: &mut Session,
    edit: &Edit,
    solver: &mut Refusing,
) -> Result<(), Fail> {
    solver.refuses = true;
    assert!(rt; is_want(session.apply(rt.alloc(), edit, solver)));
    expect_surface(rt, session, SQUARES)?;
    let corner = Point {
        x: 10,
        y: 10,
        z: 10,
    };
    same(rt, corner_of(session), Some(corner));
    expect_done(rt, session, edit, solver)
}

#[test]
fn want_of_memory_leaves_a_session(rt: HostRuntime) -> Result<(), Fail> {
    let mut solver = Refusing {
        inner: OneByOne::new(),
        refuses: false,
    };
    let edit = read_edit(rt.alloc(), b"MOVE b 2 12 12")
        .ok()
        .ok_or("the line is an edit")?;
    let mut session = opened(rt.alloc(), SQUARES, &mut solver)?;
    expect_want(&rt, &mut session, &edit, &mut solver)
}

// The first of the places from which `Spots` were made.
fn given_back(alloc: Global) -> Result<Option<Spot>, NoMemory> {
    let places = vec![in alloc; Spot { x: 3, y: -4 }]?;
    Ok(Spots::new(places).into_vec().first().copied())
}

#[test]
fn places_are_given_back(rt: HostRuntime) -> Result<(), Fail> {
    let place = given_back(rt.alloc())?;
    same(&rt, place, Some(Spot { x: 3, y: -4 }));
    Ok(())
}
