//! Pools of workers.
ghost use Rattle.std.specs.Prelude.{◌≤◌};

use crate::answers::{alike, begins_with, same};
use crate::runs::{Outcome, told, told_by};
use crate::texts::THREE_SQUARES;
use pair_pool::{BoxedGate, Gate, NoGate, PairSolver, Pool};
use section_core::print;
use std::alloc::Global;
use std::hint;
use std::process::Abort;
use std::sync::Arc;
use std::sync::atomic::{AtomicUsize, Ordering};
use std::test::Fail;
use std::thread::Threads;
use surface_cli::{Status, demo_sections};

// A gate that keeps two jobs waiting until both have entered, for at most this many turns.
#[derive(Drop)]
struct Meeting {
    entered: Arc<AtomicUsize>,
    met: Arc<AtomicUsize>,
}

const TURNS: u32 = 100_000_000;

impl Gate for Meeting {
    fn enter(&self, _job: usize) {
        self.entered.fetch_add(1, Ordering::SeqCst);
        for _ in 0..TURNS {
            if self.entered.load(Ordering::SeqCst) >= 2 {
                self.met.fetch_add(1, Ordering::SeqCst);
                break;
            }
            hint::spin_loop();
        }
    }
}

// A gate for two jobs, which counts in `met` those that have met.
fn gate(alloc: Global, met: &Arc<AtomicUsize>) -> Result<BoxedGate, Fail> {
    let gate = Meeting {
        entered: Arc::new(alloc, AtomicUsize::new(0))?,
        met: Arc::try_clone(met)?,
    };
    Ok(BoxedGate(Box::new(alloc, gate)?))
}

// Asserts how a run of these words with this solver ends, and the text that it writes.
fn is_solved<R: Abort + AllocGlobal, P: PairSolver>(
    rt: &R,
    line: &str,
    input: &[u8],
    solver: &mut P,
    status: Status,
    text: &[u8],
) -> Result<(), Fail> {
    let (found, written) = told_by(rt.alloc(), line, input, solver)?;
    same(rt, found, status);
    alike(rt, &written, text);
    Ok(())
}

#[test]
fn pairs_of_two_gaps_are_solved_at_once(rt: HostRuntime) -> Result<(), Fail> {
    let input = THREE_SQUARES.as_bytes();
    let plain = told(rt.alloc(), "tilings", input)?;
    let met = Arc::new(rt.alloc(), AtomicUsize::new(0))?;
    let mut pool = Pool::new(&rt, 1, gate(rt.alloc(), &met)?);
    let line = "tilings --workers 2";
    is_solved(&rt, line, input, &mut pool, Status::Done, &plain.text)?;
    same(&rt, met.load(Ordering::SeqCst), 2);
    same(&rt, pool.solved_count(), 2);
    same(&rt, pool.workers(), 2);
    Ok(())
}

// Asserts how a run of this command with this many workers ends, how many pairs are counted, and the text that it
// writes.
fn writes_the_same<R: Abort + AllocGlobal + Threads + Sync>(
    rt: &R,
    line: &str,
    input: &[u8],
    plain: &Outcome,
    solved: u64,
) -> Result<(), Fail> {
    let mut pool = Pool::new(rt, 5, NoGate);
    is_solved(rt, line, input, &mut pool, plain.status, &plain.text)?;
    same(rt, pool.solved_count(), solved);
    Ok(())
}

// The same with each number of workers.
fn every_number_writes_the_same<R: Abort + AllocGlobal + Threads + Sync>(
    rt: &R,
    command: &str,
    input: &[u8],
    plain: &Outcome,
    solved: u64,
) -> Result<(), Fail> {
    for workers in ["1", "2", "3", "4", "8", "64"] {
        let line = format!(in rt.alloc(); "{command} --workers {workers}")?;
        writes_the_same(rt, &line, input, plain, solved)?;
    }
    Ok(())
}

// Asserts that the command succeeds, and that every number of workers writes the same.
fn is_one_for_all<R: Abort + AllocGlobal + Threads + Sync>(
    rt: &R,
    command: &str,
    input: &[u8],
    solved: u64,
) -> Result<(), Fail> {
    let plain = told(rt.alloc(), command, input)?;
    same(rt, plain.status, Status::Done);
    every_number_writes_the_same(rt, command, input, &plain, solved)
}

// The text of a stack of 40 sections of so many vertices.
fn made_text(alloc: Global, vertices: u32) -> Result<Vec<u8>, Fail>
    requires { (3 ≤ vertices) × (vertices ≤ 1000) }
{
    let sections = demo_sections(alloc, 7, 40, vertices).map_err(|_| "demo")?;
    Ok(print(alloc, &sections).map_err(|_| "text")?)
}

#[test]
fn every_number_of_workers_writes_the_same(rt: HostRuntime) -> Result<(), Fail> {
    let input = made_text(rt.alloc(), 20)?;
    let rows = [
        ("tilings", 39),
        ("reconstruct", 39),
        ("report", 39),
        ("ringcaps", 39),
        ("edit", 39),
        ("densify", 39),
        ("slice --height=500", 1),
        ("landmarks", 0),
        ("demo 7 40 20", 39),
    ];
    for (command, solved) in rows {
        is_one_for_all(&rt, command, &input, solved)?;
    }
    Ok(())
}

#[test]
fn every_number_of_workers_solves_the_pairs_alike(rt: HostRuntime) -> Result<(), Fail> {
    let input = made_text(rt.alloc(), 200)?;
    is_one_for_all(&rt, "tilings", &input, 39)
}

// What `demo 7 40 200` writes. Two other programs that follow the definitions made these lines.
const MADE: &str = "DEMO 7 40 200
SECTIONS 40
CONTOURS 40
VERTICES 8000
TRIANGLES 15996
FOLDED 0
PAIRS 39
COST 14666761926400
SIXVOLUME 20764684467200000
";

#[test]
fn four_workers_make_a_stack(rt: HostRuntime) -> Result<(), Fail> {
    let mut pool = Pool::new(&rt, 1, NoGate);
    let line = "demo 7 40 200 --workers 4";
    is_solved(&rt, line, b"", &mut pool, Status::Done, MADE.as_bytes())?;
    same(&rt, (pool.solved_count(), pool.workers()), (39, 4));
    Ok(())
}

// How the report of two sections of 1,000 vertices begins: one strip of 2,000 triangles, two caps of 998, and one pair.
const ONE_PAIR: &str = "DEMO 1 2 1000
SECTIONS 2
CONTOURS 2
VERTICES 2000
TRIANGLES 3996
FOLDED 0
PAIRS 1
COST ";

#[test]
fn one_pair_is_told_twice_alike(rt: HostRuntime) -> Result<(), Fail> {
    let plain = told(rt.alloc(), "demo 1 2 1000", b"")?;
    same(&rt, plain.status, Status::Done);
    same(&rt, plain.solved, 1);
    begins_with(&rt, &plain.text, ONE_PAIR.as_bytes());
    writes_the_same(&rt, "demo 1 2 1000 --workers 4", b"", &plain, 1)
}

// Contours that cross in the first section, and one that crosses itself in the last, which is the one reported.
const TWO_FAULTS: &str = "SECTIONS 1
COST span
PAIR overlap
SECTION 0
CONTOUR a 4
0 0
10 0
10 10
0 10
CONTOUR b 4
5 5
15 5
15 15
5 15
SECTION 10
CONTOUR c 4
0 0
10 0
10 10
0 10
SECTION 20
CONTOUR d 4
0 0
10 10
10 0
0 10
END
";

#[test]
fn every_number_of_workers_tells_the_first_fault(rt: HostRuntime) -> Result<(), Fail> {
    let input = TWO_FAULTS.as_bytes();
    let plain = told(rt.alloc(), "reconstruct", input)?;
    same(&rt, plain.status, Status::Refused);
    assert!(rt; plain.text.ends_with(b"8 SELF CROSSING d 0 2\n".as_slice()));
    every_number_writes_the_same(&rt, "reconstruct", input, &plain, 0)
}
