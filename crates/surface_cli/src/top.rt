//! The top call.
ghost use Rattle.std.specs.Prelude.{◌≡◌, ◌≢◌, ◌⊎◌, ◌≤◌, ℕ, List, map, string_bytes, false, IfSome};
ghost use Rattle.std.specs.Io.KnownBytes.{Appends};
ghost use Rattle.text_io.specs.Outside.{Rose, AppendsFront};
ghost use Rattle.surface_cli.specs.Commands.{usage};
ghost use Rattle.surface_cli.specs.Words.{IsTaskInRange, names_command};
ghost use Rattle.surface_cli.specs.Run.{IsRun, IsWork, HasReadingMeaning, outside, workers_of};
ghost use Rattle.surface_cli.specs.Headline.{AsksForCheck, AsksForCrossings, AsksForMeasures, AsksForRingSurface, AsksForSurface, AsksForTilings, IsCrossed, IsJudged, IsLeastClosedSurface, IsLeastListing, IsLeastRingSurface, IsMeasured};

use crate::commands::USAGE;
use crate::reading::{Stop, answer_of};
use crate::words::{Task, meaning_of};
use command_replies::Status;
use fku_types::NoMemory;
use pair_pool::{OneByOne, PairSolver};
use std::alloc::Global;
use text_io::{Sink, Source, put_all};

/// The same as `run_with`, with its own solver, which solves one pair after another.
pub fn run<S: Source, K: Sink>(
    alloc: Global,
    words: &[String],
    input: &mut S,
    output: &mut K,
) -> Status
    ensures run { IsRun (map string_bytes words.now)
        (outside S.left S.faults input.old input.new K.held K.faults output.old output.new) result }
    ensures headline { result ≡ Status.Done → AsksForSurface (map string_bytes words.now)
        → IfSome (S.left input.old) (λ bytes.
        (text : List ℕ) × IsLeastClosedSurface bytes text × Appends (K.held output.old) (K.held output.new) text) }
    ensures ring_headline { result ≡ Status.Done → AsksForRingSurface (map string_bytes words.now)
        → IfSome (S.left input.old) (λ bytes.
        (text : List ℕ) × IsLeastRingSurface bytes text × Appends (K.held output.old) (K.held output.new) text) }
    ensures measure_headline { result ≡ Status.Done → AsksForMeasures (map string_bytes words.now)
        → IfSome (S.left input.old) (λ bytes.
        (text : List ℕ) × IsMeasured bytes text × Appends (K.held output.old) (K.held output.new) text) }
    ensures crossings_headline { result ≡ Status.Done → AsksForCrossings (map string_bytes words.now)
        → IfSome (S.left input.old) (λ bytes.
        (text : List ℕ) × IsCrossed bytes text × Appends (K.held output.old) (K.held output.new) text) }
    ensures tilings_headline { result ≡ Status.Done → AsksForTilings (map string_bytes words.now)
        → IfSome (S.left input.old) (λ bytes.
        (text : List ℕ) × IsLeastListing bytes text × Appends (K.held output.old) (K.held output.new) text) }
    ensures check_headline { result ≡ Status.Done → AsksForCheck (map string_bytes words.now)
        → IfSome (S.left input.old) (λ bytes.
        (text : List ℕ) × IsJudged bytes text × Appends (K.held output.old) (K.held output.new) text) }
    ensures unread { (HasReadingMeaning (map string_bytes words.now) → ⊥) → input.new ≡ input.old }
    ensures unwritten { (result ≡ Status.ReadFault) ⊎ (result ≡ Status.NoMemory) → output.new ≡ output.old }
    ensures unnamed { names_command (map string_bytes words.now) ≡ false
        → (result ≡ Status.BadWords) ⊎ (result ≡ Status.WriteFault) }
    ensures later { (S.faults input.old ≤ S.faults input.new) × (K.faults output.old ≤ K.faults output.new) }
{
    run_with(alloc, words, input, output, &mut OneByOne::new())
}

/// Does what the words after the program's name ask for: reads the input, and writes the answer. The body makes the
/// whole answer before the first write. `docs/formats.md` has the texts, the refusals and the statuses.
///
/// `ReadFault` and `WriteFault` come only if the source or the sink counted a fault in this call, or its count is at
/// its last value; `NoMemory` comes if memory ran out, and only if the first word is the name of a command. Nothing is
/// written at `ReadFault` and at `NoMemory`, and a front of the text at `WriteFault`. `BadWords`, the status of a usage
/// error, and `demo` read nothing.
///
/// At `Done` the solver's count has risen by just the pairs that the definition counts for the command, up to its last
/// value; no clause says that no other solver works. Its number of workers is then that of the option `--workers`; it
/// stays if the command has no such option.
pub fn run_with<S: Source, K: Sink, P: PairSolver>(
    alloc: Global,
    words: &[String],
    input: &mut S,
    output: &mut K,
    solver: &mut P,
) -> Status
    // What the status shows of the bytes read and written, and when the whole text of the definition was written.
    ensures run { IsRun (map string_bytes words.now)
        (outside S.left S.faults input.old input.new K.held K.faults output.old output.new) result }
    // What it shows of the solver's count of pairs, and of its workers.
    ensures work { IsWork (map string_bytes words.now) (S.left input.old)
        (record { solved_pairs = P.solved_pairs solver.old; worker_count = P.worker_count solver.old })
        (record { solved_pairs = P.solved_pairs solver.new; worker_count = P.worker_count solver.new }) result }
    // At Done of `reconstruct` the written bytes are the MOVIE.BYU text of the input's closed surface, in which no
    // acceptable tiling of a pair costs less than the one used.
    ensures headline { result ≡ Status.Done → AsksForSurface (map string_bytes words.now)
        → IfSome (S.left input.old) (λ bytes.
        (text : List ℕ) × IsLeastClosedSurface bytes text × Appends (K.held output.old) (K.held output.new) text) }
    // At Done of `ringcaps` they are that of the surface with one cap for an outer contour and the holes that end with
    // it.
    ensures ring_headline { result ≡ Status.Done → AsksForRingSurface (map string_bytes words.now)
        → IfSome (S.left input.old) (λ bytes.
        (text : List ℕ) × IsLeastRingSurface bytes text × Appends (K.held output.old) (K.held output.new) text) }
    // At Done of `measure` they are the text of the measures of each part of the mesh whose text the input is.
    ensures measure_headline { result ≡ Status.Done → AsksForMeasures (map string_bytes words.now)
        → IfSome (S.left input.old) (λ bytes.
        (text : List ℕ) × IsMeasured bytes text × Appends (K.held output.old) (K.held output.new) text) }
    // At Done of `crossings` they are the text of the crossings of each part of that mesh, over all pairs of triangles
    // of the part.
    ensures crossings_headline { result ≡ Status.Done → AsksForCrossings (map string_bytes words.now)
        → IfSome (S.left input.old) (λ bytes.
        (text : List ℕ) × IsCrossed bytes text × Appends (K.held output.old) (K.held output.new) text) }
    // At Done of `tilings` they are the text of tilings, one for each pair of each object. Each is acceptable, and no
    // acceptable tiling of the pair, from any start, costs less than the printed one.
    ensures tilings_headline { result ≡ Status.Done → AsksForTilings (map string_bytes words.now)
        → IfSome (S.left input.old) (λ bytes.
        (text : List ℕ) × IsLeastListing bytes text × Appends (K.held output.old) (K.held output.new) text) }
    // At Done of `check`, if they are `ACCEPT PAIR k COST c`, the tiling of the certificate after the objects costs c,
    // and no acceptable tiling of pair k, from any start, costs less. This clause names no solver.
    ensures check_headline { result ≡ Status.Done → AsksForCheck (map string_bytes words.now)
        → IfSome (S.left input.old) (λ bytes.
        (text : List ℕ) × IsJudged bytes text × Appends (K.held output.old) (K.held output.new) text) }
    // A usage error and `demo` read nothing: the source stays as it was.
    ensures unread { (HasReadingMeaning (map string_bytes words.now) → ⊥) → input.new ≡ input.old }
    // Nothing was written: the sink stays as it was.
    ensures unwritten { (result ≡ Status.ReadFault) ⊎ (result ≡ Status.NoMemory) → output.new ≡ output.old }
    // Words that do not begin with the name of a command are told as bad, whatever memory there is. Those of a command,
    // and its input, are read into memory, which may run out before a fault of them is seen.
    ensures unnamed { names_command (map string_bytes words.now) ≡ false
        → (result ≡ Status.BadWords) ⊎ (result ≡ Status.WriteFault) }
    ensures later { (S.faults input.old ≤ S.faults input.new) × (K.faults output.old ≤ K.faults output.new) }
{
    match meaning_of(alloc, words) {
        Err(NoMemory) => Status::NoMemory,
        Ok(None) => tell_usage(output),
        Ok(Some(task)) => {
            set_workers(solver, &task);
            match answer_of(alloc, task.command, input, solver) {
                Err(Stop::ReadFault) => Status::ReadFault,
                Err(Stop::NoMemory) => Status::NoMemory,
                Ok(answer) => write(output, answer.text.bytes(), answer.status),
            }
        }
    }
}

// Sets the workers of the solver, if the command has that option.
fn set_workers<P: PairSolver>(solver: &mut P, task: &Task)
    requires { IsTaskInRange task.now }
    ensures set { P.worker_count solver.new ≡ workers_of (Some task.now) (P.worker_count solver.old) }
    ensures same_count { P.solved_pairs solver.new ≡ P.solved_pairs solver.old }
{
    if let Some(workers) = task.workers {
        solver.set_workers(workers);
    }
}

// Writes the usage line: all of it, or a front of it.
fn tell_usage<K: Sink>(output: &mut K) -> Status
    ensures whole { result ≢ Status.WriteFault
        → (result ≡ Status.BadWords) × Appends (K.held output.old) (K.held output.new) usage }
    ensures front { result ≡ Status.WriteFault
        → Rose (K.faults output.old) (K.faults output.new)
        × AppendsFront (K.held output.old) (K.held output.new) usage }
    ensures later { K.faults output.old ≤ K.faults output.new }
{
    write(output, USAGE, Status::BadWords)
}

// Writes the text: all of it and the status, or a front of it.
fn write<K: Sink>(output: &mut K, text: &[u8], status: Status) -> Status
    ensures whole { result ≢ Status.WriteFault
        → (result ≡ status) × Appends (K.held output.old) (K.held output.new) text.now }
    ensures front { result ≡ Status.WriteFault
        → status ≢ Status.WriteFault
        → Rose (K.faults output.old) (K.faults output.new)
        × AppendsFront (K.held output.old) (K.held output.new) text.now }
    ensures later { K.faults output.old ≤ K.faults output.new }
{
    match put_all(output, text) {
        Ok(()) => status,
        Err(_) => Status::WriteFault,
    }
}
