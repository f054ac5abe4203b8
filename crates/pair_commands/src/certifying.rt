//! The command `certify`.
ghost use Rattle.std.specs.Prelude.{◌≡◌, ◌≤◌, ◌*◌, IfOk, OnOk, length, IfErr};
ghost use Rattle.strip_graph.specs.Strips.{rows};
ghost use Rattle.row_paths.specs.Solutions.{Solution, Solves};
ghost use Rattle.strip_potential.specs.Rows.{HasRows};
ghost use Rattle.pair_pool.specs.Solvers.{raised_by};
ghost use Rattle.cert_checker.specs.CertTexts.{IsLawfulCertificate, certificate_parts};
ghost use Rattle.cert_checker.specs.Verdicts.{Holds};
ghost use Rattle.section_core.specs.declared.parts.Version.TheVariants as Version;
ghost use Rattle.section_text.specs.Fronts.{IsReadMemory};
ghost use Rattle.command_replies.specs.Reply.{Replies, told};
ghost use Rattle.command_replies.specs.Stages.{on_objects};
ghost use Rattle.pair_commands.specs.Certify.{TellsCert, certificate, certify};

use crate::one_pair::pair_of;
use cert_checker::{Cert, CertText, print_cert};
use command_replies::{numbered_pairs, objects_in};
use fku_types::limits::{MAX_CHECK_BYTES, MAX_PAIRS};
use fku_types::{Fault, NoMemory};
use pair_pool::PairSolver;
use row_paths::Solved;
use std::alloc::Global;
use strip_graph::Pair;
use strip_potential::potential;

// The solution of one pair.
fn solve_one<P: PairSolver>(alloc: Global, pair: &Pair, solver: &mut P) -> Result<Solved, NoMemory>
    ensures solved { IfOk result (Solves pair.now) }
    ensures counted { OnOk result (P.solved_pairs solver.new ≡ raised_by 1 (P.solved_pairs solver.old)) }
    ensures not_less { P.solved_pairs solver.old ≤ P.solved_pairs solver.new }
    ensures same_workers { P.worker_count solver.new ≡ P.worker_count solver.old }
{
    let mut solved = solver.solve_each(alloc, &[pair])?;
    Ok(solved.pop().unwrap())
}

// The certificate of a solved pair by its number.
fn certificate(
    alloc: Global,
    number: u32,
    pair: &Pair,
    solved: Solved,
) -> Result<CertText, NoMemory>
    requires some { 1 ≤ number }
    requires few { number ≤ MAX_PAIRS }
    requires solved { Solves pair.now solved }
    ensures parts { IfOk result (λ t. certificate_parts t ≡ certificate number pair.now solved t.cert.pi.items) }
    ensures potential { IfOk result (λ t. HasRows pair.now (2 * rows pair.now) t.cert.pi.items) }
    ensures holds { IfOk result (λ t. Holds pair.now t.cert) }
    ensures lawful { IfOk result (λ t. IsLawfulCertificate (certificate_parts t)) }
{
    let pi = potential(alloc, pair, &solved)?;
    let cert = Cert {
        rows: pair.low().points.len() as u32,
        cols: pair.high().points.len() as u32,
        cost: solved.cost(),
        tiling: solved.into_tiling(),
        pi,
    };
    Ok(CertText { pair: number, cert })
}

// The text of the certificate of a pair; one solve is counted.
fn certified<P: PairSolver>(
    alloc: Global,
    number: u32,
    pair: &Pair,
    solver: &mut P,
) -> Result<Vec<u8>, NoMemory>
    requires some { 1 ≤ number }
    requires few { number ≤ MAX_PAIRS }
    ensures text { IfOk result (λ v.
        (s : Solution) × Solves pair.now s × TellsCert number pair.now s (told v.items 1)) }
    ensures counted { OnOk result (P.solved_pairs solver.new ≡ raised_by 1 (P.solved_pairs solver.old)) }
    ensures not_less { P.solved_pairs solver.old ≤ P.solved_pairs solver.new }
    ensures same_workers { P.worker_count solver.new ≡ P.worker_count solver.old }
{
    let solved = solve_one(alloc, pair, solver)?;
    let text = certificate(alloc, number, pair, solved)?;
    print_cert(alloc, &text)
}

/// The certificate of pair `number`, 1 to `MAX_PAIRS`, of the objects in a text of at most `MAX_CHECK_BYTES` bytes.
/// Else the first fault of the text or of its objects, or that there is no such pair; or `NoMemory`. `Ok` raises the
/// solver's count by one, up to its last value; no fault but `NoMemory` raises it.
pub fn certify<P: PairSolver>(
    alloc: Global,
    input: &[u8],
    number: u32,
    solver: &mut P,
) -> Result<Vec<u8>, Fault>
    requires short { length input.now ≤ MAX_CHECK_BYTES }
    requires some { 1 ≤ number }
    requires few { number ≤ MAX_PAIRS }
    ensures reply { Replies (on_objects (certify number) input.now) (P.solved_pairs solver.old)
        (P.solved_pairs solver.new) result }
    ensures same_workers { P.worker_count solver.new ≡ P.worker_count solver.old }
    // A fault in the first four kept lines, or the end of the text before a fourth, is reported whatever memory there
    // is.
    ensures memory { IfErr result (IsReadMemory Version.Two input.now) }
{
    let objects = objects_in(alloc, input)?;
    let pairs = numbered_pairs(alloc, &objects)?;
    let pair = pair_of(&pairs, number)?;
    let text = certified(alloc, number, &pair.pair, solver)?;
    Ok(text)
}
