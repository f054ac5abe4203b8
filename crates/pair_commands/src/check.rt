//! The command `check`.
ghost use Rattle.std.specs.Prelude.{◌≡◌, ◌≤◌, ℕ, [], ◌∷◌, IfOk, length, string_bytes, IfErr};
ghost use Rattle.cert_checker.specs.CertTexts.{letter};
ghost use Rattle.section_core.specs.declared.parts.Version.TheVariants as Version;
ghost use Rattle.section_text.specs.Fronts.{IsReadMemory};
ghost use Rattle.command_replies.specs.Reply.{Replies};
ghost use Rattle.pair_commands.specs.Check.{check, verdict_text};

use crate::one_pair::pair_of;
use cert_checker::{CertText, Verdict, check, parse_cert};
use command_replies::numbered_pairs;
use fku_types::limits::MAX_CHECK_BYTES;
use fku_types::{Fault, NoMemory};
use section_text::parse_objects;
use std::alloc::{AllocError, Global};
use strip_graph::Step;

fn letter(step: Step) -> &'static str
    ensures { result.now ≡ letter step ∷ [] }
{
    match step {
        Step::V => "V",
        Step::H => "H",
    }
}

fn verdict_line(
    alloc: Global,
    pair: u32,
    cost: i128,
    verdict: Verdict,
) -> Result<String, AllocError>
    ensures { IfOk result (λ s. string_bytes s ≡ verdict_text pair cost verdict) }
{
    match verdict {
        Verdict::Accept => format!(in alloc; "ACCEPT PAIR {pair} COST {cost}\n"),
        Verdict::Size => format!(in alloc; "REJECT SIZE\n"),
        Verdict::Word => format!(in alloc; "REJECT WORD\n"),
        Verdict::Cost => format!(in alloc; "REJECT COST\n"),
        Verdict::Arc { row, col, step } => {
            let step = letter(step);
            format!(in alloc; "REJECT ARC {row} {col} {step}\n")
        }
        Verdict::Turn { row } => format!(in alloc; "REJECT TURN {row}\n"),
    }
}

// The text of a verdict on a certificate.
fn verdict_text(alloc: Global, text: &CertText, verdict: Verdict) -> Result<Vec<u8>, NoMemory>
    ensures { IfOk result (λ v. v.items ≡ verdict_text text.now.pair text.now.cert.cost verdict) }
{
    let line = verdict_line(alloc, text.pair, text.cert.cost, verdict)?;
    Ok(Vec::from_slice(alloc, line.as_bytes())?)
}

/// The verdict on the certificate that follows the objects in a text of at most `MAX_CHECK_BYTES` bytes. Else the first
/// fault of the text, of its objects, of the certificate's text or of the pair that it names; or `NoMemory`. It takes
/// no solver.
pub fn verdict(alloc: Global, input: &[u8]) -> Result<Vec<u8>, Fault>
    requires { length input.now ≤ MAX_CHECK_BYTES }
    ensures reply { (solved : ℕ) → Replies (check input.now) solved solved result }
    // A fault in the first four kept lines, or the end of the text before a fourth, is reported whatever memory there
    // is.
    ensures memory { IfErr result (IsReadMemory Version.Two input.now) }
{
    let front = parse_objects(alloc, input)?;
    let pairs = numbered_pairs(alloc, &front.objects)?;
    let text = parse_cert(alloc, &input[front.used..], front.lines)?;
    let pair = pair_of(&pairs, text.pair)?;
    let verdict = check(&pair.pair, &text.cert);
    let line = verdict_text(alloc, &text, verdict)?;
    Ok(line)
}
