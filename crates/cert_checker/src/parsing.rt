//! The text of a certificate, line after line.
ghost use Rattle.std.specs.Prelude.{◌≡◌, ℕ, ◌≤◌, ◌+◌, ◌-◌, ◌*◌, ◌<◌, ◌^◌, [], ◌∷◌, drop, length, All, IfOk, IfErr, OnOk};
ghost use Rattle.text_io.specs.Text.{lines};
ghost use Rattle.strip_graph.specs.Certificates.{IsModest};
ghost use Rattle.fku_types.specs.declared.fault.Fault.TheVariants.{CertForm, NoMemory};
ghost use Rattle.cert_checker.specs.CertTexts.{CertParts, IsHead, IsWord, head_line, certificate_parts};
ghost use Rattle.text_io.specs.Formats.{kept_behind, last_line, HasRead};
ghost use Rattle.cert_checker.specs.CertReading.{ReadsAsCertificate, HasCertificateFault, IsCertMemory, IsCertificateFault, ReadsBackCertificate, TellsCertificateFault};
ghost use Rattle.cert_checker.specs.LineSteps.{head_parts, first_lines};

use crate::certs::{Cert, CertText};
use crate::reading::{Head, is_end, read_head, read_row, read_word};
use fku_types::Fault;
use std::alloc::Global;
use strip_graph::{Step, Tiling};
use text_io::{kept_line_at, line_count};

// How far a text was read: the byte at which the next line begins, and the number of the line before it.
#[derive(Clone, Copy)]
struct Place {
    at: usize,
    number: u32,
}

// The fault of a text that ends after a place.
fn stopped(bytes: &[u8], place: Place) -> Fault
    requires at { place.at ≤ length bytes.now }
    requires few { place.number + length bytes.now < 2 ^ 32 - 1 + place.at }
    ensures { result ≡ CertForm (place.number + length (lines (drop place.at bytes.now)) + 1) }
{
    let line = place.number + line_count(bytes, place.at) as u32 + 1;
    Fault::CertForm { line }
}

// The first line of a certificate's text, which follows `lines_before` lines.
fn parse_head(bytes: &[u8], lines_before: u32) -> Result<(Head, Place), Fault>
    requires few { lines_before + length bytes.now < 2 ^ 32 - 1 }
    ensures ok { IfOk result (λ r.
        IsHead (head_parts r.0)
        × HasRead lines_before bytes.now r.1.at r.1.number (head_line (head_parts r.0) ∷ [])) }
    ensures fault { IfErr result (IsCertificateFault (kept_behind lines_before bytes.now)
        (last_line lines_before bytes.now)) }
    ensures sure { IfErr result (λ f. f ≡ NoMemory → ⊥) }
{
    let Some(line) = kept_line_at(bytes, 0, lines_before) else {
        let place = Place {
            at: 0,
            number: lines_before,
        };
        return Err(stopped(bytes, place));
    };
    let Some(head) = read_head(&bytes[line.first..line.end]) else {
        return Err(Fault::CertForm { line: line.number });
    };
    let place = Place {
        at: line.next,
        number: line.number,
    };
    Ok((head, place))
}

// The second line, after the first one.
fn parse_word(
    alloc: Global,
    bytes: &[u8],
    lines_before: u32,
    head: Head,
    place: Place,
) -> Result<(Vec<Step>, Place), Fault>
    requires few { lines_before + length bytes.now < 2 ^ 32 - 1 }
    requires head { IsHead (head_parts head) }
    requires read { HasRead lines_before bytes.now place.at place.number (head_line (head_parts head) ∷ []) }
    ensures ok { IfOk result (λ r.
        IsWord r.0.items
        × HasRead lines_before bytes.now r.1.at r.1.number (first_lines (head_parts head) r.0.items 0 [])) }
    ensures fault { IfErr result (IsCertificateFault (kept_behind lines_before bytes.now)
        (last_line lines_before bytes.now)) }
{
    let Some(line) = kept_line_at(bytes, place.at, place.number) else {
        return Err(stopped(bytes, place));
    };
    let Some(word) = read_word(alloc, &bytes[line.first..line.end])? else {
        return Err(Fault::CertForm { line: line.number });
    };
    let place = Place {
        at: line.next,
        number: line.number,
    };
    Ok((word, place))
}

// One more row.
fn parse_row(
    values: &mut Vec<i128>,
    bytes: &[u8],
    lines_before: u32,
    head: Head,
    word: &[Step],
    row: usize,
    place: Place,
) -> Result<Place, Fault>
    requires few { lines_before + length bytes.now < 2 ^ 32 - 1 }
    requires head { IsHead (head_parts head) }
    requires word { IsWord word.now }
    requires row { row < 2 * head.rows }
    requires count { length values.old.items ≡ row * (head.cols + 1) }
    requires modest { All IsModest values.old.items }
    requires read { HasRead lines_before bytes.now place.at place.number
        (first_lines (head_parts head) word.now row values.old.items) }
    ensures count { OnOk result (length values.new.items ≡ (row + 1) * (head.cols + 1)) }
    ensures modest { OnOk result (All IsModest values.new.items) }
    ensures ok { IfOk result (λ p.
        HasRead lines_before bytes.now p.at p.number
        (first_lines (head_parts head) word.now (row + 1) values.new.items)) }
    ensures fault { IfErr result (IsCertificateFault (kept_behind lines_before bytes.now)
        (last_line lines_before bytes.now)) }
{
    let Some(line) = kept_line_at(bytes, place.at, place.number) else {
        return Err(stopped(bytes, place));
    };
    if !read_row(values, &bytes[line.first..line.end], head.cols as usize + 1)? {
        return Err(Fault::CertForm { line: line.number });
    }
    Ok(Place {
        at: line.next,
        number: line.number,
    })
}

// All rows.
fn parse_rows(
    alloc: Global,
    bytes: &[u8],
    lines_before: u32,
    head: Head,
    word: &[Step],
    place: Place,
) -> Result<(Vec<i128>, Place), Fault>
    requires few { lines_before + length bytes.now < 2 ^ 32 - 1 }
    requires head { IsHead (head_parts head) }
    requires word { IsWord word.now }
    requires read { HasRead lines_before bytes.now place.at place.number (first_lines (head_parts head) word.now 0 []) }
    ensures count { IfOk result (λ r. length r.0.items ≡ 2 * head.rows * (head.cols + 1)) }
    ensures modest { IfOk result (λ r. All IsModest r.0.items) }
    ensures ok { IfOk result (λ r.
        HasRead lines_before bytes.now r.1.at r.1.number
        (first_lines (head_parts head) word.now (2 * head.rows) r.0.items)) }
    ensures fault { IfErr result (IsCertificateFault (kept_behind lines_before bytes.now)
        (last_line lines_before bytes.now)) }
{
    let rows = 2 * head.rows as usize;
    let mut values = Vec::with_capacity(alloc, rows * (head.cols as usize + 1))?;
    let mut place = place;
    for row in 0..rows {
        place = parse_row(&mut values, bytes, lines_before, head, word, row, place)?;
    }
    Ok((values, place))
}

// The last line, and that no kept line follows it.
fn parse_end(
    bytes: &[u8],
    lines_before: u32,
    head: Head,
    word: &[Step],
    values: &[i128],
    place: Place,
) -> Result<(), Fault>
    requires few { lines_before + length bytes.now < 2 ^ 32 - 1 }
    requires head { IsHead (head_parts head) }
    requires word { IsWord word.now }
    requires count { length values.now ≡ 2 * head.rows * (head.cols + 1) }
    requires modest { All IsModest values.now }
    requires read { HasRead lines_before bytes.now place.at place.number
        (first_lines (head_parts head) word.now (2 * head.rows) values.now) }
    ensures ok { OnOk result
        (ReadsAsCertificate (kept_behind lines_before bytes.now)
        (record { head = head_parts head; word = word.now; values = values.now })) }
    ensures fault { IfErr result (IsCertificateFault (kept_behind lines_before bytes.now)
        (last_line lines_before bytes.now)) }
    ensures sure { IfErr result (λ f. f ≡ NoMemory → ⊥) }
{
    let Some(line) = kept_line_at(bytes, place.at, place.number) else {
        return Err(stopped(bytes, place));
    };
    if !is_end(&bytes[line.first..line.end]) {
        return Err(Fault::CertForm { line: line.number });
    }
    match kept_line_at(bytes, line.next, line.number) {
        None => Ok(()),
        Some(other) => Err(Fault::CertForm { line: other.number }),
    }
}

fn parse_text(alloc: Global, bytes: &[u8], lines_before: u32) -> Result<CertText, Fault>
    requires few { lines_before + length bytes.now < 2 ^ 32 - 1 }
    ensures found { IfOk result (λ t. ReadsAsCertificate (kept_behind lines_before bytes.now) (certificate_parts t)) }
    ensures fault { IfErr result (IsCertificateFault (kept_behind lines_before bytes.now)
        (last_line lines_before bytes.now)) }
    ensures memory { IfErr result (IsCertMemory (kept_behind lines_before bytes.now)) }
{
    let (head, place) = parse_head(bytes, lines_before)?;
    let (word, place) = parse_word(alloc, bytes, lines_before, head, place)?;
    let (pi, place) = parse_rows(alloc, bytes, lines_before, head, &word, place)?;
    parse_end(bytes, lines_before, head, &word, &pi, place)?;
    let cert = Cert {
        rows: head.rows,
        cols: head.cols,
        cost: head.cost,
        tiling: Tiling {
            row: head.start,
            word,
        },
        pi,
    };
    Ok(CertText {
        pair: head.pair,
        cert,
    })
}

/// The certificate of a text. A text of none gives `CertForm` with a line: the first kept line, neither empty nor a
/// comment, such that no certificate's text begins with the lines up to it; or one past the last line if the text stops
/// too soon. Lines are counted from 1 over the whole input, where `lines_before` lines come before the text. Or
/// `NoMemory`. `docs/formats.md` has the layout and the ranges of the numbers.
pub fn parse_cert(alloc: Global, bytes: &[u8], lines_before: u32) -> Result<CertText, Fault>
    // So even the number after that of the last line has 32 bits.
    requires few { lines_before + length bytes.now < 2 ^ 32 - 1 }
    // The text reads as this certificate.
    ensures found { IfOk result (λ t. ReadsAsCertificate (kept_behind lines_before bytes.now) (certificate_parts t)) }
    // The text has this fault, or memory ran out.
    ensures fault { IfErr result (IsCertificateFault (kept_behind lines_before bytes.now)
        (last_line lines_before bytes.now)) }
    // A fault in the first line is reported whatever memory there is. The word and the rows are kept while they are
    // read, so memory may run out before the line of the fault is seen.
    ensures memory { IfErr result (IsCertMemory (kept_behind lines_before bytes.now)) }
    // A text that reads as a certificate gives it, unless memory runs out.
    ensures given { (C : CertParts) → ReadsAsCertificate (kept_behind lines_before bytes.now) C
        → ReadsBackCertificate C result }
    // A text with a fault gives this fault, unless memory runs out.
    ensures told { (n : ℕ) → HasCertificateFault (kept_behind lines_before bytes.now) (last_line lines_before bytes.now)
        n
        → TellsCertificateFault n result }
{
    parse_text(alloc, bytes, lines_before)
}
