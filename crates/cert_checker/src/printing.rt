//! The canonical text of a certificate.
ghost use Rattle.std.specs.Prelude.{◌≡◌, ℕ, ◌≤◌, ◌+◌, ◌*◌, ◌++◌, length, map, codes, decimal, IfOk, OnOk};
ghost use Rattle.std.specs.List.{flat_map};
ghost use Rattle.std.specs.Fmt.{signed_decimal};
ghost use Rattle.text_io.specs.WordLists.{line_text};
ghost use Rattle.cert_checker.specs.CertTexts.{IsLawfulCertificate, letter, head_line, word_line, row_line, rows_in, cert_text, certificate_parts};
ghost use Rattle.text_io.specs.Formats.{kept_behind};
ghost use Rattle.cert_checker.specs.CertReading.{ReadsAsCertificate};
ghost use Rattle.cert_checker.specs.LineSteps.{after_blank};

use crate::certs::CertText;
use fku_types::NoMemory;
use fku_types::limits::MAX_CHECK_BYTES;
use std::alloc::{AllocError, Global};
use strip_graph::Step;
use text_io::{put, put_count, put_long, written_lines_are_read};

// Some words, and a count after them.
fn put_labelled(out: &mut Vec<u8>, label: &[u8], count: u32) -> Result<(), AllocError>
    ensures { OnOk result (out.new.items ≡ out.old.items ++ (label.now ++ decimal count)) }
{
    put(out, label)?;
    put_count(out, count as usize)
}

// The first line up to the number of columns.
fn put_sizes(out: &mut Vec<u8>, text: &CertText) -> Result<(), AllocError>
    ensures { OnOk result
        (out.new.items
        ≡ out.old.items
        ++ (codes "CERT 1 PAIR "
        ++ (decimal text.now.pair
        ++ (codes " ROWS "
        ++ (decimal text.now.cert.rows ++ (codes " COLS " ++ decimal text.now.cert.cols)))))) }
{
    put_labelled(out, b"CERT 1 PAIR ", text.pair)?;
    put_labelled(out, b" ROWS ", text.cert.rows)?;
    put_labelled(out, b" COLS ", text.cert.cols)
}

// The first line from the number of columns on.
fn put_start(out: &mut Vec<u8>, text: &CertText) -> Result<(), AllocError>
    ensures { OnOk result
        (out.new.items
        ≡ out.old.items
        ++ (codes " COST "
        ++ (signed_decimal text.now.cert.cost
        ++ (codes " START " ++ (decimal text.now.cert.tiling.row ++ codes "\n"))))) }
{
    put(out, b" COST ")?;
    put_long(out, &text.cert.cost)?;
    put_labelled(out, b" START ", text.cert.tiling.row)?;
    put(out, b"\n")
}

fn put_head(out: &mut Vec<u8>, text: &CertText) -> Result<(), AllocError>
    ensures { OnOk result (out.new.items ≡ out.old.items ++ line_text (head_line (certificate_parts text.now).head)) }
{
    put_sizes(out, text)?;
    put_start(out, text)
}

fn letter(step: Step) -> u8
    ensures { result ≡ letter step }
{
    match step {
        Step::V => b'V',
        Step::H => b'H',
    }
}

/// Appends the letters of a word to a text, V or H for each step. After `AllocError` some of them may have been
/// appended.
pub fn put_letters(out: &mut Vec<u8>, word: &[Step]) -> Result<(), AllocError>
    ensures { OnOk result (out.new.items ≡ out.old.items ++ map letter word.now) }
{
    for step in word {
        out.push(letter(*step))?;
    }
    Ok(())
}

fn put_word(out: &mut Vec<u8>, word: &[Step]) -> Result<(), AllocError>
    ensures { OnOk result (out.new.items ≡ out.old.items ++ line_text (word_line word.now)) }
{
    put(out, b"WORD ")?;
    put_letters(out, word)?;
    put(out, b"\n")
}

// Numbers with a blank before each.
fn put_more(out: &mut Vec<u8>, values: &[i128]) -> Result<(), AllocError>
    ensures { OnOk result (out.new.items ≡ out.old.items ++ flat_map after_blank values.now) }
{
    for value in values {
        out.push(b' ')?;
        put_long(out, value)?;
    }
    Ok(())
}

fn put_row(out: &mut Vec<u8>, row: &[i128]) -> Result<(), AllocError>
    ensures { OnOk result (out.new.items ≡ out.old.items ++ line_text (row_line row.now)) }
{
    let Some((first, more)) = row.split_first() else {
        return put(out, b"\n");
    };
    put_long(out, first)?;
    put_more(out, more)?;
    put(out, b"\n")
}

/// Appends the first `rows` rows of this width to a text: a line for each, one blank between numbers. The list has all
/// numbers of these rows, row after row. After `AllocError` some of it may have been appended.
pub fn put_rows(
    out: &mut Vec<u8>,
    values: &[i128],
    width: usize,
    rows: usize,
) -> Result<(), AllocError>
    requires { rows * width ≤ length values.now }
    ensures { OnOk result
        (out.new.items ≡ out.old.items ++ flat_map line_text (map row_line (rows_in width rows values.now))) }
{
    for row in 0..rows {
        let start = row * width;
        put_row(out, &values[start..start + width])?;
    }
    Ok(())
}

// Enough bytes for a text: a number takes at most 37 digits, a minus and a blank.
fn room(text: &CertText) -> usize
    requires { IsLawfulCertificate (certificate_parts text.now) }
    ensures { result ≡ 160 + length text.now.cert.tiling.word.items + 39 * length text.now.cert.pi.items }
{
    160 + text.cert.tiling.word.len() + 39 * text.cert.pi.len()
}

// All lines.
fn put_cert(out: &mut Vec<u8>, text: &CertText) -> Result<(), AllocError>
    requires { IsLawfulCertificate (certificate_parts text.now) }
    ensures { OnOk result (out.new.items ≡ out.old.items ++ cert_text (certificate_parts text.now)) }
{
    let cert = &text.cert;
    let (width, rows) = (cert.cols as usize + 1, 2 * cert.rows as usize);
    put_head(out, text)?;
    put_word(out, &cert.tiling.word)?;
    put_rows(out, &cert.pi, width, rows)?;
    put(out, b"END\n")
}

/// The canonical text of a lawful certificate: one blank between words, a line feed after every line, no leading zeros
/// and no `-0`; or `NoMemory`. `docs/formats.md` has the layout.
pub fn print_cert(alloc: Global, text: &CertText) -> Result<Vec<u8>, NoMemory>
    requires { IsLawfulCertificate (certificate_parts text.now) }
    // The bytes are the canonical text.
    ensures canonical { IfOk result (λ v. v.items ≡ cert_text (certificate_parts text.now)) }
    // This text reads as the same certificate, after any number of lines.
    ensures law { IfOk result (λ v. (passed : ℕ)
        → ReadsAsCertificate (kept_behind passed v.items) (certificate_parts text.now)) }
    // It is short enough to be read.
    ensures short { IfOk result (λ v. length v.items ≤ MAX_CHECK_BYTES) }
{
    written_lines_are_read();
    let mut out = Vec::with_capacity(alloc, room(text))?;
    put_cert(&mut out, text)?;
    Ok(out)
}
