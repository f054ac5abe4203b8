//! The text of a certificate: what it holds, and what is printed. `tools/tests/rows/check.rows` has lines at fault.
use crate::comparisons::same;
use cert_checker::{
    CertText, parse_cert, print_cert, put_letters, put_rows, read_back, texts_have_one_reading,
};
use fku_types::Fault;
use std::alloc::Global;
use std::process::Abort;
use std::test::Fail;
use strip_graph::Step;

// The certificate of two equal squares, one above the other.
const WORKED: &[u8] =
    b"CERT 1 PAIR 1 ROWS 4 COLS 4 COST 1200 START 0\nWORD VHVHVHVH\n0 200 500 700 800\n200 300 500 800 1000\n300 500 600 800 1100\n500 800 800 900 1100\n600 800 1100 1100 1200\n800 900 1100 1400 1400\n1100 1100 1200 1400 1700\n1300 1400 1400 1500 1700\nEND\n";

fn is_worked<R: Abort>(rt: &R, read: &CertText) {
    let cert = &read.cert;
    same(rt, (read.pair, cert.rows, cert.cols), (1, 4, 4));
    same(rt, (cert.cost, cert.tiling.row), (1200, 0));
    let (v, h) = (Step::V, Step::H);
    same(rt, cert.tiling.word.as_slice(), &[v, h, v, h, v, h, v, h]);
    same(rt, cert.pi.len(), 40);
    same(rt, cert.pi.get(6).copied(), Some(300));
    same(rt, cert.pi.get(39).copied(), Some(1700));
}

// What the text reads as after this many lines.
fn told(alloc: Global, text: &[u8], lines_before: u32) -> Result<CertText, Fail> {
    if text.len() > 1000 || lines_before > 1000 {
        return Err("too long".into());
    }
    Ok(
        parse_cert(alloc, text, lines_before)
            .ok()
            .ok_or("it is read")?,
    )
}

#[test]
fn the_worked_certificate_is_read(rt: HostRuntime) -> Result<(), Fail> {
    is_worked(&rt, &told(rt.alloc(), WORKED, 16)?);
    Ok(())
}

#[test]
fn a_text_without_lines_has_its_fault_one_line_later(rt: HostRuntime) {
    let fault = parse_cert(rt.alloc(), b"", 16).err();
    assert!(rt; matches!(fault, Some(Fault::CertForm { line: 17 })));
}

// What is printed of what was read.
fn printed(alloc: Global, text: &[u8]) -> Result<Vec<u8>, Fail> {
    if text.len() > 1000000 {
        return Err("too long".into());
    }
    match parse_cert(alloc, text, 16) {
        Ok(told) => Ok(print_cert(alloc, &told)?),
        Err(_) => Err("not read".into()),
    }
}

#[test]
fn the_worked_certificate_is_printed(rt: HostRuntime) -> Result<(), Fail> {
    let printed = printed(rt.alloc(), WORKED)?;
    same(&rt, printed.as_slice(), WORKED);
    // Room for 8 letters, for 40 numbers of at most 37 digits, a minus and a blank, and for fewer than 160 other bytes.
    assert!(rt; printed.capacity() <= 160 + 8 + 40 * 39);
    Ok(())
}

#[test]
fn letters_and_rows_are_put_behind_a_text(rt: HostRuntime) -> Result<(), Fail> {
    let mut out = Vec::new(rt.alloc());
    put_letters(&mut out, &[Step::V, Step::H])?;
    put_rows(&mut out, &[0, -1, 2, 30, 4], 2, 2)?;
    same(&rt, out.as_slice(), b"VH0 -1\n2 30\n");
    Ok(())
}

// What is read back of what was read.
fn read_again(alloc: Global, text: &[u8]) -> Result<CertText, Fail> {
    if text.len() > 1000000 {
        return Err("too long".into());
    }
    let Ok(read) = parse_cert(alloc, text, 0) else {
        return Err("refused".into());
    };
    let Ok(again) = read_back(alloc, &read, 3) else {
        return Err("refused".into());
    };
    Ok(again)
}

#[test]
fn what_is_printed_reads_back(rt: HostRuntime) -> Result<(), Fail> {
    is_worked(&rt, &read_again(rt.alloc(), WORKED)?);
    texts_have_one_reading();
    Ok(())
}
