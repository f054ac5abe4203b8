//! Verdicts on certificates. `tools/tests/rows/check.rows` has those on texts.
use crate::comparisons::same;
use crate::rings::squares;
use cert_checker::{Cert, Verdict, check};
use fku_types::NoMemory;
use std::alloc::Global;
use std::test::Fail;
use strip_graph::{Step, Tiling};

const V: Step = Step::V;

const H: Step = Step::H;

// The least tiling of two squares with its certificate.
fn worked(alloc: Global) -> Result<Cert, NoMemory> {
    let word = [V, H, V, H, V, H, V, H];
    let pi = [
        0, 200, 500, 700, 800, 200, 300, 500, 800, 1000, 300, 500, 600, 800, 1100, 500, 800, 800,
        900, 1100, 600, 800, 1100, 1100, 1200, 800, 900, 1100, 1400, 1400, 1100, 1100, 1200, 1400,
        1700, 1300, 1400, 1400, 1500, 1700,
    ];
    Ok(Cert {
        rows: 4,
        cols: 4,
        cost: 1200,
        tiling: Tiling {
            row: 0,
            word: word.to_vec(alloc)?,
        },
        pi: pi.to_vec(alloc)?,
    })
}

// A text has as many values as its rows and columns say, and none past the limit.
#[test]
fn certificates_that_no_text_has(rt: HostRuntime) -> Result<(), Fail> {
    let alloc = rt.alloc();
    let pair = squares(alloc)?;
    let mut cert = worked(alloc)?;
    same(&rt, check(&pair, &cert), Verdict::Accept);
    cert.cost = -1000000000000000000000000000000000001;
    same(&rt, check(&pair, &cert), Verdict::Size);
    cert.cost = 1200;
    cert.pi.push(0)?;
    same(&rt, check(&pair, &cert), Verdict::Size);
    Ok(())
}
