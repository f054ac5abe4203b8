//! Texts, and longer ones that are made.
use fku_types::NoMemory;
use std::alloc::Global;

/// Two equal squares, one 10 above the other.
pub(crate) const TWO_SQUARES: &str = "SECTIONS 1\nCOST span\nPAIR overlap\n\
    SECTION 0\nCONTOUR a 4\n0 0\n10 0\n10 10\n0 10\n\
    SECTION 10\nCONTOUR b 4\n0 0\n10 0\n10 10\n0 10\nEND\n";

/// Three squares, one above another.
pub(crate) const THREE_SQUARES: &str = "SECTIONS 1\nCOST span\nPAIR overlap\n\
    SECTION 0\nCONTOUR a 4\n0 0\n10 0\n10 10\n0 10\n\
    SECTION 10\nCONTOUR b 4\n0 0\n10 0\n10 10\n0 10\n\
    SECTION 20\nCONTOUR c 4\n0 0\n10 0\n10 10\n0 10\nEND\n";

/// What `tilings` writes of the two squares.
pub(crate) const TILED: &str =
    "PAIR 1 GAP 1\nBELOW a\nABOVE b\nROWS 4 COLS 4 COST 1200 START 0\nWORD VHVHVHVH\nPAIRS 1\n";

/// What `reconstruct` writes of them.
pub(crate) const BOX: &str = "       1       8      12      36
       1      12
 0.00000E+00 0.00000E+00 0.00000E+00 1.00000E+01 0.00000E+00 0.00000E+00
 1.00000E+01 1.00000E+01 0.00000E+00 0.00000E+00 1.00000E+01 0.00000E+00
 0.00000E+00 0.00000E+00 1.00000E+01 1.00000E+01 0.00000E+00 1.00000E+01
 1.00000E+01 1.00000E+01 1.00000E+01 0.00000E+00 1.00000E+01 1.00000E+01
       4       2      -1
       2       4      -3
       1       2      -5
       6       5      -2
       2       3      -6
       7       6      -3
       3       4      -7
       8       7      -4
       4       1      -8
       5       8      -1
       8       5      -6
       6       7      -8
";

/// An outline with a hole, twice.
pub(crate) const TUBES: &str = "SECTIONS 1\nCOST span\nPAIR overlap\n\
    SECTION 0\nCONTOUR o0 4\n0 0\n30 0\n30 30\n0 30\nCONTOUR h0 4\n10 10\n20 10\n20 20\n10 20\n\
    SECTION 10\nCONTOUR o1 4\n0 0\n30 0\n30 30\n0 30\nCONTOUR h1 4\n10 10\n20 10\n20 20\n10 20\nEND\n";

/// An outline with a hole.
pub(crate) const RING: &str = "SECTIONS 1\nCOST span\nPAIR overlap\n\
    SECTION 0\nCONTOUR o 4\n0 0\n30 0\n30 30\n0 30\nCONTOUR h 4\n10 10\n20 10\n20 20\n10 20\nEND\n";

/// An object of two squares, one above the other, and an object of a third square.
pub(crate) const TWO_OBJECTS: &str = "SECTIONS 2\nCOST span\nPAIR overlap\nOBJECT p\n\
    SECTION 0\nCONTOUR a 4\n0 0\n10 0\n10 10\n0 10\n\
    SECTION 10\nCONTOUR b 4\n0 0\n10 0\n10 10\n0 10\nOBJECT q\n\
    SECTION 0\nCONTOUR c 4\n5 5\n15 5\n15 15\n5 15\nEND\n";

/// The two squares as the one object of a text of version 2.
pub(crate) const ONE_OBJECT: &str = "SECTIONS 2\nCOST span\nPAIR overlap\nOBJECT body\n\
    SECTION 0\nCONTOUR a 4\n0 0\n10 0\n10 10\n0 10\n\
    SECTION 10\nCONTOUR b 4\n0 0\n10 0\n10 10\n0 10\nEND\n";

/// Two objects, of which the second crosses itself.
pub(crate) const CROSSED_OBJECT: &str = "SECTIONS 2\nCOST span\nPAIR overlap\nOBJECT p\n\
    SECTION 0\nCONTOUR a 4\n0 0\n10 0\n10 10\n0 10\n\
    SECTION 10\nCONTOUR b 4\n0 0\n10 0\n10 10\n0 10\n\
    OBJECT q\nSECTION 0\nCONTOUR c 4\n0 0\n10 10\n10 0\n0 10\nEND\n";

/// A contour that crosses itself.
pub(crate) const CROSSED: &str =
    "SECTIONS 1\nCOST span\nPAIR overlap\nSECTION 0\nCONTOUR c 4\n0 0\n10 10\n10 0\n0 10\nEND\n";

/// The certificate of the pair of the two squares.
pub(crate) const CERTIFICATE: &str =
    "CERT 1 PAIR 1 ROWS 4 COLS 4 COST 1200 START 0\nWORD VHVHVHVH\n\
    0 200 500 700 800\n200 300 500 800 1000\n300 500 600 800 1100\n500 800 800 900 1100\n\
    600 800 1100 1100 1200\n800 900 1100 1400 1400\n1100 1100 1200 1400 1700\n\
    1300 1400 1400 1500 1700\nEND\n";

/// Texts one after another.
pub(crate) fn joined(alloc: Global, pieces: &[&str]) -> Result<Vec<u8>, NoMemory> {
    let mut text = Vec::new(alloc);
    for piece in pieces {
        text.extend_from_slice(piece.as_bytes())?;
    }
    Ok(text)
}

/// A text, and then so many equal lines.
pub(crate) fn with_lines(
    alloc: Global,
    text: &str,
    line: &str,
    count: u32,
) -> Result<Vec<u8>, NoMemory> {
    let mut whole = joined(alloc, &[text])?;
    for _ in 0..count {
        whole.extend_from_slice(line.as_bytes())?;
    }
    Ok(whole)
}

/// This many squares, one above another and this far apart, named `s0` and on, and lines that follow.
pub(crate) fn stack(
    alloc: Global,
    count: u32,
    apart: u32,
    more: &str,
) -> Result<Vec<u8>, NoMemory> {
    let mut text = joined(alloc, &["SECTIONS 1\nCOST span\nPAIR overlap\n"])?;
    for i in 0..count {
        let z = i.wrapping_mul(apart);
        let section = format!(in alloc; "SECTION {z}\nCONTOUR s{i} 4\n0 0\n10 0\n10 10\n0 10\n")?;
        text.extend_from_slice(section.as_bytes())?;
    }
    text.extend_from_slice(b"END\n")?;
    text.extend_from_slice(more.as_bytes())?;
    Ok(text)
}

// A flat contour of this many vertices, this far apart, to the right: along a line at this height, and two above its
// ends.
fn put_flat(
    alloc: Global,
    text: &mut Vec<u8>,
    name: &str,
    count: u32,
    apart: u32,
    low: u32,
    high: u32,
) -> Result<(), NoMemory> {
    let head = format!(in alloc; "CONTOUR {name} {count}\n")?;
    text.extend_from_slice(head.as_bytes())?;
    for place in 100..count.wrapping_add(98) {
        let x = apart.wrapping_mul(place);
        let line = format!(in alloc; "{x} {low}\n")?;
        text.extend_from_slice(line.as_bytes())?;
    }
    let left = apart.wrapping_mul(100);
    let right = apart.wrapping_mul(count.wrapping_add(97));
    let ends = format!(in alloc; "{right} {high}\n{left} {high}\n")?;
    text.extend_from_slice(ends.as_bytes())?;
    Ok(())
}

/// A contour with a small hole, and above it one with a hole so long that a cap round it has too many vertices; the
/// outlines are joined.
pub(crate) fn long_ring(alloc: Global) -> Result<Vec<u8>, NoMemory> {
    let mut text = joined(
        alloc,
        &[
            "SECTIONS 1\nCOST span\nPAIR links\nSECTION 0\nCONTOUR p 4\n90 0\n990 0\n990 40\n90 40\n",
            "SECTION 10\nCONTOUR q 4\n90 0\n3990 0\n3990 40\n90 40\n",
        ],
    )?;
    put_flat(alloc, &mut text, "h", 3300, 1, 10, 15)?;
    put_flat(alloc, &mut text, "g", 800, 1, 20, 25)?;
    text.extend_from_slice(b"LINK p q\nEND\n")?;
    Ok(text)
}

/// Two long contours, one above the other, whose middle contour has too many vertices.
pub(crate) fn long_pair(alloc: Global) -> Result<Vec<u8>, NoMemory> {
    let mut text = joined(alloc, &["SECTIONS 1\nCOST span\nPAIR overlap\nSECTION 0\n"])?;
    put_flat(alloc, &mut text, "a", 2100, 2, 10, 15)?;
    text.extend_from_slice(b"SECTION 2\n")?;
    put_flat(alloc, &mut text, "b", 2100, 2, 10, 15)?;
    text.extend_from_slice(b"END\n")?;
    Ok(text)
}
