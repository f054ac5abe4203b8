//! A stack that is made from numbers. `tools/tests/test_limits.py` has large ones.
use crate::answers::same;
use demo_stack::demo_sections;
use section_core::print;
use std::test::Fail;

const TRIANGLE: &[u8] =
    b"SECTIONS 1\nCOST span\nPAIR overlap\nSECTION 0\nCONTOUR c0 3\n164000 -164000\n35404 106000\n-168000 -55944\nEND\n";

// The states after 7 are 1282168116, 642666333 and 712265938. Divided by 65536 they are 19564, 9806 and 10868, so the
// radii are 164, 106 and 168. The places are 0, 2666 and 5333, and the directions (1000, -1000), (334, 1000) and
// (-1000, -333).
#[test]
fn the_text_of_a_triangle(rt: HostRuntime) -> Result<(), Fail> {
    let made = demo_sections(rt.alloc(), 7, 1, 3)?;
    let text = print(rt.alloc(), &made)?;
    same(&rt, text.as_slice(), TRIANGLE);
    Ok(())
}
