//! Texts that are read. `tools/tests/rows/tilings.rows` and `objects.rows` have those that are refused.
use crate::answers::same;
use fku_types::{CostRule, PairRule, Point};
use section_core::{Object, Sections, print, print_objects};
use section_text::{ObjectsFront, parse, parse_front, parse_objects};
use std::alloc::Global;
use std::process::Abort;
use std::test::Fail;

// Asserts that the sections have the cost rule of spans and the pair rule of overlaps, and one triangle, named `a`, at
// height 7.
fn is_one_triangle<R: Abort>(rt: &R, made: &Sections) -> Result<(), Fail> {
    assert!(rt; made.cost() == CostRule::Span);
    assert!(rt; made.rule() == PairRule::Overlap);
    same(rt, made.links().len(), 0);
    let [section] = made.sections() else {
        return Err("there is one section".into());
    };
    let [contour] = section.contours.as_slice() else {
        return Err("there is one contour".into());
    };
    same(rt, contour.name.as_bytes(), b"a");
    let third = Point { x: 0, y: 1, z: 7 };
    same(rt, contour.points.get(2), Some(&third));
    Ok(())
}

#[test]
fn the_front_ends_behind_its_end_line(rt: HostRuntime) -> Result<(), Fail> {
    let text =
        b"SECTIONS 1\nCOST span\nPAIR overlap\n\nSECTION 7\nCONTOUR a 3\n0 0\n1 0\n0 1\nEND\nCERT 1\n";
    let front = parse_front(rt.alloc(), text)
        .ok()
        .ok_or("the text has a front")?;
    same(&rt, front.used, text.len() - 7);
    same(&rt, front.lines, 10);
    is_one_triangle(&rt, &front.sections)
}

const LOOSE: &[u8] =
    b"SECTIONS 01\r\n# traced by hand\n\nCOST\tmix  07 1000\r\nPAIR links\nSECTION -0\nCONTOUR a 04\n0 0\n10 0\n10 10\n0 10\nSECTION 10\nCONTOUR b 4\n 0 0\n10  0 \n10 10\n0 10\nLINK a  b\nLINK b a\nEND\n# over";

const CANONICAL: &[u8] =
    b"SECTIONS 1\nCOST mix 7 1000\nPAIR links\nSECTION 0\nCONTOUR a 4\n0 0\n10 0\n10 10\n0 10\nSECTION 10\nCONTOUR b 4\n0 0\n10 0\n10 10\n0 10\nLINK a b\nLINK b a\nEND\n";

#[test]
fn a_loose_text_is_printed_canonically(rt: HostRuntime) -> Result<(), Fail> {
    let read = parse(rt.alloc(), LOOSE).ok().ok_or("it is read")?;
    let printed = print(rt.alloc(), &read)?;
    same(&rt, printed.as_slice(), CANONICAL);
    Ok(())
}

// Two objects: two squares one above the other, and one square.
const OBJECTS: &[u8] =
    b"SECTIONS 2\nCOST span\nPAIR overlap\nOBJECT p\nSECTION 0\nCONTOUR a 4\n0 0\n10 0\n10 10\n0 10\nSECTION 10\nCONTOUR b 4\n0 0\n10 0\n10 10\n0 10\nOBJECT q\nSECTION 0\nCONTOUR c 4\n5 5\n15 5\n15 15\n5 15\nEND\n";

// Asserts that the second of two objects is named `q` and has one section, at height 0.
fn is_second<R: Abort>(rt: &R, objects: &[Object]) -> Result<(), Fail> {
    let [first, second] = objects else {
        return Err("there are two objects".into());
    };
    same(rt, first.sections.sections().len(), 2);
    same(rt, second.name.as_bytes(), b"q");
    let [section] = second.sections.sections() else {
        return Err("there is one section".into());
    };
    same(rt, section.z, 0);
    Ok(())
}

// Asserts what the front of the two objects has, and that they are printed as they are written.
fn are_objects<R: Abort + AllocGlobal>(rt: &R, front: &ObjectsFront) -> Result<(), Fail> {
    same(rt, (front.used, front.lines), (OBJECTS.len(), 24));
    same(rt, front.objects.version(), 2);
    assert!(rt; front.objects.cost() == CostRule::Span);
    assert!(rt; front.objects.rule() == PairRule::Overlap);
    is_second(rt, front.objects.items())?;
    let printed = print_objects(rt.alloc(), &front.objects)?;
    same(rt, printed.as_slice(), OBJECTS);
    Ok(())
}

fn read_objects(alloc: Global, text: &[u8]) -> Result<ObjectsFront, Fail> {
    if text.len() > 10_000 {
        return Err("the text is short")?;
    }
    Ok(parse_objects(alloc, text).ok().ok_or("it is read")?)
}

#[test]
fn objects_tell_what_they_hold(rt: HostRuntime) -> Result<(), Fail> {
    let front = read_objects(rt.alloc(), OBJECTS)?;
    are_objects(&rt, &front)?;
    is_second(&rt, &front.objects.into_items())
}

#[test]
fn version_1_is_one_object(rt: HostRuntime) -> Result<(), Fail> {
    let front = read_objects(rt.alloc(), CANONICAL)?;
    same(&rt, front.objects.version(), 1);
    let [object] = front.objects.items() else {
        return Err("there is one object".into());
    };
    same(&rt, object.name.as_bytes(), b"object");
    Ok(())
}
