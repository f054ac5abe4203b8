//! The sections of a stack.
ghost use Rattle.std.specs.Prelude.{◌≡◌, ℕ, ◌+◌, ◌*◌, ◌<◌, ◌≤◌, ◌^◌, map, IfOk, OnOk};
ghost use Rattle.std.specs.List.{range_with_len};
ghost use Rattle.section_core.specs.Views.{contour_parts, section_parts};
ghost use Rattle.section_core.specs.Flat.{IsAtHeight, IsFlat, AreFlat};
ghost use Rattle.demo_stack.specs.Demo.{state_after, name, contour, section, demo};

use crate::generator::vertices_from;
use arrayvec::ArrayVec;
use fku_types::limits::{MAX_DEMO_SECTIONS, MAX_DEMO_VERTICES, MAX_NAME_BYTES};
use fku_types::{CostRule, Fault, Name, NoMemory, PairRule};
use itoa::Buffer;
use section_core::{Contour, Section, Sections};
use std::alloc::Global;

/// The sections that a seed makes: `sections` of them, each with one contour of `vertices` vertices, numbered and named
/// from 0 upwards, 1,000 apart in height, under the rules `Span` and `Overlap`. The seed is below 2 ^ 31; there are 1
/// to `MAX_DEMO_SECTIONS` sections and 3 to `MAX_DEMO_VERTICES` vertices in each. The only error is `NoMemory`.
pub fn demo_sections(
    alloc: Global,
    seed: u32,
    sections: u32,
    vertices: u32,
) -> Result<Sections, NoMemory>
    requires seed { seed < 2 ^ 31 }
    requires some_section { 1 ≤ sections }
    requires few_sections { sections ≤ MAX_DEMO_SECTIONS }
    requires enough_vertices { 3 ≤ vertices }
    requires few_vertices { vertices ≤ MAX_DEMO_VERTICES }
    ensures { IfOk result (λ s. s ≡ demo seed sections vertices) }
{
    let stack = stack(alloc, seed, sections, vertices)?;
    match Sections::make(
        alloc,
        CostRule::Span,
        PairRule::Overlap,
        stack,
        Vec::new(alloc),
    ) {
        Ok(sections) => Ok(sections),
        Err(fault) => Err(no_memory(fault)),
    }
}

// A stack is refused only if memory runs out.
fn no_memory(fault: Fault) -> NoMemory
    requires { fault ≡ Fault.NoMemory }
{
    match fault {
        Fault::NoMemory => NoMemory,
        _ => unreachable!(),
    }
}

// The sections in order.
fn stack(alloc: Global, seed: u32, sections: u32, vertices: u32) -> Result<Vec<Section>, NoMemory>
    requires seed { seed < 2 ^ 31 }
    requires few_sections { sections ≤ MAX_DEMO_SECTIONS }
    requires few_vertices { vertices ≤ MAX_DEMO_VERTICES }
    ensures parts { IfOk result (λ v.
        map section_parts v.items ≡ map (section seed vertices) (range_with_len 0 sections)) }
    ensures flat { IfOk result (λ v. AreFlat v.items) }
{
    let mut state = seed;
    let mut stack = Vec::with_capacity(alloc, sections as usize)?;
    for index in 0..sections {
        stack.push(section(alloc, &mut state, index, vertices)?)?;
    }
    Ok(stack)
}

// The section of an index; the state goes on by one step for each of its vertices.
fn section(alloc: Global, state: &mut u32, index: u32, vertices: u32) -> Result<Section, NoMemory>
    requires state { state.old < 2 ^ 31 }
    requires few_sections { index < MAX_DEMO_SECTIONS }
    requires few_vertices { vertices ≤ MAX_DEMO_VERTICES }
    ensures parts { (seed : ℕ) → state.old ≡ state_after seed (index * vertices)
        → IfOk result (λ s. section_parts s ≡ section seed vertices index) }
    ensures flat { IfOk result (λ s. IsFlat s) }
    ensures state { (seed : ℕ) → state.old ≡ state_after seed (index * vertices)
        → OnOk result (state.new ≡ state_after seed ((index + 1) * vertices)) }
    ensures range { state.new < 2 ^ 31 }
{
    let z = 1000 * index as i32;
    let contour = contour(alloc, state, index, vertices, z)?;
    Ok(Section {
        z,
        contours: vec![in alloc; contour]?,
    })
}

// The contour of a section, at a height.
fn contour(
    alloc: Global,
    state: &mut u32,
    index: u32,
    vertices: u32,
    z: i32,
) -> Result<Contour, NoMemory>
    requires state { state.old < 2 ^ 31 }
    requires few_sections { index < MAX_DEMO_SECTIONS }
    requires few_vertices { vertices ≤ MAX_DEMO_VERTICES }
    ensures parts { (seed : ℕ) → state.old ≡ state_after seed (index * vertices)
        → IfOk result (λ c. contour_parts c ≡ contour seed vertices index) }
    ensures level { IfOk result (IsAtHeight z) }
    ensures state { (seed : ℕ) → state.old ≡ state_after seed (index * vertices)
        → OnOk result (state.new ≡ state_after seed ((index + 1) * vertices)) }
    ensures range { state.new < 2 ^ 31 }
{
    let points = vertices_from(alloc, state, vertices, z)?;
    Ok(Contour {
        name: name(index),
        points,
    })
}

// The name of the contour of a section.
fn name(index: u32) -> Name
    requires { index < MAX_DEMO_SECTIONS }
    ensures { result ≡ name index }
{
    Name::of(&name_text(index)).unwrap()
}

fn name_text(index: u32) -> ArrayVec<u8, MAX_NAME_BYTES>
    requires { index < MAX_DEMO_SECTIONS }
    ensures { result.items ≡ name index }
{
    let mut buffer = Buffer::new();
    let mut text = ArrayVec::new();
    text.push(b'c');
    text.try_extend_from_slice(buffer.format(index).as_bytes())
        .unwrap();
    text
}
