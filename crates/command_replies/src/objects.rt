//! The objects in a text, and their pairs.
ghost use Rattle.std.specs.Prelude.{◌≡◌, ◌<◌, ◌≤◌, IfOk, IfErr, OnOk, length, map, ◌++◌};
ghost use Rattle.section_core.specs.Texts.{IsTextOfFile};
ghost use Rattle.section_pairs.specs.SectionFaults.{OrNoMemory};
ghost use Rattle.surface_core.specs.Objects.{IsFoundIn, IsLateMemoryIn, numbered, pair_lists};
ghost use Rattle.section_core.specs.declared.parts.Version.TheVariants as Version;
ghost use Rattle.section_text.specs.Fronts.{IsReadMemory};
ghost use Rattle.section_pairs.specs.Pairs.{pair_parts};
ghost use Rattle.command_replies.specs.Stages.{AreNumbered, AreSeveral, IsOnly, IsTextFault};

use fku_types::limits::MAX_CHECK_BYTES;
use fku_types::{Fault, NoMemory};
use pair_pool::{OneByOne, PairSolver};
use section_core::{Objects, Sections};
use section_pairs::GapPair;
use section_text::parse_objects;
use std::alloc::Global;
use surface_core::pairs_all;
use text_io::kept_line_at;

/// The objects in a text of at most `MAX_CHECK_BYTES` bytes with no kept line after its END line. Else the text's
/// fault, or that of the first kept line after END; or `NoMemory`.
pub fn objects_in(alloc: Global, input: &[u8]) -> Result<Objects, Fault>
    requires { length input.now ≤ MAX_CHECK_BYTES }
    ensures text { IfOk result (IsTextOfFile input.now) }
    ensures fault { IfErr result (OrNoMemory (IsTextFault input.now)) }
    // A fault in the first four kept lines, or the end of the text before a fourth, is reported whatever memory there
    // is.
    ensures memory { IfErr result (IsReadMemory Version.Two input.now) }
{
    let front = parse_objects(alloc, input)?;
    match kept_line_at(input, front.used, front.lines) {
        Some(line) => Err(Fault::Form { line: line.number }),
        None => Ok(front.objects),
    }
}

/// The sections of the only object. If there are several, the fault of the first one that has a fault, else their
/// number.
pub fn only_sections<P: PairSolver>(
    alloc: Global,
    objects: Objects,
    solver: &P,
) -> Result<Sections, Fault>
    ensures only { IfOk result (IsOnly objects) }
    ensures fault { IfErr result (OrNoMemory (AreSeveral objects)) }
    // Memory is asked for several objects alone, and after the contours of the first were tested.
    ensures several { IfErr result (λ _. 1 < length objects.objects) }
    ensures memory { IfErr result (IsLateMemoryIn objects) }
{
    let count = objects.items().len();
    if count > 1 {
        pairs_all(alloc, &objects, solver)?;
        return Err(Fault::OneObject {
            objects: count as u32,
        });
    }
    let mut items = objects.into_items();
    Ok(items.pop().unwrap().sections)
}

// Appends the pairs of one object to others.
fn add_pairs(all: &mut Vec<GapPair>, pairs: Vec<GapPair>) -> Result<(), NoMemory>
    ensures { OnOk result (all.new.items ≡ all.old.items ++ pairs.items) }
{
    let mut pairs = pairs;
    all.append(&mut pairs)?;
    Ok(())
}

// The pairs of all objects in one list, object by object.
fn in_order(alloc: Global, lists: Vec<Vec<GapPair>>) -> Result<Vec<GapPair>, NoMemory>
    ensures { IfOk result (λ v. map pair_parts v.items ≡ numbered (pair_lists lists.items)) }
{
    let mut all = Vec::new(alloc);
    for list in lists {
        add_pairs(&mut all, list)?;
    }
    Ok(all)
}

/// The pairs of all objects, as they are numbered through the text; or the fault of the first object that has one; or
/// `NoMemory`.
pub fn numbered_pairs(alloc: Global, objects: &Objects) -> Result<Vec<GapPair>, Fault>
    ensures pairs { IfOk result (λ v. AreNumbered objects.now (map pair_parts v.items)) }
    ensures fault { IfErr result (OrNoMemory (IsFoundIn objects.now)) }
    // The contours of the first object were tested before memory was asked for.
    ensures memory { IfErr result (IsLateMemoryIn objects.now) }
{
    let lists = pairs_all(alloc, objects, &OneByOne::new())?;
    let all = in_order(alloc, lists)?;
    Ok(all)
}
