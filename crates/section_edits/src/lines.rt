//! Lines that stand for edits.
ghost use Rattle.std.specs.Prelude.{◌≡◌, ◌∷◌, Some, codes, length, IfOk, IfErr, MatchOption};
ghost use Rattle.text_io.specs.Text.{words, number_of};
ghost use Rattle.section_edits.specs.declared.edit.EditFault.TheVariants as edit_faults;
ghost use Rattle.section_edits.specs.Lines.{InRange, ReadsAsEdit, IsLineFault};
ghost use Rattle.section_edits.specs.Reading.{IsReading, NoCoordinate, NoVertex, IsVertexOf, NoSpot, IsSpotOf, NoSpots, AreSpots};

use crate::edit::{Edit, EditFault, Spots};
use fku_types::{Name, NoMemory, Spot};
use section_core::coordinate;
use std::alloc::Global;
use text_io::{read_number, split_count, split_word};

// The coordinate or height that a word says.
fn coordinate_of(word: &[u8]) -> Option<i32>
    ensures { MatchOption result (NoCoordinate word.now) (λ z. (number_of word.now ≡ Some z) × InRange z) }
{
    match read_number(word) {
        Some(number) => coordinate(number),
        None => None,
    }
}

/// A vertex by its contour and index, and a place.
#[derive(Drop)]
pub struct Vertex {
    pub name: Name,
    pub index: u32,
    pub x: i32,
    pub y: i32,
}

fn vertex_of(line: &[u8]) -> Option<Vertex>
    ensures { MatchOption result (NoVertex (words line.now)) (IsVertexOf (words line.now)) }
{
    let Some((name, line)) = split_word(line) else {
        return None;
    };
    let Some((index, line)) = split_count(line, 0, u32::MAX) else {
        return None;
    };
    let Some((x, line)) = split_word(line) else {
        return None;
    };
    let Some((y, line)) = split_word(line) else {
        return None;
    };
    let None = split_word(line) else {
        return None;
    };
    let Some(name) = Name::of(name) else {
        return None;
    };
    let Some(x) = coordinate_of(x) else {
        return None;
    };
    let Some(y) = coordinate_of(y) else {
        return None;
    };
    Some(Vertex { name, index, x, y })
}

fn move_of(line: &[u8]) -> Result<Edit, EditFault>
    ensures reading { IsReading (codes "MOVE" ∷ words line.now) result }
    ensures sure { IfErr result (λ f. f ≡ edit_faults.NoMemory → ⊥) }
{
    match vertex_of(line) {
        Some(Vertex { name, index, x, y }) => Ok(Edit::Move { name, index, x, y }),
        None => Err(EditFault::EditForm),
    }
}

fn insert_of(line: &[u8]) -> Result<Edit, EditFault>
    ensures reading { IsReading (codes "INSERT" ∷ words line.now) result }
    ensures sure { IfErr result (λ f. f ≡ edit_faults.NoMemory → ⊥) }
{
    match vertex_of(line) {
        Some(Vertex { name, index, x, y }) => Ok(Edit::Insert { name, index, x, y }),
        None => Err(EditFault::EditForm),
    }
}

fn remove_of(line: &[u8]) -> Result<Edit, EditFault>
    ensures reading { IsReading (codes "REMOVE" ∷ words line.now) result }
    ensures sure { IfErr result (λ f. f ≡ edit_faults.NoMemory → ⊥) }
{
    let Some((name, line)) = split_word(line) else {
        return Err(EditFault::EditForm);
    };
    let Some((index, line)) = split_count(line, 0, u32::MAX) else {
        return Err(EditFault::EditForm);
    };
    let None = split_word(line) else {
        return Err(EditFault::EditForm);
    };
    match Name::of(name) {
        Some(name) => Ok(Edit::Remove { name, index }),
        None => Err(EditFault::EditForm),
    }
}

fn drop_of(line: &[u8]) -> Result<Edit, EditFault>
    ensures reading { IsReading (codes "DROP" ∷ words line.now) result }
    ensures sure { IfErr result (λ f. f ≡ edit_faults.NoMemory → ⊥) }
{
    let Some((name, line)) = split_word(line) else {
        return Err(EditFault::EditForm);
    };
    let None = split_word(line) else {
        return Err(EditFault::EditForm);
    };
    match Name::of(name) {
        Some(name) => Ok(Edit::RemoveContour { name }),
        None => Err(EditFault::EditForm),
    }
}

fn spot_of(x: &[u8], y: &[u8]) -> Option<Spot>
    ensures { MatchOption result (NoSpot x.now y.now) (IsSpotOf x.now y.now) }
{
    match (coordinate_of(x), coordinate_of(y)) {
        (Some(x), Some(y)) => Some(Spot { x, y }),
        _ => None,
    }
}

// So many places, two words each; none for any other words.
fn spots_of(alloc: Global, line: &[u8], count: u32) -> Result<Option<Vec<Spot>>, NoMemory>
    ensures { IfOk result (λ o.
        MatchOption o (NoSpots count (words line.now)) (λ v.
        (length v.items ≡ count) × AreSpots (words line.now) v.items)) }
{
    let mut spots = Vec::new(alloc);
    let mut rest = line;
    for _done in 0..count {
        let Some((x, more)) = split_word(rest) else {
            return Ok(None);
        };
        let Some((y, more)) = split_word(more) else {
            return Ok(None);
        };
        let Some(spot) = spot_of(x, y) else {
            return Ok(None);
        };
        spots.push(spot)?;
        rest = more;
    }
    match split_word(rest) {
        Some(_) => Ok(None),
        None => Ok(Some(spots)),
    }
}

fn add_of(alloc: Global, line: &[u8]) -> Result<Edit, EditFault>
    ensures { IsReading (codes "ADD" ∷ words line.now) result }
{
    let Some((z, line)) = split_word(line) else {
        return Err(EditFault::EditForm);
    };
    let Some((name, line)) = split_word(line) else {
        return Err(EditFault::EditForm);
    };
    let Some((count, line)) = split_count(line, 0, u32::MAX) else {
        return Err(EditFault::EditForm);
    };
    let Some(z) = coordinate_of(z) else {
        return Err(EditFault::EditForm);
    };
    let Some(points) = spots_of(alloc, line, count)? else {
        return Err(EditFault::EditForm);
    };
    match Name::of(name) {
        Some(name) => {
            let points = Spots::new(points);
            Ok(Edit::AddContour { z, name, points })
        }
        None => Err(EditFault::EditForm),
    }
}

/// The edit that a line stands for: `MOVE name i x y`, `INSERT name i x y`, `REMOVE name i`, `ADD z name k x y ... x y`
/// with k places, or `DROP name`. `EditForm` comes for a line that is none of these, or that has an index or a count
/// outside 0 to 4,294,967,295, or a coordinate or height outside its range; `NoMemory` is the only other
/// fault.
pub fn read_edit(alloc: Global, line: &[u8]) -> Result<Edit, EditFault>
    ensures edit { IfOk result (ReadsAsEdit (words line.now)) }
    ensures fault { IfErr result (IsLineFault line.now) }
{
    let Some((keyword, rest)) = split_word(line) else {
        return Err(EditFault::EditForm);
    };
    match keyword {
        b"MOVE" => move_of(rest),
        b"INSERT" => insert_of(rest),
        b"REMOVE" => remove_of(rest),
        b"ADD" => add_of(alloc, rest),
        b"DROP" => drop_of(rest),
        _ => Err(EditFault::EditForm),
    }
}
