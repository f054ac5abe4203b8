//! The command `landmarks`.
ghost use Rattle.std.specs.Prelude.{◌≡◌, ℕ, ◌+◌, ◌-◌, ◌<◌, ◌≤◌, [], ◌∷◌, ◌++◌, All, map, length, take, slice_index_or, slice_set, string_bytes, IfOk, IfErr, OnOk};
ghost use Rattle.std.specs.List.{flat_map};
ghost use Rattle.strip_graph.specs.Strips.{rows, cols};
ghost use Rattle.landmarks.specs.Faults.{AreSoundMarks, AreGoodBefore};
ghost use Rattle.landmarks.specs.Pieces.{HasPieceValues};
ghost use Rattle.landmarks.specs.Marked.{SolvesMarked, part_of};
ghost use Rattle.section_pairs.specs.SectionFaults.{OrNoMemory};
ghost use Rattle.section_pairs.specs.Pairs.{pair_parts};
ghost use Rattle.section_core.specs.declared.parts.Version.TheVariants as Version;
ghost use Rattle.section_text.specs.Fronts.{IsReadMemory};
ghost use Rattle.command_replies.specs.Reply.{Replies};
ghost use Rattle.command_replies.specs.Stages.{on_front};
ghost use Rattle.pair_commands.specs.Landmarks.{IsMarkFault, landmarks, pair_head, piece_head, piece_text};
ghost use Rattle.pair_commands.specs.MarkReading.{AreGrouped, IsCauseOf, IsLandmarksText, IsPairText, IsToldOr, lists_in, marked_of};

use crate::mark_lines::{PairMark, marks_behind};
use cert_checker::{put_letters, put_rows};
use command_replies::numbered_pairs;
use fku_types::limits::{MAX_INPUT_BYTES, MAX_MARKS};
use fku_types::{Fault, NoMemory};
use landmarks::{Mark, MarkFault, Marked, Piece, solve_marked, test_mark};
use section_pairs::GapPair;
use section_text::parse_objects;
use std::alloc::{AllocError, Global};
use strip_graph::Pair;
use text_io::{put, put_count};

// The fault of an input for a fault of a mark.
fn told(x: PairMark, cause: &MarkFault) -> Fault
    ensures { IsToldOr x cause.now result }
{
    let pair = x.pair;
    let Mark { row, col } = x.mark;
    match cause {
        MarkFault::NoSpan { .. } => Fault::NoSpan { pair, row, col },
        MarkFault::Repeated { .. } => Fault::MarkRepeated { pair, row, col },
        MarkFault::Cross { .. } => Fault::MarksCross { pair, row, col },
        MarkFault::NoMemory => Fault::NoMemory,
    }
}

// Tests the last one of the marks of a pair, if those before it are good.
fn test_last(pair: &Pair, marks: &[Mark], x: PairMark) -> Result<(), Fault>
    requires some { 1 ≤ length marks.now }
    requires few { length marks.now ≤ MAX_MARKS }
    requires earlier { AreGoodBefore (rows pair.now) (cols pair.now) marks.now (length marks.now - 1) }
    ensures good { OnOk result (AreGoodBefore (rows pair.now) (cols pair.now) marks.now (length marks.now)) }
    ensures fault { IfErr result (IsCauseOf (rows pair.now) (cols pair.now) marks.now x) }
{
    let rows = pair.low().points.len() as u32;
    let cols = pair.high().points.len() as u32;
    match test_mark(rows, cols, marks, marks.len() - 1) {
        Ok(()) => Ok(()),
        Err(cause) => Err(told(x, &cause)),
    }
}

// Appends a mark to those of a group.
fn push_mark(groups: &mut Vec<Vec<Mark>>, place: usize, mark: Mark) -> Result<(), AllocError>
    requires { place < length groups.old.items }
    ensures { OnOk result
        (lists_in groups.new.items
        ≡ slice_set (lists_in groups.old.items) place
        (slice_index_or (lists_in groups.old.items) place [] ++ mark ∷ [])) }
{
    groups[place].push(mark)?;
    Ok(())
}

fn marks_at(groups: &[Vec<Mark>], place: usize) -> &[Mark]
    requires { place < length groups.now }
    ensures { result.now ≡ slice_index_or (lists_in groups.now) place [] }
{
    &groups[place]
}

// Appends the mark at a place to those of its pair, and tests it.
fn add_mark(
    groups: &mut Vec<Vec<Mark>>,
    pairs: &[GapPair],
    marks: &[PairMark],
    place: usize,
) -> Result<(), Fault>
    requires place { place < length marks.now }
    requires few { length marks.now ≤ MAX_MARKS }
    requires numbers { All (λ x. 1 ≤ x.pair) marks.now }
    requires grouped { AreGrouped (map pair_parts pairs.now) (take place marks.now) (lists_in groups.old.items) }
    ensures grouped { OnOk result
        (AreGrouped (map pair_parts pairs.now) (take (place + 1) marks.now) (lists_in groups.new.items)) }
    ensures fault { IfErr result (OrNoMemory (IsMarkFault (map pair_parts pairs.now) marks.now)) }
{
    let x = marks[place];
    let number = x.pair as usize;
    if pairs.len() < number {
        return Err(Fault::NoPair { number: x.pair });
    }
    push_mark(groups, number - 1, x.mark)?;
    test_last(&pairs[number - 1].pair, marks_at(groups, number - 1), x)
}

// As many groups without marks as `count`.
fn no_marks(alloc: Global, count: usize) -> Result<Vec<Vec<Mark>>, AllocError>
    ensures count { IfOk result (λ g. length g.items ≡ count) }
    ensures none { IfOk result (λ g. All (λ v. v.items ≡ []) g.items) }
{
    let mut groups = Vec::with_capacity(alloc, count)?;
    for _done in 0..count {
        groups.push(Vec::new(alloc))?;
    }
    Ok(groups)
}

// The marks of each pair, or the first fault of a mark in the order of the lines. Good marks of a pair have different
// rows and columns, so each is compared with fewer than `MAX_COMPOSITE_VERTICES` others.
fn grouped(alloc: Global, pairs: &[GapPair], marks: &[PairMark]) -> Result<Vec<Vec<Mark>>, Fault>
    requires few { length marks.now ≤ MAX_MARKS }
    requires numbers { All (λ x. 1 ≤ x.pair) marks.now }
    ensures grouped { IfOk result (λ g. AreGrouped (map pair_parts pairs.now) marks.now (lists_in g.items)) }
    ensures fault { IfErr result (OrNoMemory (IsMarkFault (map pair_parts pairs.now) marks.now)) }
{
    let mut groups = no_marks(alloc, pairs.len())?;
    for place in 0..marks.len() {
        add_mark(&mut groups, pairs, marks, place)?;
    }
    Ok(groups)
}

fn piece_head(alloc: Global, piece: &Piece) -> Result<String, AllocError>
    ensures { IfOk result (λ s.
        string_bytes s ≡ piece_head piece.now.from piece.now.rows piece.now.cols piece.now.cost) }
{
    let Mark { row, col } = piece.from;
    let rows = piece.rows;
    let cols = piece.cols;
    let cost = piece.cost;
    format!(in alloc; "PIECE {row} {col} ROWS {rows} COLS {cols} COST {cost}\n")
}

fn put_piece(alloc: Global, out: &mut Vec<u8>, piece: &Piece) -> Result<(), AllocError>
    requires { HasPieceValues piece.now }
    ensures { OnOk result (out.new.items ≡ out.old.items ++ piece_text (part_of piece.now)) }
{
    let head = piece_head(alloc, piece)?;
    put(out, head.as_bytes())?;
    let width = piece.cols as usize + 1;
    let rows = piece.rows as usize + 1;
    put_rows(out, &piece.phi, width, rows)
}

fn put_pieces(alloc: Global, out: &mut Vec<u8>, pieces: &[Piece]) -> Result<(), AllocError>
    requires { All HasPieceValues pieces.now }
    ensures { OnOk result (out.new.items ≡ out.old.items ++ flat_map piece_text (map part_of pieces.now)) }
{
    for piece in pieces {
        put_piece(alloc, out, piece)?;
    }
    Ok(())
}

fn pair_head(
    alloc: Global,
    number: usize,
    count: usize,
    marked: &Marked,
) -> Result<String, AllocError>
    ensures { IfOk result (λ s. string_bytes s ≡ pair_head number count marked.now.cost marked.now.at) }
{
    let cost = marked.cost;
    let Mark { row, col } = marked.at;
    format!(in alloc; "PAIR {number} MARKS {count} COST {cost} AT {row} {col}\nWORD ")
}

fn put_marked(
    alloc: Global,
    out: &mut Vec<u8>,
    number: usize,
    count: usize,
    marked: &Marked,
) -> Result<(), AllocError>
    requires { All HasPieceValues marked.now.pieces.items }
    ensures { OnOk result (out.new.items ≡ out.old.items ++ marked_of number count marked.now) }
{
    let head = pair_head(alloc, number, count, marked)?;
    put(out, head.as_bytes())?;
    put_letters(out, &marked.word)?;
    put(out, b"\n")?;
    put_pieces(alloc, out, &marked.pieces)
}

// Solves a pair with good marks.
fn solved(alloc: Global, pair: &Pair, marks: &[Mark]) -> Result<Marked, NoMemory>
    requires { AreSoundMarks (rows pair.now) (cols pair.now) marks.now }
    ensures { IfOk result (SolvesMarked pair.now marks.now) }
{
    match solve_marked(alloc, pair, marks) {
        Ok(marked) => Ok(marked),
        Err(MarkFault::NoMemory) => Err(NoMemory),
        Err(_) => unreachable!(),
    }
}

// The lines of a pair, if it has marks; returns for how many pairs these are, 0 or 1.
fn put_pair(
    alloc: Global,
    out: &mut Vec<u8>,
    number: usize,
    pair: &Pair,
    marks: &[Mark],
) -> Result<usize, NoMemory>
    requires few { length marks.now ≤ MAX_MARKS }
    requires good { AreGoodBefore (rows pair.now) (cols pair.now) marks.now (length marks.now) }
    ensures { IfOk result (IsPairText number pair.now marks.now out.old.items out.new.items) }
{
    if marks.is_empty() {
        return Ok(0);
    }
    let marked = solved(alloc, pair, marks)?;
    put_marked(alloc, out, number, marks.len(), &marked)?;
    Ok(1)
}

// The text of all pairs with marks.
fn landmarks_text(
    alloc: Global,
    pairs: &[GapPair],
    marks: &[PairMark],
    groups: &[Vec<Mark>],
) -> Result<Vec<u8>, NoMemory>
    requires { AreGrouped (map pair_parts pairs.now) marks.now (lists_in groups.now) }
    ensures { IfOk result (λ v. IsLandmarksText (map pair_parts pairs.now) marks.now v.items) }
{
    let mut text = Vec::new(alloc);
    let mut count = 0;
    for i in 0..pairs.len() {
        count += put_pair(alloc, &mut text, i + 1, &pairs[i].pair, marks_at(groups, i))?;
    }
    put(&mut text, b"MARKED ")?;
    put_count(&mut text, count)?;
    put(&mut text, b"\n")?;
    Ok(text)
}

/// For each pair with marks after the objects of a text of at most `MAX_INPUT_BYTES` bytes, the least tiling that
/// contains them, with its pieces. Else the first fault of the text, of its objects or of the marks; or `NoMemory`. It
/// takes no solver of pairs.
pub fn landmarks(alloc: Global, input: &[u8]) -> Result<Vec<u8>, Fault>
    requires { length input.now ≤ MAX_INPUT_BYTES }
    ensures reply { (count : ℕ) → Replies (on_front landmarks input.now) count count result }
    // A fault in the first four kept lines, or the end of the text before a fourth, is reported whatever memory there
    // is.
    ensures memory { IfErr result (IsReadMemory Version.Two input.now) }
{
    let front = parse_objects(alloc, input)?;
    let pairs = numbered_pairs(alloc, &front.objects)?;
    let marks = marks_behind(alloc, input, front.used, front.lines)?;
    let groups = grouped(alloc, &pairs, &marks)?;
    let text = landmarks_text(alloc, &pairs, &marks, &groups)?;
    Ok(text)
}
