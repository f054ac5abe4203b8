//! What the words of a command line mean.
use crate::answers::same;
use std::alloc::Global;
use std::process::Abort;
use std::test::Fail;
use surface_cli::{Command, Task, meaning_of};

// The words of a line, separated by blanks.
fn words_of(alloc: Global, line: &str) -> Result<Vec<String>, Fail> {
    let mut words = Vec::new(alloc);
    for word in line.split_whitespace() {
        words.push(word.to_string(alloc)?)?;
    }
    Ok(words)
}

// What the words of a line mean.
fn told(alloc: Global, line: &str) -> Result<Option<Task>, Fail> {
    let words = words_of(alloc, line)?;
    match meaning_of(alloc, &words) {
        Ok(meaning) => Ok(meaning),
        Err(_) => Err(Fail::from("no memory")),
    }
}

// Asserts that the words of a line mean this.
fn means<R: Abort + AllocGlobal>(rt: &R, line: &str, meaning: Option<Task>) -> Result<(), Fail> {
    same(rt, told(rt.alloc(), line)?, meaning);
    Ok(())
}

// A command that has `--workers`.
fn task(command: Command, workers: u32) -> Option<Task> {
    Some(Task {
        command,
        workers: Some(workers),
    })
}

fn tilings(workers: u32) -> Option<Task> {
    task(Command::Tilings, workers)
}

fn slice(height: i32, workers: u32) -> Option<Task> {
    task(Command::Slice { height }, workers)
}

// A command that has no `--workers`.
fn alone(command: Command) -> Option<Task> {
    Some(Task {
        command,
        workers: None,
    })
}

fn certify(pair: u32) -> Option<Task> {
    alone(Command::Certify { pair })
}

fn demo(seed: u32, sections: u32, vertices: u32, workers: u32) -> Option<Task> {
    task(
        Command::Demo {
            seed,
            sections,
            vertices,
        },
        workers,
    )
}

#[test]
fn words_with_a_meaning(rt: HostRuntime) -> Result<(), Fail> {
    let rows: [(&str, Option<Task>); 28] = [
        ("tilings", tilings(1)),
        ("tilings --workers 8", tilings(8)),
        ("tilings --workers=8", tilings(8)),
        ("tilings --workers 64", tilings(64)),
        ("tilings --workers +3", tilings(3)),
        ("reconstruct --workers 2", task(Command::Reconstruct, 2)),
        ("report", task(Command::Report, 1)),
        ("landmarks --workers=5", task(Command::Landmarks, 5)),
        ("ringcaps --workers 4", task(Command::RingCaps, 4)),
        ("certify", certify(1)),
        ("certify --pair 2", certify(2)),
        ("certify --pair=1", certify(1)),
        ("certify --pair=65536", certify(65536)),
        ("check", alone(Command::Check)),
        ("slice --height=-5", slice(-5, 1)),
        ("slice --workers 3 --height 5", slice(5, 3)),
        ("slice --height=999999", slice(999999, 1)),
        ("slice --height=-999999", slice(-999999, 1)),
        ("edit", task(Command::Edit, 1)),
        ("edit --workers 3", task(Command::Edit, 3)),
        ("demo 7 40 200", demo(7, 40, 200, 1)),
        ("demo 7 40 200 --workers 64", demo(7, 40, 200, 64)),
        ("demo --workers=2 0 1 3", demo(0, 1, 3, 2)),
        ("demo 2147483647 64 1000", demo(2147483647, 64, 1000, 1)),
        ("count", alone(Command::Count)),
        ("densify --workers 4", task(Command::Densify, 4)),
        ("measure", alone(Command::Measure)),
        ("crossings", alone(Command::Crossings)),
    ];
    for (line, meaning) in rows {
        means(&rt, line, meaning)?;
    }
    Ok(())
}

const WITHOUT_MEANING: [&str; 42] = [
    "",
    "weave",
    "Tilings",
    "certify 1",
    "certify --pair",
    "certify --pair=0",
    "certify --pair=65537",
    "certify --pair=1 --pair=1",
    "certify --workers=1",
    "check --workers=1",
    "check --pair=1",
    "check x",
    "edit x",
    "--help",
    "landmark",
    "landmarks 1",
    "ringcaps x",
    "ring_caps",
    "tilings x",
    "tilings --workers",
    "tilings --workers x",
    "tilings --workers 0",
    "tilings --workers 65",
    "tilings --workers 2 --workers 3",
    "tilings --height=5",
    "report --help",
    "slice",
    "slice --height -5",
    "slice --height=1000000",
    "slice --height=-1000000",
    "slice --height=1 --height=1",
    "demo 7 40",
    "demo 7 40 200 1",
    "demo 2147483648 1 3",
    "demo 0 65 3",
    "demo 0 0 3",
    "demo 0 1 2",
    "demo 0 1 1001",
    "count x",
    "count --workers 2",
    "densify x",
    "densify --workers=0",
];

fn mean_nothing<R: Abort + AllocGlobal>(rt: &R, lines: &[&str]) -> Result<(), Fail> {
    for line in lines {
        means(rt, line, None)?;
    }
    Ok(())
}

#[test]
fn words_without_a_meaning(rt: HostRuntime) -> Result<(), Fail> {
    mean_nothing(&rt, &WITHOUT_MEANING)
}
