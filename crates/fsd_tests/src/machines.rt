//! What the tests share: machines in memory, and lines that run over them.
use cfs_program::run_words;
use memory_machine::{Event, MemoryMachine};
use sector_disk::{Sector, WeakRun};
use std::alloc::{AllocError, Global};
use table_volume::Volume;

/// A machine over this image, whose weak runs have so many sectors. The first one may wear at first, each mount names
/// the next, and the last one stays.
pub(crate) fn weak(
    alloc: Global,
    image: &[Sector],
    count: u32,
    firsts: [u32; 3],
) -> Result<MemoryMachine, AllocError> {
    let mut runs = Vec::new(alloc);
    for first in firsts {
        runs.push(WeakRun { first, count })?;
    }
    let image = image.to_vec(alloc)?;
    Ok(MemoryMachine::with_runs(alloc, image, runs, Vec::new(alloc), Vec::new(alloc)))
}

/// A machine over this image, on which nothing wears.
pub(crate) fn calm(alloc: Global, image: Vec<Sector>) -> MemoryMachine {
    let runs = Vec::new(alloc);
    MemoryMachine::with_runs(alloc, image, runs, Vec::new(alloc), Vec::new(alloc))
}

/// One line over what the machine has, and its status.
pub(crate) fn run(
    alloc: Global,
    m: MemoryMachine,
    events: &[Event],
    line: &str,
    input: &[u8],
) -> Result<(MemoryMachine, u8), AllocError> {
    run_behind(alloc, m, 0, events, line, input)
}

/// The same where the disk has lost what the last calls of the run before have written, so many of them or all since the
/// last sync.
pub(crate) fn run_behind(
    alloc: Global,
    m: MemoryMachine,
    held: usize,
    events: &[Event],
    line: &str,
    input: &[u8],
) -> Result<(MemoryMachine, u8), AllocError> {
    let mut m = m.left_behind(held, events.to_vec(alloc)?, input.to_vec(alloc)?);
    let words = words_of(alloc, line)?;
    let status = run_words::<MemoryMachine, Volume, Volume>(alloc, words.as_slice(), &mut m);
    Ok((m, status))
}

/// A line, its input, and the status and the text with which it ends.
pub(crate) type Row<'a> = (&'a str, &'a [u8], u8, &'a str);

// A line in a run with these events, and whether it ends so and no more wears than may.
pub(crate) fn goes(
    alloc: Global,
    m: MemoryMachine,
    events: &[Event],
    row: &Row,
) -> Result<(MemoryMachine, bool), AllocError> {
    let (line, input, status, said) = row;
    let (m, ended) = run(alloc, m, events, line, input)?;
    let so = ended == *status && m.said() == said.as_bytes() && m.honest();
    Ok((m, so))
}

/// These lines one after another, and the first that ends otherwise.
pub(crate) fn first_wrong(
    alloc: Global,
    m: MemoryMachine,
    rows: &[Row],
) -> Result<(MemoryMachine, Option<usize>), AllocError> {
    let mut m = m;
    for (i, row) in rows.iter().enumerate() {
        let (next, so) = goes(alloc, m, &[], row)?;
        if !so {
            return Ok((next, Some(i)));
        }
        m = next;
    }
    Ok((m, None))
}

/// What happens in the run of a line.
pub(crate) type Met<'a> = (&'a [Event], Row<'a>);

/// The same with what happens in each run.
pub(crate) fn first_wrong_met(
    alloc: Global,
    m: MemoryMachine,
    rows: &[Met],
) -> Result<Option<usize>, AllocError> {
    let mut m = m;
    for (i, (events, row)) in rows.iter().enumerate() {
        let (next, so) = goes(alloc, m, events, row)?;
        if !so {
            return Ok(Some(i));
        }
        m = next;
    }
    Ok(None)
}

/// An empty volume, as this line formats it.
pub(crate) fn formatted(alloc: Global, line: &str) -> Result<Vec<Sector>, AllocError> {
    let m = calm(alloc, Vec::new(alloc));
    let (m, _) = run(alloc, m, &[], line, b"")?;
    m.image().to_vec(alloc)
}

/// The words of a line.
pub(crate) fn words_of(alloc: Global, line: &str) -> Result<Vec<String>, AllocError> {
    let mut words = Vec::new(alloc);
    for word in line.split(' ') {
        words.push(String::from_str(alloc, word)?)?;
    }
    Ok(words)
}
