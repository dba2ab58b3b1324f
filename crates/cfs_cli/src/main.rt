//! The program `cfs`: a logged file system in an image file.
#![tactic(auto)]

ghost use Rattle.std.specs.Prelude.{[], map, IfOk, IfErr};
ghost use Rattle.std.specs.String.{string_bytes};
ghost use Rattle.fsd_runs.specs.Words.{path_of, request_of};
ghost use Rattle.cfs_program.specs.Program.{Ran};
ghost use Rattle.fsd_runs.specs.declared.request.Request.TheVariants.{NoCommand};

use cfs_program::{run_out_of_memory, run_words, say_usage};
use image_file::FileMachine;
use sector_disk::Machine;
use std::alloc::Global;
use std::process::ExitCode;
use std::{env, io};
use table_volume::Volume;

fn main(rt: HostRuntime) -> ExitCode {
    let words = words(&rt);
    ExitCode::from(run(rt.alloc(), words, &mut FileMachine::new(rt)))
}

// One run on a machine, which gives the status. Words that are no text are outside the command set.
fn run<M: Machine>(alloc: Global, words: io::Result<Vec<String>>, m: &mut M) -> u8
    ensures ran { IfOk words (λ words. let asked = map string_bytes words.items in Ran M.Machine (request_of asked) (path_of asked) m.old m.new result) }
    ensures no_words { IfErr words (λ error. Ran M.Machine NoCommand [] m.old m.new result) }
{
    match words {
        Ok(words) => run_words::<M, Volume, Volume>(alloc, words.as_slice(), m),
        Err(error) if error.kind() == io::ErrorKind::OutOfMemory => run_out_of_memory(m),
        Err(_) => say_usage(m),
    }
}

// The program's name, and the words behind it.
fn words(rt: &HostRuntime) -> io::Result<Vec<String>> {
    let mut words = Vec::new(rt.alloc());
    for word in env::args(rt)? {
        words.push(word)?;
    }
    Ok(words)
}
