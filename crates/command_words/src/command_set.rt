//! The commands of the program: as `clap` is told of them, and how the fields of each are read.
ghost use Rattle.std.specs.Prelude.{◌≡◌, IfOk, codes, fold};
ghost use Rattle.clap.specs.Matches.{found_of};
ghost use Rattle.clap.specs.Simple.{app_of, new_app};
ghost use Rattle.clap.specs.Walk.{rows_of};
ghost use Rattle.fsd_runs.specs.Words.{cfs, reads_dump, reads_fields, reads_format, reads_generate, reads_keep, reads_move, reads_put};
ghost use Rattle.command_words.specs.CommandSet.{IsCommand, shape_of, with_row};

use crate::field::{
    field, key_of, layout_of, name_of, number_at, number_if_given, pattern_of, seed_of,
};
use clap::{Arg, ArgMatches, Command};
use fsd_bytes::Serial;
use fsd_runs::Request;
use fsd_texts::{Cause, Command as Word};
use std::alloc::{AllocError, Global};

// A command, its positionals, all of them required, and its options, each of which takes a value.
struct Row<'a> {
    name: &'a str,
    positionals: &'a [&'a str],
    options: &'a [&'a str],
}

// Their order is that of the definition `cfs`, and so it is in any build that is proved: the contract of `command_set`
// says that the two are one.
const ROWS: [Row<'static>; 16] = [
    Row {
        name: "format",
        positionals: &["image", "n", "t", "p"],
        options: &["layout", "most"],
    },
    Row {
        name: "put",
        positionals: &["image", "name"],
        options: &["keep"],
    },
    Row {
        name: "get",
        positionals: &["image", "key"],
        options: &[],
    },
    Row {
        name: "list",
        positionals: &["image", "pat"],
        options: &[],
    },
    Row {
        name: "delete",
        positionals: &["image", "key"],
        options: &[],
    },
    Row {
        name: "keep",
        positionals: &["image", "name", "k"],
        options: &[],
    },
    Row {
        name: "move",
        positionals: &["image", "key", "name"],
        options: &[],
    },
    Row {
        name: "stat",
        positionals: &["image"],
        options: &[],
    },
    Row {
        name: "scrub",
        positionals: &["image"],
        options: &[],
    },
    Row {
        name: "upgrade",
        positionals: &["image"],
        options: &[],
    },
    Row {
        name: "grow",
        positionals: &["image", "n"],
        options: &[],
    },
    Row {
        name: "dump",
        positionals: &["image", "e", "c"],
        options: &["bytes"],
    },
    Row {
        name: "restore",
        positionals: &["image"],
        options: &[],
    },
    Row {
        name: "script",
        positionals: &["image"],
        options: &[],
    },
    Row {
        name: "generate",
        positionals: &["image", "seed", "count"],
        options: &[],
    },
    Row {
        name: "drill",
        positionals: &[],
        options: &[],
    },
];

/// The command set.
pub(crate) fn command_set<'a>(alloc: Global) -> Result<Command<'a>, AllocError>
    ensures { IfOk result (λ c. app_of c ≡ cfs) }
{
    program_of(alloc, &ROWS)
}

// The program with a command for each row.
fn program_of<'a>(alloc: Global, rows: &[Row<'a>]) -> Result<Command<'a>, AllocError>
    ensures { IfOk result (λ c. app_of c ≡ fold with_row (new_app (codes "cfs")) rows.now) }
{
    let mut program = Command::new(alloc, "cfs");
    for row in rows {
        program = with_row(alloc, program, row)?;
    }
    Ok(program)
}

// The program with one more command.
fn with_row<'a>(
    alloc: Global,
    program: Command<'a>,
    row: &Row<'a>,
) -> Result<Command<'a>, AllocError>
    ensures { IfOk result (λ c. app_of c ≡ with_row (app_of program.entry) row.now) }
{
    let command = command_of(alloc, row)?;
    program.subcommand(command)
}

fn command_of<'a>(alloc: Global, row: &Row<'a>) -> Result<Command<'a>, AllocError>
    ensures { IfOk result (λ c. IsCommand c (shape_of row.now)) }
{
    let mut command = Command::new(alloc, row.name);
    for positional in row.positionals {
        command = command.arg(Arg::new(alloc, positional).required(true))?;
    }
    for option in row.options {
        command = command.arg(Arg::new(alloc, option).long(option))?;
    }
    Ok(command)
}

/// The fields of a command, from the left.
pub(crate) fn read_fields(name: &str, fields: &ArgMatches<'_>) -> Result<Request, Cause>
    ensures { result ≡ reads_fields name.now (rows_of (found_of fields.now)) }
{
    match name {
        "format" => read_format(fields),
        "put" => read_put(fields),
        "get" => Ok(Request::One(Word::Get(key_of(field(fields, "key"))?))),
        "list" => Ok(Request::One(Word::List(pattern_of(field(fields, "pat"))?))),
        "delete" => Ok(Request::One(Word::Delete(key_of(field(fields, "key"))?))),
        "keep" => read_keep(fields),
        "move" => read_move(fields),
        "stat" => Ok(Request::One(Word::Stat)),
        "scrub" => Ok(Request::One(Word::Scrub)),
        "upgrade" => Ok(Request::One(Word::Upgrade)),
        "grow" => Ok(Request::One(Word::Grow(number_at(fields, "n")?))),
        "dump" => read_dump(fields),
        "restore" => Ok(Request::Restore),
        "script" => Ok(Request::Script),
        "generate" => read_generate(fields),
        "drill" => Ok(Request::Drill),
        _ => Ok(Request::NoCommand),
    }
}

fn read_format(fields: &ArgMatches<'_>) -> Result<Request, Cause>
    ensures { result ≡ reads_format (rows_of (found_of fields.now)) }
{
    let sectors = number_at(fields, "n")?;
    let third = number_at(fields, "t")?;
    let pages = number_at(fields, "p")?;
    let kind = layout_of(fields)?;
    let most = number_if_given(fields, "most")?;
    Ok(Request::Format {
        sectors,
        third,
        pages,
        kind,
        most: most.unwrap_or(0),
    })
}

fn read_put(fields: &ArgMatches<'_>) -> Result<Request, Cause>
    ensures { result ≡ reads_put (rows_of (found_of fields.now)) }
{
    let name = name_of(field(fields, "name"))?;
    let keep = number_if_given(fields, "keep")?;
    Ok(Request::Put { name, keep })
}

fn read_keep(fields: &ArgMatches<'_>) -> Result<Request, Cause>
    ensures { result ≡ reads_keep (rows_of (found_of fields.now)) }
{
    let name = name_of(field(fields, "name"))?;
    let keep = number_at(fields, "k")?;
    Ok(Request::One(Word::Keep { name, keep }))
}

fn read_move(fields: &ArgMatches<'_>) -> Result<Request, Cause>
    ensures { result ≡ reads_move (rows_of (found_of fields.now)) }
{
    let key = key_of(field(fields, "key"))?;
    let name = name_of(field(fields, "name"))?;
    Ok(Request::One(Word::Move { key, name }))
}

fn read_dump(fields: &ArgMatches<'_>) -> Result<Request, Cause>
    ensures { result ≡ reads_dump (rows_of (found_of fields.now)) }
{
    let epoch = number_at(fields, "e")?;
    let count = number_at(fields, "c")?;
    let most = number_if_given(fields, "bytes")?;
    Ok(Request::Dump {
        since: Serial { epoch, count },
        most,
    })
}

fn read_generate(fields: &ArgMatches<'_>) -> Result<Request, Cause>
    ensures { result ≡ reads_generate (rows_of (found_of fields.now)) }
{
    let seed = seed_of(field(fields, "seed"))?;
    let count = number_at(fields, "count")?;
    Ok(Request::Generate { seed, count })
}
