//! What the words ask for.
ghost use Rattle.std.specs.Prelude.{◌≡◌, IfOk, [], map};
ghost use Rattle.std.specs.String.{string_bytes};
ghost use Rattle.clap.specs.Matches.{found_of};
ghost use Rattle.clap.specs.Walk.{rows_of};
ghost use Rattle.clap.specs.Simple.{subcommand_rows_of};
ghost use Rattle.fsd_runs.specs.declared.request.Request.TheVariants.{NoCommand};
ghost use Rattle.fsd_runs.specs.Words.{entered_request, image_word, or_bad_field, path_of, reads_fields, request_of};

use crate::command_set::{command_set, read_fields};
use crate::field::field;
use clap::ArgMatches;
use clap::error::ErrorKind;
use fsd_runs::Request;
use std::alloc::{AllocError, Global};

/// What the words ask for.
#[derive(Drop)]
pub struct Asked<'a> {
    pub request: Request,
    /// The path of the image, empty where the words name none.
    pub image: &'a str,
}

/// Reads the words of the command line. The first is the program's name.
pub fn read_words<'a>(alloc: Global, words: &'a [String]) -> Result<Asked<'a>, AllocError>
    ensures request { IfOk result (λ asked. asked.request ≡ request_of (map string_bytes words.now)) }
    ensures image { IfOk result (λ asked. asked.image.now ≡ path_of (map string_bytes words.now)) }
{
    match command_set(alloc)?.try_get_matches_from(words) {
        Ok(matches) => Ok(asked_by(&matches)),
        Err(error) => match error.kind() {
            ErrorKind::OutOfMemory => Err(AllocError),
            _ => Ok(outside()),
        },
    }
}

fn outside<'a>() -> Asked<'a>
    ensures request { result.request ≡ NoCommand }
    ensures image { result.image.now ≡ [] }
{
    Asked {
        request: Request::NoCommand,
        image: "",
    }
}

// What the words ask for that the command set takes.
fn asked_by<'a>(matches: &ArgMatches<'a>) -> Asked<'a>
    ensures request { result.request ≡ entered_request (subcommand_rows_of matches.now) }
    ensures image { result.image.now ≡ image_word (subcommand_rows_of matches.now) }
{
    match matches.subcommand() {
        Some((name, fields)) => Asked {
            request: request_by(name, fields),
            image: field(fields, "image"),
        },
        None => outside(),
    }
}

fn request_by(name: &str, fields: &ArgMatches<'_>) -> Request
    ensures { result ≡ or_bad_field (reads_fields name.now (rows_of (found_of fields.now))) }
{
    match read_fields(name, fields) {
        Ok(request) => request,
        Err(cause) => Request::BadField(cause),
    }
}
