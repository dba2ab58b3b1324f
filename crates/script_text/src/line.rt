//! One line of a script, and what it asks for.
ghost use Rattle.std.specs.Prelude.{◌≡◌, ◌<◌, ◌+◌, ◌∷◌, [], MatchResult, IfOk, Ok, Err, length, map, drop, ◌==◌, position};
ghost use Rattle.fsd_texts.specs.declared.command.Command.TheVariants as Word;
ghost use Rattle.fsd_texts.specs.Script.{asked_by, asks, asks_alone, asks_keep, asks_move, asks_put, key_in, line_at, max_line, pattern_in, with_field, with_no_field, words_of};
ghost use Rattle.script_text.specs.Front.{ReadsSo};

use crate::client::of_client;
use crate::fault::BodyFault;
use crate::field::{key_of, name_of, number_of, pattern_of};
use fsd_texts::{Asking, Cause, Command};
use std::alloc::{AllocError, Global};

/// The most bytes of a line, without its newline.
const MOST_LINE: usize = 128;

/// The line that the bytes begin with, without its newline.
pub(crate) fn line_of(bytes: &[u8]) -> Result<&[u8], Cause>
    ensures line { MatchResult result (λ line. line_at max_line bytes.now ≡ Ok (line.now, drop (length line.now + 1) bytes.now)) (λ cause. line_at max_line bytes.now ≡ Err cause) }
    ensures within { IfOk result (λ line. length line.now < length bytes.now) }
{
    let most = bytes.len().min(MOST_LINE + 1);
    match newline_in(&bytes[..most]) {
        Some(place) => Ok(&bytes[..place]),
        None if bytes.len() > MOST_LINE => Err(Cause::LongLine),
        None => Err(Cause::NoNewline),
    }
}

// The place of the first newline.
fn newline_in(bytes: &[u8]) -> Option<usize>
    ensures { result ≡ position (λ b. b == 10) bytes.now }
{
    bytes.iter().position(|b| *b == b'\n')
}

/// What a line asks for.
pub(crate) fn asking_of(alloc: Global, line: &[u8]) -> Result<Asking, BodyFault>
    ensures { ReadsSo result (asked_by (words_of line.now)) }
{
    let words = words_of(alloc, line)?;
    Ok(asked_by(words.as_slice())?)
}

// The parts of a line between single spaces.
fn words_of(alloc: Global, line: &[u8]) -> Result<Vec<&[u8]>, AllocError>
    ensures { IfOk result (λ words. map (λ w. w.now) words.items ≡ words_of line.now) }
{
    line.split(|b| *b == b' ').collect(alloc)
}

fn asked_by(words: &[&[u8]]) -> Result<Asking, Cause>
    ensures { result ≡ asked_by (map (λ w. w.now) words.now) }
{
    match words {
        [] => Err(Cause::EmptyLine),
        [word] if word.is_empty() => Err(Cause::EmptyLine),
        [word, fields @ ..] => asked(word, fields),
    }
}

// What a word asks for, with these fields behind it.
fn asked(word: &[u8], fields: &[&[u8]]) -> Result<Asking, Cause>
    ensures { result ≡ asks word.now (map (λ w. w.now) fields.now) }
{
    if word == b"put".as_slice() {
        put_of(fields)
    } else if word == b"delete".as_slice() {
        delete_of(fields)
    } else if word == b"keep".as_slice() {
        keep_of(fields)
    } else if word == b"move".as_slice() {
        move_of(fields)
    } else if word == b"list".as_slice() {
        list_of(fields)
    } else if word == b"get".as_slice() {
        get_of(fields)
    } else {
        alone(word, fields)
    }
}

fn put_of(fields: &[&[u8]]) -> Result<Asking, Cause>
    ensures { result ≡ asks_put (map (λ w. w.now) fields.now) }
{
    match fields {
        [name, length] => put_alone(name, length),
        [name, length, keep] => put_with_keep(name, length, keep),
        _ => Err(Cause::WordCount),
    }
}

fn put_alone(name: &[u8], length: &[u8]) -> Result<Asking, Cause>
    ensures { result ≡ asks_put (name.now ∷ length.now ∷ []) }
{
    Ok(Asking::Put {
        name: name_of(name)?,
        length: number_of(length)?,
        keep: None,
    })
}

fn put_with_keep(name: &[u8], length: &[u8], keep: &[u8]) -> Result<Asking, Cause>
    ensures { result ≡ asks_put (name.now ∷ length.now ∷ keep.now ∷ []) }
{
    Ok(Asking::Put {
        name: name_of(name)?,
        length: number_of(length)?,
        keep: Some(number_of(keep)?),
    })
}

fn keep_of(fields: &[&[u8]]) -> Result<Asking, Cause>
    ensures { result ≡ asks_keep (map (λ w. w.now) fields.now) }
{
    match fields {
        [name, keep] => Ok(Asking::Plainly(Command::Keep {
            name: name_of(name)?,
            keep: number_of(keep)?,
        })),
        _ => Err(Cause::WordCount),
    }
}

fn move_of(fields: &[&[u8]]) -> Result<Asking, Cause>
    ensures { result ≡ asks_move (map (λ w. w.now) fields.now) }
{
    match fields {
        [key, name] => move_with(key, name),
        _ => Err(Cause::WordCount),
    }
}

fn move_with(key: &[u8], name: &[u8]) -> Result<Asking, Cause>
    ensures { result ≡ asks_move (key.now ∷ name.now ∷ []) }
{
    let key = key_of(key)?;
    let name = name_of(name)?;
    Ok(Asking::Plainly(Command::Move { key, name }))
}

fn delete_of(fields: &[&[u8]]) -> Result<Asking, Cause>
    ensures { result ≡ with_field key_in Word.Delete (map (λ w. w.now) fields.now) }
{
    match fields {
        [key] => Ok(Asking::Plainly(Command::Delete(key_of(key)?))),
        _ => Err(Cause::WordCount),
    }
}

fn list_of(fields: &[&[u8]]) -> Result<Asking, Cause>
    ensures { result ≡ with_field pattern_in Word.List (map (λ w. w.now) fields.now) }
{
    match fields {
        [pattern] => Ok(Asking::Plainly(Command::List(pattern_of(pattern)?))),
        _ => Err(Cause::WordCount),
    }
}

fn get_of(fields: &[&[u8]]) -> Result<Asking, Cause>
    ensures { result ≡ with_field key_in Word.Get (map (λ w. w.now) fields.now) }
{
    match fields {
        [key] => Ok(Asking::Plainly(Command::Get(key_of(key)?))),
        _ => Err(Cause::WordCount),
    }
}

// What a word asks for that has no fields, or a client behind it.
fn alone(word: &[u8], fields: &[&[u8]]) -> Result<Asking, Cause>
    ensures { result ≡ asks_alone word.now (map (λ w. w.now) fields.now) }
{
    match Command::lone(word) {
        Some(command) => none_of(command, fields),
        None => of_client(word, fields),
    }
}

// A command of which nothing more is told.
fn none_of(command: Command, fields: &[&[u8]]) -> Result<Asking, Cause>
    ensures { result ≡ with_no_field command (map (λ w. w.now) fields.now) }
{
    if fields.is_empty() {
        Ok(Asking::Plainly(command))
    } else {
        Err(Cause::WordCount)
    }
}
