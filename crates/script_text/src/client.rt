//! One line of a client, and what it asks for.
ghost use Rattle.std.specs.Prelude.{◌≡◌, ◌∷◌, [], map};
ghost use Rattle.fsd_texts.specs.declared.call.Call.TheVariants as Calls;
ghost use Rattle.fsd_texts.specs.Script.{asks_begin, asks_client, asks_piece, call_with_field, call_with_none, key_in, number_in};

use crate::field::{key_of, name_of, number_of};
use fsd_texts::{Asking, Call, Cause};

/// What a word asks of a client, with these fields behind it.
pub(crate) fn of_client(word: &[u8], fields: &[&[u8]]) -> Result<Asking, Cause>
    ensures { result ≡ asks_client word.now (map (λ w. w.now) fields.now) }
{
    if word == b"begin".as_slice() {
        begin_of(fields)
    } else if word == b"piece".as_slice() {
        piece_of(fields)
    } else if word == b"close".as_slice() {
        call_of(Call::Close, fields)
    } else if word == b"drop".as_slice() {
        call_of(Call::Drop, fields)
    } else if word == b"open".as_slice() {
        open_of(fields)
    } else if word == b"next".as_slice() {
        next_of(fields)
    } else if word == b"done".as_slice() {
        call_of(Call::Done, fields)
    } else {
        Err(Cause::UnknownWord)
    }
}

fn begin_of(fields: &[&[u8]]) -> Result<Asking, Cause>
    ensures { result ≡ asks_begin (map (λ w. w.now) fields.now) }
{
    match fields {
        [client, name, length] => begin_with(client, name, length),
        _ => Err(Cause::WordCount),
    }
}

fn begin_with(client: &[u8], name: &[u8], length: &[u8]) -> Result<Asking, Cause>
    ensures { result ≡ asks_begin (client.now ∷ name.now ∷ length.now ∷ []) }
{
    let client = number_of(client)?;
    let name = name_of(name)?;
    let length = number_of(length)?;
    Ok(Asking::OfClient {
        client,
        call: Call::Begin { name, length },
    })
}

fn piece_of(fields: &[&[u8]]) -> Result<Asking, Cause>
    ensures { result ≡ asks_piece (map (λ w. w.now) fields.now) }
{
    match fields {
        [client, length] => piece_with(client, length),
        _ => Err(Cause::WordCount),
    }
}

fn piece_with(client: &[u8], length: &[u8]) -> Result<Asking, Cause>
    ensures { result ≡ asks_piece (client.now ∷ length.now ∷ []) }
{
    let client = number_of(client)?;
    let length = number_of(length)?;
    Ok(Asking::Piece { client, length })
}

fn open_of(fields: &[&[u8]]) -> Result<Asking, Cause>
    ensures { result ≡ call_with_field key_in Calls.Open (map (λ w. w.now) fields.now) }
{
    match fields {
        [client, key] => open_with(client, key),
        _ => Err(Cause::WordCount),
    }
}

fn open_with(client: &[u8], key: &[u8]) -> Result<Asking, Cause>
    ensures { result ≡ call_with_field key_in Calls.Open (client.now ∷ key.now ∷ []) }
{
    let client = number_of(client)?;
    let key = key_of(key)?;
    Ok(Asking::OfClient {
        client,
        call: Call::Open(key),
    })
}

fn next_of(fields: &[&[u8]]) -> Result<Asking, Cause>
    ensures { result ≡ call_with_field number_in Calls.Next (map (λ w. w.now) fields.now) }
{
    match fields {
        [client, length] => next_with(client, length),
        _ => Err(Cause::WordCount),
    }
}

fn next_with(client: &[u8], length: &[u8]) -> Result<Asking, Cause>
    ensures { result ≡ call_with_field number_in Calls.Next (client.now ∷ length.now ∷ []) }
{
    let client = number_of(client)?;
    let length = number_of(length)?;
    Ok(Asking::OfClient {
        client,
        call: Call::Next(length),
    })
}

// A call of which nothing more is told.
fn call_of(call: Call, fields: &[&[u8]]) -> Result<Asking, Cause>
    ensures { result ≡ call_with_none call (map (λ w. w.now) fields.now) }
{
    match fields {
        [client] => Ok(Asking::OfClient {
            client: number_of(client)?,
            call,
        }),
        _ => Err(Cause::WordCount),
    }
}
