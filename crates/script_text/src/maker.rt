//! Commands that are made up from a seed.
ghost use Rattle.std.specs.Prelude.{◌≡◌, ◌<◌, ◌≤◌, ◌+◌, ◌%◌, ◌^◌, IfOk, map};
ghost use Rattle.std.specs.List.{range_with_len};
ghost use Rattle.fsd_bytes.specs.Keys.{key_of};
ghost use Rattle.fsd_texts.specs.Generator.{command_of_draw, made_name, next_state};
ghost use Rattle.script_text.specs.Making.{MakesNext, making_begun};

use fsd_bytes::{FileName, Key};
use fsd_texts::{Bytes, Command};
use std::alloc::{AllocError, Global};
use std::marker::Model;

/// Makes up so many commands from a seed, one at a time.
#[derive(Drop)]
pub struct Maker {
    // how many commands are still to come, and the ordinal of the next one
    left: u32,
    ordinal: u64,
    state: u64,
}

impl Model for Maker {
    ghost use Rattle.std.specs.Prelude.{◌+◌, ◌≤◌, ◌^◌};
    ghost use Rattle.script_text.specs.Making.{Making};

    ghost Value = { Making };

    ghost view = { λ r. record { left = r.left; ordinal = r.ordinal; state = r.state } };

    ghost invariant = { λ r. r.ordinal + r.left ≤ 2 ^ 32 };
}

impl Maker {
    /// Nothing is made up yet.
    pub fn new(seed: u64, count: u32) -> Maker
        ensures { result ≡ making_begun seed count }
    {
        Maker {
            left: count,
            ordinal: 1,
            state: seed,
        }
    }

    /// The next command, or None behind the last one. Where memory is refused the next call makes the same command.
    pub fn next_command(&mut self, alloc: Global) -> Result<Option<Command>, AllocError>
        ensures { MakesNext result self.old self.new }
    {
        if self.left == 0 {
            return Ok(None);
        }
        let state = next_state(self.state);
        let command = command_of(alloc, self.ordinal, state >> 33)?;
        self.left -= 1;
        self.ordinal += 1;
        self.state = state;
        Ok(Some(command))
    }
}

fn next_state(state: u64) -> u64
    ensures { result ≡ next_state state }
{
    state
        .wrapping_mul(6_364_136_223_846_793_005)
        .wrapping_add(1_442_695_040_888_963_407)
}

// The command of this ordinal that is drawn so.
fn command_of(alloc: Global, ordinal: u64, draw: u64) -> Result<Command, AllocError>
    requires { ordinal ≤ 2 ^ 32 }
    ensures { IfOk result (λ command. command ≡ command_of_draw ordinal draw) }
{
    let number = draw / 8 % 64;
    let amount = draw / 512;
    let name = name_of(alloc, number)?;
    Ok(match draw % 8 {
        0..=3 => Command::Put {
            name,
            bytes: bytes_of(alloc, ordinal + number, amount % 3000)?,
            keep: None,
        },
        4 => Command::Delete(key_of(name, amount)),
        5 => Command::Keep {
            name,
            keep: (amount % 4) as u32,
        },
        6 => Command::Get(key_of(name, amount)),
        _ => Command::Force,
    })
}

fn key_of(name: FileName, amount: u64) -> Key
    ensures { result ≡ key_of name (1 + amount % 8) }
{
    Key {
        name,
        version: (1 + amount % 8) as u32,
    }
}

fn name_of(alloc: Global, number: u64) -> Result<FileName, AllocError>
    requires { number < 64 }
    ensures { IfOk result (λ name. name ≡ made_name number) }
{
    let text = format!(in alloc; "g{number}")?;
    Ok(FileName::parse(text.as_bytes()).unwrap())
}

// So many bytes, counting up from this one.
fn bytes_of(alloc: Global, first: u64, count: u64) -> Result<Bytes, AllocError>
    requires first { first ≤ 2 ^ 33 }
    requires count { count ≤ 3000 }
    ensures { IfOk result (λ bytes. bytes ≡ map (λ j. (first + j) % 256) (range_with_len 0 count)) }
{
    let mut bytes = Vec::new(alloc);
    for place in 0..count {
        bytes.push(((first + place) % 256) as u8)?;
    }
    Ok(Bytes::from(bytes))
}
