//! An image in a real file, and the machine over it, standard input and standard output.
//!
//! **The file.** A file of slots of 520 bytes: the slot of sector s begins at byte 520 * s and holds the sector's 512
//! bytes, then s, then a check of the bytes, both as big-endian u32. Anything else in its place reads as a damaged
//! sector: a slot of zeros, as a new file has them, one whose bytes or check have changed, and one that belongs to
//! another sector. An image has as many sectors as its file has whole slots,
//! and what follows the last one is not looked at.
//!
//! **One run at a time.** An attach locks its file for this opening alone, without waiting, before it reads or changes
//! a byte; where another opening has it locked, the attach fails. The lock lasts until the machine attaches again or is
//! dropped. A file system that has no such lock can keep no image.
//!
//! **A new image in the place of an old one.** The file grows first, and takes room behind its bytes for what a format
//! writes; where either fails it is cut back, and has the old image. Only then is it emptied, and a call that fails
//! behind that leaves no image.
//!
//! **Never standard input, output or error.** An attach first sees that these three are open. One that was closed is on
//! the null device from then on, opened so that a read of it or a write to it still fails. That the image's file is
//! none of them is proved of the number that it was opened under.
//!
//! **Syncs.** A write that answers Ok is read as written from then on. Its slots are with the system, or wait in memory:
//! the last ones of its run of adjacent sectors, 64 at most, so that the system is given a run by few calls. On the disk
//! they are behind a sync (`fdatasync`). So a power failure may take what was written since the last sync, and where the
//! program is killed what waits is lost. What each call does:
//! - a write directly behind the last one goes on with its run, and syncs nothing; the system is given 64 slots as the
//!   next one comes, and those that wait where memory for more is refused;
//! - a write elsewhere first gives the system what waits and syncs the run, where there is one, and begins another;
//! - `sync`, `extend`, `healing`, `settle` and `attach` do the same, and begin none: behind an Ok of them nothing waits;
//! - an `extend` then cuts the file behind the last slot that was told, so that no bytes behind it become a part of one,
//!   lets it grow by slots of zeros, and syncs that as well; its new slots are a run that may not be there, also where the
//!   file did not grow so far, and a later call syncs them;
//! - an attach also syncs the image that it has found or made: a run of the program that was killed may have written it;
//! - `read` syncs nothing; where it asks the file, the system is first given what waits, so that the file has all that
//!   was written;
//! - `take` and `say` do nothing of this. A machine that is dropped gives the system what waits, and syncs nothing.
//!
//! **Why the order is kept.** All that was written before a run is on the disk when the run begins. So a power failure
//! leaves the image of some moment since the last sync: some first sectors of the last run, as in the middle of a write,
//! and all that came before. For this the sectors of a run are taken to reach the disk in ascending order, as those of
//! one write of several sectors are. Where the program alone is killed it is the same: what waits are the last sectors of
//! the run, and the system has all that came before.
//!
//! **A sync that fails**, or a run that the system does not take. What was written since the last sync may be lost, though
//! its writes answered Ok. So this call and each later one of the disk fail, and no sector is given, also of those that were
//! read ahead. This lasts until the machine is dropped. A `sync` tells the first sector of the run that may be lost, those
//! that waited among it, and so does each later one. A read or a write tells its own place, which may not be that of the
//! sector that was not written, and the other calls tell 0.
//!
//! **Read ahead.** A read of a sector whose slot is not in memory reads a block of 64 slots at once, and up to 80 such
//! blocks are kept, of which the least recently used one gives way; reads of these ask the file no more, until one of their
//! sectors is written, the image grows (`extend`), or a window begins or ends (`attach`, `healing`, `settle`). A block that
//! the file does not give whole is not kept. A sector that has become damaged meanwhile is read as such later in the same
//! window, so what an honest disk does is what an honest machine may do.
//!
//! **Memory** is taken for blocks and for what waits, 2.7 MB at most. Where it is refused a sector is read or written by
//! a call of its own, and no call fails for that.
//!
//! **What is trusted.** `FileMachine` meets the contract of `Machine` and tells nothing of content: no contract can say
//! what a file, a disk or a terminal gives or takes. That slots are spelled and read as they should be is proved, and
//! of the disk inside this crate what it tells as synced: all behind an Ok of `sync`, `extend`, `healing`, `settle` and
//! `attach`, with nothing that waits, and all but one run behind a write; that what waits lies in that run and ends where it
//! does, each slot of a write in its own place, as it is spelled; that a sector that waits is read from there, and no block
//! that is read ahead has one; and that it fails each call once a sync has failed or a run was not taken, a sync with the
//! first sector of that run. That it tells so only where the system has synced (`Disk::bring`, which an attach calls too)
//! and was given what waits (`Stretch::write_out`), that each slot of a write waits or is given (`pending::extend`), that a
//! file grows by as many slots as are asked for (`ImageFile::widen`), and that each call of the machine is one of the disk,
//! is seen in the code.
//!
//! These are taken on trust, and tried on a real file by the tests:
//! - each slot is read and written in its own place;
//! - a lock keeps other runs of the program away, and nothing else writes the file, the program's own output included;
//! - what the system has synced is on the disk, what earlier runs of the program wrote to the file among it, and a new
//!   file is found again under its name; where a sync of an earlier run has failed, that what reads show since is what the
//!   disk has, which a system that kept the lost bytes in its memory would not do;
//! - the sectors of a run of adjacent ones, which one write or several have written upwards, reach the disk in ascending
//!   order, and none that the system has been given is lost where the program alone is stopped;
//! - a write that fails or is stopped has put some first slots of it, and a run that a power failure cuts some first slots
//!   of the run; no more of them are damaged, a torn one among them, than the open windows allow;
//! - a file that grows, is written behind its end and cut back to its length has the bytes that it had; one that is cut
//!   and grows has those in front of the cut, and zeros from there on;
//! - a file that is opened gets a number that is free, and one that stays open keeps it;
//! - the input's bytes come and the console's go in order.
#![tactic(auto)]

mod ahead;
mod disk;
mod file_machine;
mod image;
mod pending;
mod slot;
mod standing;
mod stretch;

pub use file_machine::FileMachine;
pub use slot::{SLOT_BYTES, read_slot, slot_of};
