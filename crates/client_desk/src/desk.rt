//! The desk of a volume.
ghost use Rattle.std.specs.Prelude.{◌≡◌, ◌<◌, ◌≤◌, ◌^◌, ◌||◌, ◌+◌, ◌-◌, Err, IfOk, List, [], ℕ, length, MatchResult, None, set};
ghost use Rattle.sector_disk.specs.Calls.{OnlyReads, WritesDisk, device_in};
ghost use Rattle.fsd_files.specs.Desk.{Open, Reads, Writes};
ghost use Rattle.fsd_formats.specs.NamePage.{sectors_for};
ghost use Rattle.fsd_bytes.specs.declared.key.Key.{Key as KeyOf};
ghost use Rattle.run_table.specs.declared.run.Run.{Run};
ghost use Rattle.fsd_bytes.specs.declared.key.Serial.{Serial};
ghost use Rattle.fsd_bytes.specs.declared.refusal.Refusal.TheVariants as Why;
ghost use Rattle.sector_disk.specs.Machine.{Moment};
ghost use Rattle.fsd_sound.specs.Writes.{force_writes};
ghost use Rattle.volume_contract.specs.Causes.{Causes};
ghost use Rattle.volume_contract.specs.Ends.{device_of};
ghost use Rattle.volume_contract.specs.Order.{Follows, enter_steps, held_steps, slices_steps};
ghost use Rattle.volume_contract.specs.Pieces.{reserve_len, with_opened};
ghost use Rattle.volume_contract.specs.State.{Known, Leaves, Stands, State, no_readers, none_open, WritesWithin, change_len};
ghost use Rattle.volume_contract.specs.Telling.{IsDamagedData};
ghost use Rattle.client_desk.specs.Clients.{AllStays, CausesOpening, ClosesClient, Continuing, DeclinesAt, Ended, EndsDraftAt, MayCome, IsWholeOne, IsWriter, LeavesNone, in_data, in_first, GivesUpPart, ContinuesReading, IsClient, IsDesk, IsOf, IsReader, KeepsClosing, KeepsDesk, ReadsMore, StartsReading, StartsWriting, WritesMore, client_at, as_idle, as_reading, as_writing, begin_steps, close_steps, declared_at, done_steps, drop_steps, found, client_key, left_at, desk_next_steps, no_desk, open_steps, piece_len, piece_steps, client_place, too_long, too_short};
ghost use Rattle.client_desk.specs.Ends.{EndsBegin, EndsClose, EndsEntering, EndsPiece, EndsPieces, LeavesFor, LeavesOf, EndsDone, EndsDrop, EndsNext, EndsOpen, IsOpenIn, ReadsOn, ServesOpen, Sits, given_up};

use crate::client::{Client, Creation, Reader, end};
use crate::pieces::add;
use fsd_bytes::{FileName, Key, Refusal};
use sector_disk::Machine;
use std::marker::Model;
use std::mem;
use volume_contract::{Draft, Files};

/// Eight clients, numbered from 1 on.
///
/// Over a volume that was just mounted a new desk has what `IsDesk` says, and over an honest machine what `Sits` says
/// too; each call keeps both. What a call's `done` says it answers of the session that sat before, and the session that it
/// leaves sits then. So of any list of calls, whichever client makes each, the replies are those of the definitions in
/// turn: what one call left is what the next one takes. A call of the volume itself may come between two of them: it keeps
/// what is open, and so the desk. At the end `finish` spends the desk.
pub struct Desk {
    first: Client,
    second: Client,
    third: Client,
    fourth: Client,
    fifth: Client,
    sixth: Client,
    seventh: Client,
    eighth: Client,
}

impl Model for Desk {
    ghost use Rattle.std.specs.Prelude.{List, [], ◌∷◌};
    ghost use Rattle.client_desk.specs.declared.client.Client.{Client};
    ghost use Rattle.client_desk.specs.Clients.{IsClient};

    ghost Value = { List Client };

    ghost view = { λ d. d.first ∷ d.second ∷ d.third ∷ d.fourth ∷ d.fifth ∷ d.sixth ∷ d.seventh ∷ d.eighth ∷ [] };

    ghost invariant = { λ d. IsClient d.first × IsClient d.second × IsClient d.third × IsClient d.fourth × IsClient d.fifth × IsClient d.sixth × IsClient d.seventh × IsClient d.eighth };
}

// A creation of which no bytes came yet.
fn begun(name: &FileName, draft: Draft) -> Creation
    ensures name { result.name ≡ name.now }
    ensures draft { result.draft ≡ draft }
    ensures got { result.got ≡ 0 }
{
    Creation {
        name: name.copied(),
        draft,
        got: 0,
        slice: [0; 512],
    }
}

// The place of a client.
fn place_of(c: u32) -> Result<usize, Refusal>
    ensures is { result ≡ client_place c }
    ensures inside { IfOk result (λ i. i < 8) }
{
    if 1 <= c && c <= 8 {
        Ok(c as usize - 1)
    } else {
        Err(Refusal::BadClient(c))
    }
}

impl Desk {
    /// No client has anything open.
    pub fn new() -> Desk
        ensures idle { result ≡ no_desk }
        ensures desk { (s : State) → s.unfinished ≡ [] → s.readers ≡ no_readers → IsDesk s result }
    {
        Desk {
            first: Client::Idle,
            second: Client::Idle,
            third: Client::Idle,
            fourth: Client::Idle,
            fifth: Client::Idle,
            sixth: Client::Idle,
            seventh: Client::Idle,
            eighth: Client::Idle,
        }
    }

    // The client at this place.
    fn at(&self, place: usize) -> &Client
        requires { place < 8 }
        ensures client { result.now ≡ client_at self.now place }
        ensures size { length self.now ≡ 8 }
        ensures valid { IsClient result.now }
    {
        match place {
            0 => &self.first,
            1 => &self.second,
            2 => &self.third,
            3 => &self.fourth,
            4 => &self.fifth,
            5 => &self.sixth,
            6 => &self.seventh,
            _ => &self.eighth,
        }
    }

    // Puts a client in the place of another.
    fn swap(&mut self, place: usize, client: Client) -> Client
        requires inside { place < 8 }
        requires valid { IsClient client }
        ensures was { result ≡ client_at self.old place }
        ensures clients { self.new ≡ set self.old place client }
        ensures valid { IsClient result }
    {
        match place {
            0 => mem::replace(&mut self.first, client),
            1 => mem::replace(&mut self.second, client),
            2 => mem::replace(&mut self.third, client),
            3 => mem::replace(&mut self.fourth, client),
            4 => mem::replace(&mut self.fifth, client),
            5 => mem::replace(&mut self.sixth, client),
            6 => mem::replace(&mut self.seventh, client),
            _ => mem::replace(&mut self.eighth, client),
        }
    }

    // The place of a client that has nothing open.
    fn idle_at(&self, c: u32) -> Result<usize, Refusal>
        ensures is { result ≡ found as_idle self.now c }
        ensures inside { IfOk result (λ i. (i < 8) × (length self.now ≡ 8)) }
    {
        let place = place_of(c)?;
        match self.at(place) {
            Client::Idle => Ok(place),
            _ => Err(Refusal::Busy(c)),
        }
    }

    // The place of a client that writes.
    fn writing_at(&self, c: u32) -> Result<usize, Refusal>
        ensures is { result ≡ found as_writing self.now c }
        ensures inside { IfOk result (λ i. (i < 8) × (length self.now ≡ 8)) }
    {
        let place = place_of(c)?;
        match self.at(place) {
            Client::Writing(_) => Ok(place),
            _ => Err(Refusal::Idle(c)),
        }
    }

    // The place of a client that reads.
    fn reading_at(&self, c: u32) -> Result<usize, Refusal>
        ensures is { result ≡ found as_reading self.now c }
        ensures inside { IfOk result (λ i. (i < 8) × (length self.now ≡ 8)) }
    {
        let place = place_of(c)?;
        match self.at(place) {
            Client::Reading(_) => Ok(place),
            _ => Err(Refusal::Idle(c)),
        }
    }

    // What the client at this place has open from now on; it had nothing.
    fn set<M: Machine, V: Files<M>>(&mut self, v: &mut V, place: usize, client: Client)
        requires inside { place < 8 }
        requires valid { IsClient client }
        requires idle { client_at self.old place ≡ Client.Idle }
        ensures volume { v.new ≡ v.old }
        ensures clients { self.new ≡ set self.old place client }
    {
        end(v, self.swap(place, client));
    }

    // Takes out what the client at this place has open.
    fn take(&mut self, place: usize) -> Client
        requires { place < 8 }
        ensures client { result ≡ client_at self.old place }
        ensures clients { self.new ≡ set self.old place Client.Idle }
        ensures valid { IsClient result }
    {
        self.swap(place, Client::Idle)
    }

    // Gives up what the client at this place has open.
    fn end_at<M: Machine, V: Files<M>>(&mut self, v: &mut V, place: usize)
        requires inside { place < 8 }
        requires of { IsOf (V.state v.old) (client_at self.old place) }
        ensures state { GivesUpPart (client_at self.old place) (V.state v.old) (V.state v.new) }
        ensures clients { self.new ≡ set self.old place Client.Idle }
        ensures done { (k : Known) (now : Moment) → IsOpenIn k.opened (client_at self.old place) → Stands V.state V.holds v.old k now →
            Stands V.state V.holds v.new (given_up k (client_at self.old place)) now }
    {
        end(v, self.swap(place, Client::Idle));
    }

    /// Begins a version of so many bytes.
    pub fn begin<M: Machine, V: Files<M>>(
        &mut self,
        v: &mut V,
        m: &mut M,
        c: u32,
        name: &FileName,
        length: u64,
    ) -> Result<(), Refusal>
        requires room { (V.state v.old).layout.sectors ≤ (M.report m.old).sectors }
        requires desk { IsDesk (V.state v.old) self.old }
        ensures order { Follows (begin_steps (V.state v.old) self.old c length) result }
        ensures disk { WritesDisk M.Machine (device_in device_of result) (Leaves V.state V.holds v.old (force_writes (V.state v.old).layout)) m.old m.new }
        ensures writes { WritesWithin M.Machine (force_writes (V.state v.old).layout) (reserve_len (V.state v.old) (sectors_for length)) m.old m.new result }
        ensures state { KeepsDesk (λ x. StartsWriting (c - 1) name.now length) (DeclinesAt (begin_steps (V.state v.old) self.old c length)) self.old self.new (V.state v.old) (V.state v.new) result }
        ensures causes { Causes M.Machine (V.resident v.old) (V.state v.old) (V.state v.new) m.old m.new result }
        ensures done { M.honest m.new → (k : Known) (clients : List Open) → Sits V.state V.holds v.old self.old k clients (M.now m.old) →
            EndsBegin V.state V.holds c name.now length k clients v.new self.new (M.now m.new) result }
    {
        match self.idle_at(c) {
            Ok(place) => match v.reserve(m, length) {
                Ok(draft) => {
                    self.set(v, place, Client::Writing(begun(name, draft)));
                    Ok(())
                }
                Err(why) => Err(why),
            },
            Err(why) => Err(why),
        }
    }

    // Why so many bytes more are too many for a client that writes.
    fn long_at(&self, place: usize, count: usize) -> Option<Refusal>
        requires inside { place < 8 }
        requires small { count < 2 ^ 63 }
        ensures is { result ≡ too_long (client_at self.now place) count }
        ensures room { result ≡ None → IsWriter (client_at self.now place) → MayCome (client_at self.now place) count }
    {
        match self.at(place) {
            Client::Writing(w) if count > (w.draft.length - w.got) as usize => {
                Some(Refusal::Long {
                    declared: w.draft.length,
                    got: w.got as u64 + count as u64,
                })
            }
            _ => None,
        }
    }

    // Why the bytes so far are too few for a client that writes.
    fn short_at(&self, place: usize) -> Option<Refusal>
        requires { place < 8 }
        ensures is { result ≡ too_short (client_at self.now place) }
        ensures whole { result ≡ None → IsWriter (client_at self.now place) → IsWholeOne (client_at self.now place) }
    {
        match self.at(place) {
            Client::Writing(w) if w.got < w.draft.length => Some(Refusal::Short {
                declared: w.draft.length,
                got: w.got,
            }),
            _ => None,
        }
    }

    /// Puts bytes behind those of the version that a client writes, and answers how many came so far. Where the disk
    /// fails, or the volume is down, the version is given up. It takes no memory.
    pub fn piece<M: Machine, V: Files<M>>(
        &mut self,
        v: &mut V,
        m: &mut M,
        c: u32,
        bytes: &[u8],
    ) -> Result<u32, Refusal>
        requires room { (V.state v.old).layout.sectors ≤ (M.report m.old).sectors }
        requires desk { IsDesk (V.state v.old) self.old }
        ensures order { Follows (piece_steps (V.state v.old) self.old c (length bytes.now)) result }
        ensures disk { WritesDisk M.Machine (device_in device_of result) (LeavesOf V.state V.holds v.old self.old (in_data (client_at self.old (c - 1)))) m.old m.new }
        ensures writes { let client = client_at self.old (c - 1) in
            WritesWithin M.Machine (in_data client) (piece_len client (length bytes.now)) m.old m.new result }
        ensures state { KeepsDesk (WritesMore (c - 1) (length bytes.now)) (λ why. EndsDraftAt why (c - 1)) self.old self.new (V.state v.old) (V.state v.new) result }
        ensures done { M.honest m.new → (k : Known) (clients : List Open) → Sits V.state V.holds v.old self.old k clients (M.now m.old) →
            EndsPiece V.state V.holds c bytes.now k clients v.new self.new (M.now m.new) result }
    {
        match self.writing_at(c) {
            Ok(place) => match self.long_at(place, bytes.len()) {
                Some(why) => Err(why),
                None => {
                    let (client, came) = piece_of(self.take(place), v, m, bytes);
                    self.set(v, place, client);
                    match came {
                        Ok(total) => Ok(total),
                        Err(why) => Err(why),
                    }
                }
            },
            Err(why) => Err(why),
        }
    }

    /// How many bytes were declared of the version that a client writes.
    pub fn declared(&self, c: u32) -> Option<u32>
        ensures { result ≡ declared_at self.now (client_place c) }
    {
        let Ok(place) = place_of(c) else {
            return None;
        };
        match self.at(place) {
            Client::Writing(w) => Some(w.draft.length),
            _ => None,
        }
    }

    /// Makes a version of what a client writes, if all its bytes came. Its number is the next of its name now.
    pub fn close<M: Machine, V: Files<M>>(
        &mut self,
        v: &mut V,
        m: &mut M,
        c: u32,
    ) -> Result<Key, Refusal>
        requires room { (V.state v.old).layout.sectors ≤ (M.report m.old).sectors }
        requires desk { IsDesk (V.state v.old) self.old }
        ensures order { Follows (close_steps (V.state v.old) self.old c) result }
        ensures disk { let client = client_at self.old (c - 1) in
            WritesDisk M.Machine (device_in device_of result) (Leaves V.state V.holds v.old (λ t. force_writes (V.state v.old).layout t || in_first client t)) m.old m.new }
        ensures writes { let client = client_at self.old (c - 1) in
            WritesWithin M.Machine (λ t. force_writes (V.state v.old).layout t || in_first client t) (1 + change_len (V.state v.old)) m.old m.new result }
        ensures state { KeepsClosing (c - 1) (close_steps (V.state v.old) self.old c) self.old self.new (V.state v.old) (V.state v.new) result }
        ensures causes { Causes M.Machine (V.resident v.old) (V.state v.old) (V.state v.new) m.old m.new result }
        ensures done { M.honest m.new → (k : Known) (clients : List Open) → Sits V.state V.holds v.old self.old k clients (M.now m.old) →
            EndsClose V.state V.holds c k clients v.new self.new (M.now m.new) result }
    {
        match self.writing_at(c) {
            Ok(place) => match self.short_at(place) {
                Some(why) => Err(why),
                None => {
                    let (client, closed) = close_of(self.take(place), v, m);
                    self.set(v, place, client);
                    match closed {
                        Ok(key) => Ok(key),
                        Err(why) => Err(why),
                    }
                }
            },
            Err(why) => Err(why),
        }
    }

    /// Gives up the version that a client writes.
    pub fn drop_draft<M: Machine, V: Files<M>>(&mut self, v: &mut V, c: u32) -> Result<(), Refusal>
        requires { IsDesk (V.state v.old) self.old }
        ensures desk { IsDesk (V.state v.new) self.new }
        ensures order { Follows (drop_steps self.old c) result }
        ensures kept { MatchResult result (λ x. Ended (c - 1) self.old self.new (V.state v.old) (V.state v.new)) (λ why. (v.new ≡ v.old) × (self.new ≡ self.old)) }
        ensures done { (k : Known) (clients : List Open) (now : Moment) → Sits V.state V.holds v.old self.old k clients now →
            EndsDrop V.state V.holds c k clients v.new self.new now result }
    {
        match self.writing_at(c) {
            Ok(place) => {
                self.end_at(v, place);
                Ok(())
            }
            Err(why) => Err(why),
        }
    }

    /// Opens a version, and answers how many bytes it has.
    pub fn open_key<M: Machine, V: Files<M>>(
        &mut self,
        v: &mut V,
        m: &mut M,
        c: u32,
        key: &Key,
    ) -> Result<u32, Refusal>
        requires room { (V.state v.old).layout.sectors ≤ (M.report m.old).sectors }
        requires desk { IsDesk (V.state v.old) self.old }
        ensures order { Follows (open_steps (V.state v.old) self.old c) result }
        ensures disk { OnlyReads M.Machine (device_in device_of result) m.old m.new }
        ensures state { KeepsDesk (StartsReading (c - 1) key.now) (λ why. AllStays) self.old self.new (V.state v.old) (V.state v.new) result }
        ensures causes { CausesOpening M.Machine (V.resident v.old) (V.state v.old) (V.state v.new) m.old m.new key.now result }
        ensures done { M.honest m.new → (k : Known) (clients : List Open) → Sits V.state V.holds v.old self.old k clients (M.now m.old) →
            EndsOpen V.state V.holds c key.now k clients v.new self.new (M.now m.new) result }
    {
        match self.idle_at(c) {
            Ok(place) => match v.hold(m, key) {
                Ok(held) => {
                    let length = held.entry.length;
                    self.set(v, place, Client::Reading(Reader { held, place: 0 }));
                    Ok(length)
                }
                Err(why) => Err(why),
            },
            Err(why) => Err(why),
        }
    }

    /// Reads the next bytes of the version that a client reads, as many as are left and the buffer has room for.
    pub fn next<M: Machine, V: Files<M>>(
        &mut self,
        v: &mut V,
        m: &mut M,
        c: u32,
        buf: &mut [u8],
    ) -> Result<u32, Refusal>
        requires room { (V.state v.old).layout.sectors ≤ (M.report m.old).sectors }
        requires desk { IsDesk (V.state v.old) self.old }
        ensures order { Follows (desk_next_steps (V.state v.old) self.old c) result }
        ensures disk { OnlyReads M.Machine (device_in device_of result) m.old m.new }
        ensures state { KeepsDesk (ReadsMore (c - 1) (length buf.old)) (λ why. AllStays) self.old self.new (V.state v.old) (V.state v.new) result }
        ensures damaged { (s : ℕ) → result ≡ Err (Why.Damaged s) → M.honest m.new → IsDamagedData (V.state v.old).layout (M.now m.new).image s }
        ensures done { M.honest m.new → (k : Known) (clients : List Open) → Sits V.state V.holds v.old self.old k clients (M.now m.old) →
            EndsNext V.state V.holds c (length buf.old) (M.now m.old).image (M.now m.new).image k clients buf.old buf.new v.new self.new (M.now m.new) result }
    {
        match self.reading_at(c) {
            Ok(place) => {
                let (client, given) = next_of(self.take(place), v, m, buf);
                self.set(v, place, client);
                match given {
                    Ok(count) => Ok(count),
                    Err(why) => Err(why),
                }
            }
            Err(why) => Err(why),
        }
    }

    /// How many bytes a client has left to read.
    pub fn left(&self, c: u32) -> Option<u32>
        ensures { result ≡ left_at self.now (client_place c) }
    {
        let Ok(place) = place_of(c) else {
            return None;
        };
        match self.at(place) {
            Client::Reading(r) => Some(r.held.entry.length - r.place),
            _ => None,
        }
    }

    /// The version that a client reads.
    pub fn key(&self, c: u32) -> Option<Key>
        ensures { result ≡ client_key self.now (client_place c) }
    {
        let Ok(place) = place_of(c) else {
            return None;
        };
        match self.at(place) {
            Client::Reading(r) => Some(r.held.entry.key.copied()),
            _ => None,
        }
    }

    /// Ends a client's reading.
    pub fn done<M: Machine, V: Files<M>>(&mut self, v: &mut V, c: u32) -> Result<(), Refusal>
        requires { IsDesk (V.state v.old) self.old }
        ensures desk { IsDesk (V.state v.new) self.new }
        ensures order { Follows (done_steps self.old c) result }
        ensures kept { MatchResult result (λ x. Ended (c - 1) self.old self.new (V.state v.old) (V.state v.new)) (λ why. (v.new ≡ v.old) × (self.new ≡ self.old)) }
        ensures done { (k : Known) (clients : List Open) (now : Moment) → Sits V.state V.holds v.old self.old k clients now →
            EndsDone V.state V.holds c k clients v.new self.new now result }
    {
        match self.reading_at(c) {
            Ok(place) => {
                self.end_at(v, place);
                Ok(())
            }
            Err(why) => Err(why),
        }
    }

    /// Gives up all that the clients have open. It takes no memory, and a volume that is down does it too.
    pub fn finish<M: Machine, V: Files<M>>(self, v: &mut V)
        requires { IsDesk (V.state v.old) self }
        ensures state { LeavesNone (V.state v.old) (V.state v.new) }
        ensures done { (k : Known) (clients : List Open) (now : Moment) → Sits V.state V.holds v.old self k clients now → Stands V.state V.holds v.new (with_opened k none_open) now }
    {
        let Desk {
            first,
            second,
            third,
            fourth,
            fifth,
            sixth,
            seventh,
            eighth,
        } = self;
        end(v, first);
        end(v, second);
        end(v, third);
        end(v, fourth);
        end(v, fifth);
        end(v, sixth);
        end(v, seventh);
        end(v, eighth);
    }
}

// Puts bytes behind those of a creation; it is given up where the disk fails.
fn piece_of<M: Machine, V: Files<M>>(
    client: Client,
    v: &mut V,
    m: &mut M,
    bytes: &[u8],
) -> (Client, Result<u32, Refusal>)
    requires room { (V.state v.old).layout.sectors ≤ (M.report m.old).sectors }
    requires valid { IsClient client }
    requires of { IsOf (V.state v.old) client }
    requires writes { MayCome client (length bytes.now) }
    ensures order { Follows (slices_steps (V.state v.old) (in_data client)) result.1 }
    ensures disk { WritesDisk M.Machine (device_in device_of result.1) (LeavesFor V.state V.holds v.old client (in_data client)) m.old m.new }
    ensures writes { WritesWithin M.Machine (in_data client) (piece_len client (length bytes.now)) m.old m.new result.1 }
    ensures client { MatchResult result.1 (λ n. (V.state v.new ≡ V.state v.old) × Continuing (length bytes.now) n client result.0) (λ why. GivesUpPart client (V.state v.old) (V.state v.new) × (result.0 ≡ Client.Idle)) }
    ensures valid { IsClient result.0 }
    ensures done { M.honest m.new → (k : Known) → Stands V.state V.holds v.old k (M.now m.old) →
        (name : List ℕ) (len : ℕ) (runs : List Run) (serial : Serial) (before : List ℕ) → ServesOpen k.opened client (Writes name len runs serial before) →
        EndsPieces V.state V.holds k client result.0 name len runs serial before bytes.now v.new (M.now m.new) result.1 }
{
    match client {
        Client::Writing(w) => {
            let mut w = w;
            match add(&mut w, v, m, bytes) {
                Ok(()) => {
                    let got = w.got;
                    (Client::Writing(w), Ok(got))
                }
                Err(why) => {
                    end(v, Client::Writing(w));
                    (Client::Idle, Err(why))
                }
            }
        }
        other => (other, Ok(0)),
    }
}

// A client that writes.
fn creation(name: FileName, draft: Draft, got: u32, slice: [u8; 512]) -> Client
    ensures { result ≡ Client.Writing (record { name = name; draft = draft; got = got; slice = slice }) }
{
    Client::Writing(Creation {
        name,
        draft,
        got,
        slice,
    })
}

// Makes a version of a creation that is whole; or it stays one.
fn close_of<M: Machine, V: Files<M>>(
    client: Client,
    v: &mut V,
    m: &mut M,
) -> (Client, Result<Key, Refusal>)
    requires room { (V.state v.old).layout.sectors ≤ (M.report m.old).sectors }
    requires valid { IsClient client }
    requires of { IsOf (V.state v.old) client }
    requires whole { IsWholeOne client }
    ensures order { Follows (enter_steps (V.state v.old) None (in_first client)) result.1 }
    ensures disk { WritesDisk M.Machine (device_in device_of result.1) (Leaves V.state V.holds v.old (λ t. force_writes (V.state v.old).layout t || in_first client t)) m.old m.new }
    ensures writes { WritesWithin M.Machine (λ t. force_writes (V.state v.old).layout t || in_first client t) (1 + change_len (V.state v.old)) m.old m.new result.1 }
    ensures keeps { ClosesClient client result.0 (V.state v.old) (V.state v.new) result.1 }
    ensures causes { Causes M.Machine (V.resident v.old) (V.state v.old) (V.state v.new) m.old m.new result.1 }
    ensures done { M.honest m.new → (k : Known) → Stands V.state V.holds v.old k (M.now m.old) →
        (name : List ℕ) (len : ℕ) (runs : List Run) (serial : Serial) (bytes : List ℕ) → ServesOpen k.opened client (Writes name len runs serial bytes) →
        EndsEntering V.state V.holds name runs serial bytes k v.new (M.now m.new) result.1 }
{
    match client {
        Client::Writing(w) => {
            let slice = w.slice;
            let Creation {
                name,
                draft,
                got,
                slice: _,
            } = w;
            match v.enter(m, &name, None, draft) {
                Ok(key) => (Client::Idle, Ok(key)),
                Err((draft, why)) => (creation(name, draft, got, slice), Err(why)),
            }
        }
        other => (other, Err(Refusal::NoSuch)),
    }
}

// Reads the next bytes of a version, and goes on behind them.
fn next_of<M: Machine, V: Files<M>>(
    client: Client,
    v: &mut V,
    m: &mut M,
    buf: &mut [u8],
) -> (Client, Result<u32, Refusal>)
    requires room { (V.state v.old).layout.sectors ≤ (M.report m.old).sectors }
    requires valid { IsClient client }
    requires of { IsOf (V.state v.old) client }
    requires reads { IsReader client }
    ensures order { Follows (held_steps (V.state v.old)) result.1 }
    ensures disk { OnlyReads M.Machine (device_in device_of result.1) m.old m.new }
    ensures state { V.state v.new ≡ V.state v.old }
    ensures client { ContinuesReading (length buf.old) client result.0 result.1 }
    ensures damaged { (s : ℕ) → result.1 ≡ Err (Why.Damaged s) → M.honest m.new → IsDamagedData (V.state v.old).layout (M.now m.new).image s }
    ensures done { M.honest m.new → (k : Known) → Stands V.state V.holds v.old k (M.now m.old) →
        (key : KeyOf) (runs : List Run) (bytes : List ℕ) (place : ℕ) → ServesOpen k.opened client (Reads key runs bytes place) →
        ReadsOn (M.now m.old).image (M.now m.new).image runs bytes place buf.old buf.new result.1 × Stands V.state V.holds v.new k (M.now m.new) }
{
    match client {
        Client::Reading(Reader { held, place }) => match v.read_held(m, &held, place, buf) {
            Ok(count) => {
                let place = place + count;
                (Client::Reading(Reader { held, place }), Ok(count))
            }
            Err(why) => (Client::Reading(Reader { held, place }), Err(why)),
        },
        other => (other, Ok(0)),
    }
}
