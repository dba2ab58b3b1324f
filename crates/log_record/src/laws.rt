//! Laws of records, for each gap: 0 on a volume that bears two damaged sectors, 1 on one that bears three. The functions
//! do nothing, the contract of each is a law.
ghost use Rattle.std.specs.Prelude.{◌≡◌, ◌⊎◌, ◌+◌, ◌*◌, ◌<◌, ◌≤◌, ◌^◌, ℕ, List, Some, None, false, length, replicate};
ghost use Rattle.fsd_formats.specs.Record.{Stamp, record_len};
ghost use Rattle.fsd_log.specs.Judged.{Reader, Logged, Serving, judged, record_in, sector_in};
ghost use Rattle.fsd_log.specs.Good.{IsGood};
ghost use Rattle.fsd_log.specs.Reach.{reach};
ghost use Rattle.fsd_log.specs.Borne.{Foreign, FitsStamp, ReadsLess};
ghost use Rattle.fsd_log.specs.Laid.{AreLaid, IsTorn, laid_bytes, new_record};
ghost use Rattle.fsd_log.specs.Plain.{plain_record};

/// A record is judged good exactly where, by its header or the header's copy,
/// of each other sector and its copy one serves.
pub fn records_are_good_where_copies_serve()
    ensures good { (gap p : ℕ) (stamp : Stamp) (room : ℕ) (at : Reader) (found : Serving) → judged gap p stamp room at ≡ Some found → IsGood gap p stamp room at found.pages }
    ensures not_there { (gap p : ℕ) (stamp : Stamp) (room : ℕ) (at : Reader) (pages : List ℕ) → judged gap p stamp room at ≡ None → IsGood gap p stamp room at pages → ⊥ }
{}

/// A record that is laid is good by its first sectors, and still there where two adjacent sectors of it and the gap were lost.
pub fn laid_records_are_good()
    ensures good { (gap p : ℕ) (stamp : Stamp) (pages images : List ℕ) (room : ℕ) (at : Reader) → AreLaid p stamp pages images →
        record_len gap (length pages) ≤ room → ((k : ℕ) → k < record_len gap (length pages) → at k ≡ Some (sector_in (laid_bytes gap stamp pages images) k)) →
        judged gap p stamp room at ≡ Some (record { pages = pages; header_copy = false; end_copy = false; page_copy = replicate (length pages) false }) }
    ensures outlasts { (gap p : ℕ) (stamp : Stamp) (pages images : List ℕ) (room w : ℕ) (at : Reader) → AreLaid p stamp pages images →
        record_len gap (length pages) ≤ room →
        ((k : ℕ) → k < record_len gap (length pages) → (at k ≡ Some (sector_in (laid_bytes gap stamp pages images) k)) ⊎ (Foreign stamp (at k) × (w ≤ k) × (k < w + (2 + gap)))) →
        record_in gap p stamp room at ≡ Some (new_record stamp pages images) }
{}

/// A record of which some first sectors were written is there from its end on, and not before. Where sectors of it are
/// hurt too, whichever, it is not there before its end was written, and whole or absent from then on.
pub fn torn_records_are_whole_or_absent()
    ensures there { (gap p : ℕ) (stamp : Stamp) (pages images : List ℕ) (room stood : ℕ) (old new : Reader) → AreLaid p stamp pages images →
        record_len gap (length pages) ≤ room → IsTorn (laid_bytes gap stamp pages images) stood old new → 3 + gap + length pages < stood →
        record_in gap p stamp room new ≡ Some (new_record stamp pages images) }
    ensures absent { (gap p : ℕ) (stamp : Stamp) (pages images : List ℕ) (room stood : ℕ) (old new : Reader) → AreLaid p stamp pages images →
        record_len gap (length pages) ≤ room → IsTorn (laid_bytes gap stamp pages images) stood old new → stood ≤ 3 + gap + length pages →
        ((k : ℕ) → Foreign stamp (old k)) → record_in gap p stamp room new ≡ None }
    ensures hurt_absent { (gap p : ℕ) (stamp : Stamp) (pages images : List ℕ) (room stood : ℕ) (at : Reader) → AreLaid p stamp pages images → stood ≤ 3 + gap + length pages →
        ((k : ℕ) → k < record_len gap (length pages) → ((at k ≡ Some (sector_in (laid_bytes gap stamp pages images) k)) × (k < stood)) ⊎ Foreign stamp (at k)) → record_in gap p stamp room at ≡ None }
    ensures hurt { (gap p : ℕ) (stamp : Stamp) (pages images : List ℕ) (room : ℕ) (at : Reader) → AreLaid p stamp pages images →
        ((k : ℕ) → k < record_len gap (length pages) → (at k ≡ Some (sector_in (laid_bytes gap stamp pages images) k)) ⊎ Foreign stamp (at k)) →
        (record_in gap p stamp room at ≡ None) ⊎ (record_in gap p stamp room at ≡ Some (new_record stamp pages images)) }
{}

/// Where other sectors only come to bear nothing of a record, it stays as it was:
/// there, if its own sectors stay, or not there.
pub fn records_stay()
    ensures there { (gap p : ℕ) (stamp : Stamp) (room : ℕ) (old new : Reader) (r : Logged) → FitsStamp stamp → ReadsLess stamp old new →
        record_in gap p stamp room old ≡ Some r → ((k : ℕ) → k < record_len gap (length r.pages) → new k ≡ old k) → record_in gap p stamp room new ≡ Some r }
    ensures absent { (gap p : ℕ) (stamp : Stamp) (room : ℕ) (old new : Reader) → FitsStamp stamp → ReadsLess stamp old new →
        record_in gap p stamp room old ≡ None → record_in gap p stamp room new ≡ None }
{}

/// The copies that are named as serving are those that a plain reading takes.
pub fn records_read_plainly()
    ensures plain { (gap p : ℕ) (stamp : Stamp) (room : ℕ) (at : Reader) → plain_record gap p stamp room at ≡ record_in gap p stamp room at }
{}

/// Which record sectors begin, and with which images, those say that the headers reach, whatever stands beyond.
pub fn sectors_beyond_a_record_have_no_part()
    ensures { (gap p : ℕ) (stamp : Stamp) (room far : ℕ) (all part : Reader) → far ≤ room → ((k : ℕ) → k < far → part k ≡ all k) → part 0 ≡ all 0 → part (2 + gap) ≡ all (2 + gap) →
        reach gap p stamp room part ≤ far → record_in gap p stamp far part ≡ record_in gap p stamp room all }
{}
