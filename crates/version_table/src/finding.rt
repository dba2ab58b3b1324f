//! Versions that are looked up to be taken out or changed.
ghost use Rattle.std.specs.Prelude.{◌≡◌, ◌<◌, ◌≤◌, IfOk, IfErr, Err, Some, None, length};
ghost use Rattle.fsd_files.specs.Answers.{entry_of, highest_entry};
ghost use Rattle.name_btree.specs.Lookup.{IsMetAs, ShowsAbsent, ShowsNoVersion};
ghost use Rattle.name_btree.specs.Path.{HasPath};
ghost use Rattle.name_page.specs.declared.pages.TheConstants.{MOST_REACHED};
ghost use Rattle.name_page.specs.Looks.{NeedsNoMore, OnlyWalks};
ghost use Rattle.version_table.specs.Fault.{outer_met, FailsLook, FailsToFindVersion, NamesInside, ShowsLook};
ghost use Rattle.version_table.specs.Newest.{IsNewest, StaysAtNewest};
ghost use Rattle.version_table.specs.Table.{OfTable};

use crate::fault::VersionFault;
use fsd_bytes::{FileName, Key};
use name_btree::{FoundEntry, find, highest};
use name_page::Pages;

/// The version with a key, in a step of its own. NoSuch is told where the leaf at the key has no such entry.
pub fn version_at<T: Pages>(t: &mut T, key: &Key) -> Result<FoundEntry, VersionFault>
    requires { MOST_REACHED ≤ (T.step t.old).most_reached }
    ensures walks { OnlyWalks T.Pages (outer_met result) t.old t.new }
    ensures among { 0 < length (T.step t.old).images → IfErr result (NamesInside (length (T.step t.old).images)) }
    ensures met { IfOk result (IsMetAs (T.step t.new) (λ e. e.key ≡ key.now)) }
    ensures found { IfOk result (λ found. OfTable T.Pages t.old t.new (λ table. entry_of key.now table ≡ Some found.entry)) }
    ensures absent { result ≡ Err VersionFault.NoSuch → ShowsAbsent (T.step t.new) key.now }
    ensures fault { IfErr result (FailsLook T.Pages t.new (OfTable T.Pages t.old t.new (λ table. entry_of key.now table ≡ None)) ⊥) }
    ensures shown { IfErr result (ShowsLook (T.step t.new)) }
{
    t.rest();
    match find(t, key) {
        Ok(Some(found)) => Ok(found),
        Ok(None) => Err(VersionFault::NoSuch),
        Err(fault) => Err(VersionFault::Table(fault)),
    }
}

/// The highest version of a name, in a step of its own.
/// NoSuch is told where what stands last up to the name has another.
pub fn newest<T: Pages>(t: &mut T, name: &FileName) -> Result<FoundEntry, VersionFault>
    requires { MOST_REACHED ≤ (T.step t.old).most_reached }
    ensures walks { OnlyWalks T.Pages (outer_met result) t.old t.new }
    ensures memory { HasPath T.Pages name.now t.old → StaysAtNewest T.Pages t.old t.new result }
    ensures full { NeedsNoMore T.Pages (outer_met result) t.old t.new }
    ensures found { IfOk result (IsNewest T.Pages name.now t.old t.new) }
    ensures absent { result ≡ Err VersionFault.NoSuch → ShowsNoVersion (T.step t.new) name.now }
    ensures failed { IfErr result (FailsToFindVersion T.Pages t.old t.new (OfTable T.Pages t.old t.new (λ table. highest_entry name.now table ≡ None)) ⊥) }
{
    t.rest();
    match highest(t, name) {
        Ok(Some(found)) => Ok(found),
        Ok(None) => Err(VersionFault::NoSuch),
        Err(fault) => Err(VersionFault::Table(fault)),
    }
}
