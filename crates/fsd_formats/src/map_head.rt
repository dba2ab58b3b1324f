/// What the head of a sector of a saved map says: in which epoch it was saved, its number in the map, and what the name
/// table had, the pages that paths from page 0 reach and its versions.
#[derive(Clone, Copy, Debug, PartialEq, Eq)]
pub struct MapHead {
    pub epoch: u32,
    pub index: u32,
    pub pages: u32,
    pub versions: u32,
}
