//! Pages of the name table: how they are spelled and read, what they have as values, and steps over them.
#![tactic(auto)]

mod cut;
mod entries;
mod fault;
mod fits;
mod laws;
mod marks;
mod node;
mod pages;
mod parting;
mod reading;
mod text;
mod vec_pages;
mod ways;
mod writing;

pub use cut::Cut;
pub use entries::{
    EntryList, JoinedList, Side, entries_with, entries_without, joined, listed, put_among, used,
};
pub use fault::{PageFault, read_page};
pub use fits::node_fits;
pub use fsd_formats::{Entry, Page, PageKind, Separator};
pub use laws::pages_are_read;
pub use node::{Entries, Node, Ways, node_in};
pub use pages::{MOST_CHANGED, MOST_REACHED, Pages};
pub use parting::{Fuller, fuller_with, leaf_cut, middle};
pub use reading::{first_child, leaf_entry, separator};
pub use text::{LeafText, text_with, write_text};
pub use vec_pages::VecPages;
pub use ways::{
    SeparatorList, WideList, joined_ways, listed_ways, ways_before, ways_replaced, ways_with,
    ways_without,
};
pub use writing::{
    LEAST_USED, PAGE_ROOM, entry_len, stamp_page, write_entries, write_free, write_interior,
    write_leaf, write_ways,
};
