//! The two home copies of each name page: one whole copy is enough to read the page.
#![tactic(auto)]

mod heal;
mod home;
mod roots;
mod twins;

pub use heal::{heal_anchor, heal_page, heal_root, heal_roots};
pub use home::{read_home, write_a, write_b, write_home};
pub use roots::write_roots;
pub use twins::{heal_pages, heal_twins};
