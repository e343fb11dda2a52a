//! Watch lists: by literal the entries of the clauses that watch it.
#![tactic(auto)]

mod cursor;
mod entries;
mod listing;
mod lists;
mod part;
mod place_table;
mod places;
mod slot_list;
mod taken;
mod waiting;
mod watcher;

pub use cursor::Cursor;
pub use entries::{add_entries, remove_entries};
pub use listing::listed;
pub use lists::WatchLists;
pub use slot_list::SlotList;
pub use waiting::Waiting;
pub use watcher::Watcher;
