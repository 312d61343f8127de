//! What an item does to the files of a list: `apply` answers the reply, and the puts by which the files stand for the list after the item. It
//! does the step of the plain list, and every number counts once.
#![tactic(auto)]

mod deliveries;
mod floor_rise;
mod floors;
mod held_decisions;
mod item_effects;
mod laws;
mod loader;
mod memo;
mod operator_acts;
mod remembered_files;
mod sent_reports;
mod slots;
mod timed_runs;

pub use floors::floor;
pub use item_effects::{apply, apply_with_memo};
pub use laws::{law_damage, law_undamaged};
pub use loader::load;
pub use memo::Memo;
