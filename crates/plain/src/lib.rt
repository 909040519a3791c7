// The plain set: points in key order. What every call of an index is measured by.
#![tactic(auto)]

mod order;
mod point;
mod slice;
mod theorems;
mod window;

pub use order::{key_order, rank_order};
pub use point::{Key, Point};
pub use slice::{
    count_matches, find, is_inside, is_later, is_match, is_reaching, list_first, sum_window,
};
pub use theorems::{orders_hold, set_laws_hold, sums_grow, worked_windows_hold};
pub use window::Window;
