// The plant's numbers: what a table means, two tables, and the refusals of the whole project.
#![tactic(auto)]

mod image;
mod number_list;
mod refusals;
mod tables;

pub use image::Image;
pub use number_list::NumberList;
pub use refusals::Refusal;
pub use tables::{Element, Table};
