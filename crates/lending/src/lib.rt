//! A value that one thread lends to another, and that comes back changed as both have agreed.
#![tactic(auto)]

mod desk;
mod rule;
mod terms;
mod view;

pub use desk::{Borrower, Lender, NotYet, RETURNED, lending};
pub use terms::Terms;
pub use view::EndView;
