//! Laws of the definitions. These functions do nothing when they run: their clauses are what is proved.

pub mod answered;
pub mod boards;
pub mod fates;
pub mod history;
pub mod lanes;
pub mod late_answers;
pub mod links;
pub mod reading;
pub mod sends;
