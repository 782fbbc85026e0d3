//! Laws of the definitions. These functions do nothing when they run: their clauses are what is proved.

pub mod book;
pub mod coding;
pub mod entries;
pub mod finished;
pub mod offers;
