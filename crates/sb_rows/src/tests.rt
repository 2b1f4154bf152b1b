//! Locks in every order, and rows as operations leave them.

mod locks;
mod made;
mod rows;
