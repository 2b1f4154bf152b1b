//! States, groups and handles of sides, as entries leave them.

mod acceptance;
mod handles;
mod made;
mod many;
mod states;
