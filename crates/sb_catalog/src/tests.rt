//! Each refusal with a definition that meets it and one that just doesn't, look-ups, and
//! what messages lack.

mod arrivals;
mod look_ups;
mod made;
mod many;
mod refusals;
