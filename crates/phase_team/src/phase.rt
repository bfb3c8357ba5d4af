//! A single phase, whose tiles the workers draw one by one. The program makes runs alone; this is for callers of the library.

mod crew;
mod gate;
mod shift;
mod task;
mod worker;

pub use crew::{Crew, crew_of, hand_in, work_together};
pub use gate::{Gate, NoGate};
pub use shift::{Shift, Task};
pub use worker::{TileWorker, Turned};
