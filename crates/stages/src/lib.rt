//! Stages: each splits one factor off a job's polynomial, by Weierstrass preparation, and leaves the
//! product of the later ones to the next.
#![tactic(auto)]

// what a row of a stage is of, and what it holds
mod item;
mod title;

// how a factor is split off
mod splitter;

// a stage with its row, and all stages of a job
mod line;
mod own_rows;
mod raising;
mod stage;

// a line that is raised in rounds, in which stages work side by side
mod round;
mod upstream;
mod workers;
// stages taken out of their line, and stages whose rows are shared with readers
mod shared;
mod taking;

// stages that step in any order
mod schedule;

pub use item::StageItem;
pub use line::{Line, LineView};
pub use own_rows::empty_rows;
pub use schedule::{Core, run_schedule};
pub use shared::{SharedRowsView, SharedStageView};
pub use stage::{Stage, StageView};
pub use taking::StagesView;
pub use title::StageTitle;
