//! What is printed of a run: its report, or the line that says why it was refused.
#![tactic(auto)]

mod faults;
mod padded;
mod refusal;
mod report;
mod tally;
mod text;

pub use faults::fault_text;
pub use refusal::{Fault, Place, Refusal};
pub use report::{Report, StageCount, report_text};
pub use tally::{Label, Note, TallyLine};
