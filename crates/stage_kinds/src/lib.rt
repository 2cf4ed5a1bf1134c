//! The stages of a pipeline: what each does with the points of its inputs.
#![tactic(auto)]

mod beginning;
mod file_form;
mod file_writer;
mod gatherer;
mod held;
mod judging;
mod laws;
mod making;
mod stage_work;
mod view_files;
mod view_writing;
mod writer_stage;

pub use beginning::{FileBeginErr, begin_file};
pub use file_form::{FileForm, StageForm, Writing};
pub use file_writer::FileWriter;
pub use gatherer::Gatherer;
pub use held::Held;
pub use laws::stages_stream;
pub use making::Making;
pub use stage_work::{StageState, StageWork};
pub use view_files::ViewFiles;
pub use view_writing::{ViewErr, write_view};
pub use writer_stage::{TakeErr, WriterStage};
