//! The top call of lasline: the words of a command line, the files, and what is printed.
#![tactic(auto)]

mod count;
mod generating;
mod naming;
mod pages;
mod pipeline_file;
mod planning;
mod printing;
mod program;
mod running;
mod solo;
mod status;
mod texts;
mod threads;
mod words;

pub use plug_stages::Plugs;
pub use program::{AlwaysOpen, run_program};
pub use run_report::{Fault, Place, Refusal, StageCount, fault_text, report_text};
pub use solo::{lasline_solo, refused};
pub use status::Status;
pub use threads::{lasline, lasline_plugged};
