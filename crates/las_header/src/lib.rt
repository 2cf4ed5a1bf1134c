//! The public header block of LAS files (ASPRS LAS Specification 1.4 R15, "Public Header Block"; that of LAS 1.2 and 1.3 is its
//! beginning): its bytes and the header that they stand for.
#![tactic(auto)]

mod block;
mod faults;
mod form;
mod reading;
mod scales;
mod versions;
mod writing;

pub use block::Header;
pub use faults::{HeaderAxis, HeaderFault, ScaleFault};
pub use form::Format;
pub use reading::read_header;
pub use scales::{scale_of_word, scales_have_their_words};
pub use versions::{LONGEST_BLOCK, block_size, fits_count, is_version, takes_format};
pub use writing::write_header;
