//! Parts of the operating system: the limits of the process; its standard streams, which may be closed, non-blocking or
//! files with a size limit; and the files that the program appends records and the log to.
#![tactic(auto)]

mod limits;
mod log_file;
mod placeholders;
mod records_file;
mod standard;

pub use limits::{DESCRIPTORS, FILE_SIZE, limit_in, limit_of};
pub use log_file::{LogFile, open_log};
pub use placeholders::hold_closed;
pub use records_file::{
    LockedFiles, RecordsFault, RecordsFile, RecordsState, is_one_file, open_records,
};
pub use standard::{ERRORS, INPUT, OUTPUT, Standard};
