//! Why a line has no valid call.

/// The first error in a line of a script or of a call log, and where it is.
#[derive(Clone, Copy)]
pub struct LineFault {
    /// The number of bytes from the error to the end of the line.
    pub left: usize,
    pub kind: FaultKind,
}

/// The kind of an error in a line.
#[derive(Clone, Copy)]
pub enum FaultKind {
    /// The first word of the call is not a keyword.
    NoKeyword,
    FewerWords,
    /// The line has more words than the call.
    MoreWords,
    /// A name is empty.
    NoName,
    /// The word is not a number from 0 to this limit.
    NoNumber(u64),
    /// The word is neither `silent` nor `broken`.
    NoReason,
    /// A number does not fit into 32 bits, or an escape is not of the form `\xHH`.
    NoCall,
    /// A line of a call log has no tab.
    FewerFields,
    /// A line of a call log does not begin with the number of a line of the desk.
    NoLine,
}

impl LineFault {
    /// An error at the beginning of `left`, the last bytes of a line.
    pub(crate) fn at(left: &[u8], kind: FaultKind) -> LineFault {
        LineFault {
            left: left.len(),
            kind,
        }
    }
}
