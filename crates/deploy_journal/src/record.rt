// Records of the journal.
use arm_value::Bytes;

/// A record of the journal: its kind, and two parts of any bytes. What a kind and its parts mean is up to the caller.
#[derive(Debug, Drop)]
pub struct Record {
    pub kind: u8,
    pub first: Bytes,
    pub second: Bytes,
}
