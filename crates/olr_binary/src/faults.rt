//! Why bytes or a text do not decode to a reference.

/// Why bytes do not decode to a reference. Of several faults the first in this order is returned.
#[derive(Clone, Copy, Debug, PartialEq, Eq, thiserror::Error)]
pub enum V3Fault {
    /// No reference has this number of bytes.
    #[error("wrong number of bytes")]
    Length,
    /// The status byte is that of another version, or of a reference without attributes.
    #[error("wrong status byte")]
    Status,
    /// The number of offset flags is not the number of offset bytes.
    #[error("offset flags do not match the offset bytes")]
    Flags,
    /// A reserved bit is set.
    #[error("a reserved bit is set")]
    Reserved,
    /// An allocation failed.
    #[error("out of memory")]
    Memory,
}

/// Why a text does not decode to a reference.
#[derive(Clone, Copy, Debug, PartialEq, Eq, thiserror::Error)]
pub enum TextFault {
    /// The fault of its bytes, or `Memory` if an allocation failed in decoding the text or its bytes.
    #[error(transparent)]
    Bytes(V3Fault),
    /// It is not base64.
    #[error("not base64")]
    NotBase64,
}
