use thiserror::Error;
use vocabulary::types::DType;

/// What a line says.
// No `Option` of a column, and a directive of its own: lines of a filter and of frames are to come.
#[derive(Clone, Copy)]
pub enum Line<'a> {
    /// Nothing, or a remark.
    Blank,
    /// A column of the frames' record.
    Column(&'a [u8], DType),
}

/// The word that a line begins with.
#[derive(Clone, Copy)]
pub enum Directive {
    Column,
}

/// What is wrong with a line.
#[derive(Clone, Copy, Debug, Error)]
pub enum Complaint {
    #[error("no such directive")]
    NoSuchDirective,
    #[error("a name is missing")]
    NameMissing,
    #[error("a type is missing")]
    TypeMissing,
    #[error("not a type")]
    NotAType,
    /// Something stands behind what the line needs.
    #[error("more than the line needs")]
    Surplus,
}

/// A line that cannot be read, and how many bytes stand before the place that is wrong.
#[derive(Clone, Copy, Debug, Error)]
#[error("column {}: {complaint}", .at.saturating_add(1))]
pub struct Mistake {
    pub at: usize,
    pub complaint: Complaint,
}
