use vocabulary::types::DType;

/// A column that was looked up: its place in the schema, and its type.
#[derive(Clone, Copy)]
pub struct Found {
    pub place: u8,
    pub dtype: DType,
}
