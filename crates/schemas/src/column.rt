use vocabulary::few_bytes::FewBytes;
use vocabulary::types::DType;

/// A column: its name and its type.
#[derive(Clone, Copy)]
pub struct Column {
    pub(crate) name: FewBytes<32>,
    pub(crate) dtype: DType,
}
