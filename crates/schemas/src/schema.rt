ghost use Rattle.std.specs.Prelude.{◌≡◌, true, [], ◌∷◌, ◌++◌, take};
ghost use Rattle.schemas.specs.Declarations.{takes};
ghost use Rattle.schemas.specs.Fields.{field, found};

use crate::column::Column;
use crate::found::Found;
use crate::tables::Schema;
use vocabulary::few_bytes::FewBytes;
use vocabulary::types::{DType, Kind};

/// The most columns of a schema.
pub const MAX_COLUMNS: u8 = 32;

/// The most bytes of a column's name.
pub const MAX_NAME: usize = 32;

impl Column {
    /// A column of that type, and of the first 32 bytes of the name.
    pub(crate) fn new(name: &[u8], dtype: DType) -> Column
        ensures { result ≡ field (take 32 name.now) dtype }
    {
        let name = FewBytes::new(name);
        Column { name, dtype }
    }
}

impl Schema {
    /// A schema without columns.
    pub(crate) fn new() -> Schema
        ensures { result ≡ [] }
    {
        Schema {
            columns: [Column::new(b"", DType::new(Kind::Bool, false)); 32],
            count: 0,
        }
    }

    /// The place and the type of the column of that name.
    pub fn find(&self, name: &[u8]) -> Option<Found>
        ensures { result ≡ found name.now self.now }
    {
        for (place, column) in self.columns().iter().enumerate() {
            if column.is_named(name) {
                return Some(Found {
                    place: place as u8,
                    dtype: column.dtype,
                });
            }
        }
        None
    }

    /// Whether it takes one more column, of that name and type.
    pub fn takes(&self, name: &[u8], dtype: DType) -> bool
        ensures { result ≡ takes self.now (field name.now dtype) }
    {
        let named = !name.is_empty() && name.len() <= MAX_NAME;
        named && dtype.is_plain() && self.count < MAX_COLUMNS && self.find(name).is_none()
    }

    /// One column more, behind the others, which the schema takes.
    pub(crate) fn push(&mut self, name: &[u8], dtype: DType)
        requires { takes self.old (field name.now dtype) ≡ true }
        ensures { self.new ≡ self.old ++ (field name.now dtype ∷ []) }
    {
        self.columns[usize::from(self.count)] = Column::new(name, dtype);
        self.count += 1;
    }
}
