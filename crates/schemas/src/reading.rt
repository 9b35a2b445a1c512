ghost use Rattle.std.specs.Prelude.{◌≡◌, ◌≤◌, true, length};
ghost use Rattle.std.specs.Str.{bytes_eq};
ghost use Rattle.schemas.specs.Declarations.{declared};

use crate::column::Column;
use crate::tables::Schema;
use vocabulary::types::DType;

impl Column {
    /// Its name's bytes.
    pub fn name(&self) -> &[u8]
        ensures held { result.now ≡ self.now.name }
        ensures short { length self.now.name ≤ 32 }
    {
        self.name.as_slice()
    }

    /// Whether it has that name, byte for byte.
    pub fn is_named(&self, name: &[u8]) -> bool
        ensures { result ≡ bytes_eq self.now.name name.now }
    {
        self.name() == name
    }

    /// Its type.
    pub fn dtype(&self) -> DType
        ensures { result ≡ self.now.dtype }
    {
        self.dtype
    }
}

impl Schema {
    /// How many columns it has.
    pub fn len(&self) -> u8
        ensures value { result ≡ length self.now }
        ensures declared { declared self.now ≡ true }
        ensures few { length self.now ≤ 32 }
    {
        self.count
    }

    /// Its columns, in the order of their places.
    pub fn columns(&self) -> &[Column]
        ensures listed { result.now ≡ self.now }
        ensures declared { declared self.now ≡ true }
        ensures few { length self.now ≤ 32 }
    {
        let columns = &self.columns[..];
        &columns[..usize::from(self.count)]
    }
}
