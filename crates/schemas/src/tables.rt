use crate::column::Column;
use std::marker::Model;

/// A schema: a table of columns, filled from the front.
#[derive(Clone, Copy)]
pub struct Schema {
    // Kept a table and a count: declaring takes no memory from the heap, and so cannot want for it.
    pub(crate) columns: [Column; 32],
    pub(crate) count: u8,
}

impl Model for Schema {
    ghost use Rattle.std.specs.Prelude.{List};
    ghost use Rattle.schemas.specs.Fields.{Field};

    ghost Value = { List Field };

    ghost use Rattle.schemas.specs.Tables.{columns_of, table_of, DeclaredOneByOne, restored};

    ghost view = { columns_of };

    ghost invariant = { DeclaredOneByOne };

    ghost inverse = { table_of };

    ghost inverse_ok = { restored };
}

/// The eight schemas, as they stand once declaring has ended.
#[derive(Clone, Copy)]
pub struct Schemas {
    pub(crate) table: [Schema; 8],
}

impl Model for Schemas {
    ghost use Rattle.std.specs.Prelude.{◌≡◌, true, List};
    ghost use Rattle.std.specs.List.{list_all};
    ghost use Rattle.schemas.specs.Declarations.{declared};
    ghost use Rattle.schemas.specs.Fields.{Field};

    ghost Value = { List (List Field) };

    ghost view = { λ a. a.table };

    ghost invariant = { λ a. list_all declared a.table ≡ true };

    ghost inverse = { λ fss. record { table = fss } };
}
