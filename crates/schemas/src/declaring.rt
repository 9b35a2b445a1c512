ghost use Rattle.std.specs.Prelude.{◌≡◌, [], replicate};
ghost use Rattle.schemas.specs.AllSchemas.{AllDeclared, added, after};
ghost use Rattle.schemas.specs.Fields.{field};

use crate::tables::{Schema, Schemas};
use std::marker::Model;
use vocabulary::refusals::Refusal;
use vocabulary::types::DType;

/// The schemas while columns are still added. An arena is opened with what `finish` gives, which takes no more.
#[derive(Drop)]
pub struct Declaring {
    pub(crate) schemas: Schemas,
}

impl Model for Declaring {
    ghost use Rattle.std.specs.Prelude.{List};
    ghost use Rattle.schemas.specs.AllSchemas.{AllDeclared};
    ghost use Rattle.schemas.specs.Fields.{Field};

    ghost Value = { List (List Field) };

    ghost view = { λ a. a.schemas };

    ghost invariant = { λ a. AllDeclared a.schemas };
}

impl Declaring {
    /// Eight schemas without columns.
    pub fn new() -> Declaring
        ensures { result ≡ replicate 8 [] }
    {
        Declaring {
            schemas: Schemas {
                table: [Schema::new(); 8],
            },
        }
    }

    /// Adds a column behind the others of its schema, and answers its place.
    pub fn add_column(&mut self, schema: u8, name: &[u8], dtype: DType) -> Result<u8, Refusal>
        ensures answer { result ≡ added schema (field name.now dtype) self.old }
        ensures after { self.new ≡ after result schema (field name.now dtype) self.old }
        ensures were_declared { AllDeclared self.old }
        ensures declared { AllDeclared self.new }
    {
        self.schemas.add(schema, name, dtype)
    }

    /// Ends declaring.
    pub fn finish(self) -> Schemas
        ensures same { result ≡ self }
        ensures declared { AllDeclared result }
    {
        let Declaring { schemas } = self;
        schemas
    }
}
