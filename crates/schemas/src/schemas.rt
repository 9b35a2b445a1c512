ghost use Rattle.std.specs.Prelude.{◌≡◌, true, length, Ok, IfOk};
ghost use Rattle.std.specs.List.{list_all};
ghost use Rattle.std.specs.Result.{result_map_both};
ghost use Rattle.vocabulary.specs.declared.refusals.Refusal.TheVariants.{Memory};
ghost use Rattle.schemas.specs.AllSchemas.{AllDeclared, numbered, in_schema, sought, added, after};
ghost use Rattle.schemas.specs.Declarations.{declared};
ghost use Rattle.schemas.specs.Fields.{field};

use crate::found::Found;
use crate::tables::{Schema, Schemas};
use vocabulary::refusals::{BindingRefusal, MemoryRefusal, Refusal};
use vocabulary::types::DType;

/// How many schemas there are. They are numbered from 0, and always stand.
pub const SCHEMAS: u8 = 8;

/// The index of the schema of that number.
fn index_of(schema: u8) -> Result<usize, MemoryRefusal>
    ensures { result ≡ numbered schema }
{
    if schema < SCHEMAS {
        Ok(usize::from(schema))
    } else {
        Err(MemoryRefusal::NoSuchSchema(schema))
    }
}

impl Schemas {
    /// The schema of that number.
    #[tactic(auto, using(crate::proofs::TableReads::answered))]
    pub fn schema(&self, schema: u8) -> Result<&Schema, Refusal>
        ensures answer { result_map_both (λ s. s.now) (λ e. e) result
            ≡ in_schema schema Ok self.now }
        ensures declared { IfOk result (λ s. declared s.now ≡ true) }
    {
        let at = index_of(schema)?;
        Ok(&self.table[at])
    }

    /// The table of all schemas.
    fn all(&self) -> &[Schema]
        ensures counted { length result.now ≡ length self.now }
        ensures eight { length result.now ≡ 8 }
        ensures declared { list_all declared self.now ≡ true }
    {
        &self.table[..]
    }

    /// How many schemas there are, those without columns included.
    pub fn len(&self) -> usize
        ensures value { result ≡ length self.now }
        ensures eight { result ≡ 8 }
        ensures declared { list_all declared self.now ≡ true }
    {
        self.all().len()
    }

    /// The place and the type of a schema's column of that name.
    pub fn find(&self, schema: u8, name: &[u8]) -> Result<Option<Found>, Refusal>
        ensures { result ≡ sought schema name.now self.now }
    {
        Ok(self.schema(schema)?.find(name))
    }

    /// Adds a column behind the others of its schema, and answers its place.
    pub(crate) fn add(&mut self, schema: u8, name: &[u8], dtype: DType) -> Result<u8, Refusal>
        ensures answer { result ≡ added schema (field name.now dtype) self.old }
        ensures after { self.new
            ≡ after result schema (field name.now dtype) self.old }
        ensures declared { AllDeclared self.new }
    {
        let table = &mut self.table;
        let at = index_of(schema)?;
        let target = &mut table[at];
        let column = target.len();
        if !target.takes(name, dtype) {
            return Err(BindingRefusal::BadColumn { schema, column }.into());
        }
        target.push(name, dtype);
        Ok(column)
    }
}
