ghost use Rattle.typing.specs.Typing.{counted_only};

use crate::asking::NewFunction;
use crate::typist::Typist;
use vocabulary::refusals::BindingRefusal;
use vocabulary::types::{DType, Kind};

/// The typist of unbound trees: it looks at counts alone, and writes down the same type for all, which nothing reads.
// Kept: a memory of records without types would be no plainer, since the model reads unbound nodes in this way too.
#[derive(Clone, Copy)]
pub struct Untyped;

impl Typist for Untyped {
    ghost typing = { λ _. counted_only };

    fn type_of(
        &self,
        place: u32,
        asked: &NewFunction<'_>,
        count: usize,
        _types: &[DType],
    ) -> Result<DType, BindingRefusal> {
        if asked.takes(count) {
            Ok(DType::new(Kind::Row(0), false))
        } else {
            Err(BindingRefusal::WrongChildCount(place))
        }
    }
}
