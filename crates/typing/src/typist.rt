ghost use Rattle.std.specs.Prelude.{◌≡◌};
ghost use Rattle.typing.specs.Asked.{new_of};
ghost use Rattle.typing.specs.Typing.{Typing};

use crate::asking::NewFunction;
use vocabulary::refusals::BindingRefusal;
use vocabulary::types::DType;

/// What gives a node its type, where its function and its children are known.
pub trait Typist {
    /// The type of a node that is asked for over so many children of those types, or the refusal at that place.
    ghost typing: { Self → Typing };

    fn type_of(
        &self,
        place: u32,
        asked: &NewFunction<'_>,
        count: usize,
        types: &[DType],
    ) -> Result<DType, BindingRefusal>
        ensures { result ≡ typing self.now place (new_of asked.now) count types.now };
}
