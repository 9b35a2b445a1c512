ghost use Rattle.std.specs.Prelude.{◌≡◌};
ghost use Rattle.model.specs.UnboundMaking.{any_host};
ghost use Rattle.typing.specs.Asked.{new_of};
ghost use Rattle.typing.specs.Typing.{asked_counts};

use crate::asking::NewFunction;
use vocabulary::nodes::MAX_CHILDREN;

impl NewFunction<'_> {
    /// Whether the function takes so many children; one of a host may take up to eight.
    pub fn takes(&self, count: usize) -> bool
        ensures { result ≡ asked_counts any_host (new_of self.now) count }
    {
        match *self {
            NewFunction::Root(_) | NewFunction::Literal(..) => count == 0,
            NewFunction::GetItem(_) | NewFunction::Cast(_) => count == 1,
            NewFunction::Binary(_) => count == 2,
            NewFunction::Between(_) => count == 3,
            NewFunction::Host(_) => count <= usize::from(MAX_CHILDREN),
        }
    }
}
