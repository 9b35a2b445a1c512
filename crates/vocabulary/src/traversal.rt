ghost use Rattle.std.specs.Prelude.{◌≡◌, true, false};
ghost use Rattle.vocabulary.specs.declared.traversal.TraversalOrder.TheVariants.{Continue};

/// What a visit says of how the walk is to go on.
#[derive(Clone, Copy)]
pub enum TraversalOrder {
    /// On the way down: leave the children out. On the way up: leave the next step out.
    Skip,
    /// End the walk.
    Stop,
    /// Go on.
    Continue,
}

/// What a rewriter answers at a visit.
#[derive(Clone, Copy)]
pub struct Transformed<T> {
    /// What stands in the place of the node visited.
    pub value: T,
    /// How the walk is to go on.
    pub order: TraversalOrder,
    /// Whether `value` is another than the node visited.
    // Kept a flag: the value counts in both cases, so an enum would only hold it twice.
    pub changed: bool,
}

impl<T> Transformed<T> {
    /// Another value, and the walk goes on.
    pub fn yes(value: T) -> Self
        ensures { result ≡ record { value = value; order = Continue; changed = true } }
    {
        Transformed {
            value,
            order: TraversalOrder::Continue,
            changed: true,
        }
    }

    /// The same value, and the walk goes on.
    pub fn no(value: T) -> Self
        ensures { result ≡ record { value = value; order = Continue; changed = false } }
    {
        Transformed {
            value,
            order: TraversalOrder::Continue,
            changed: false,
        }
    }
}
