ghost use Rattle.std.specs.Prelude.{◌≡◌, take};
ghost use Rattle.meaning.specs.Hosts.{Answer};
ghost use Rattle.meaning.specs.HostCode.{constant_of, answer_of};

use std::convert::Infallible;
use vocabulary::few_bytes::FewBytes;
use vocabulary::values::Value;

/// A value that a host can make of itself: null, or any that is no text.
pub type Constant = Value<Infallible>;

/// What a function of a host replies to its arguments.
#[derive(Clone, Copy)]
pub enum Reply {
    /// The value of the argument at that place, counted from 0: the only way to reply a text.
    Argument(u8),
    /// A value of its own.
    Plain(Constant),
    /// A fault, by a code that the host chooses.
    Fails(u16),
}

/// What the rule of a function answers.
#[derive(Clone, Copy)]
pub enum RuleAnswer {
    /// The call stays as it is.
    Nothing,
    /// The child at that place replaces the call.
    Child(u8),
    /// A literal of that value, of the call's type, replaces the call.
    Constant(Constant),
    /// A call of the function of that code, over the children at those places, replaces the call.
    Other { code: u16, places: FewBytes<8> },
}

// Kept beside the variants: hosts of customers call these, and the contracts say what each variant means.
impl RuleAnswer {
    /// The call stays as it is.
    pub fn nothing() -> RuleAnswer
        ensures { answer_of result ≡ Answer.nothing }
    {
        RuleAnswer::Nothing
    }

    /// The child at that place replaces the call.
    pub fn child(place: u8) -> RuleAnswer
        ensures { answer_of result ≡ Answer.child place }
    {
        RuleAnswer::Child(place)
    }

    /// A literal of that value, of the call's type, replaces the call.
    pub fn constant(value: Constant) -> RuleAnswer
        ensures { answer_of result ≡ Answer.constant (constant_of value) }
    {
        RuleAnswer::Constant(value)
    }

    /// A call of that function of the host, over the children at those places, replaces the call. It takes the
    /// first eight of them.
    pub fn other(code: u16, places: &[u8]) -> RuleAnswer
        ensures { answer_of result ≡ Answer.other code (take 8 places.now) }
    {
        RuleAnswer::Other {
            code,
            places: FewBytes::new(places),
        }
    }
}
