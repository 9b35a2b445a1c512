ghost use Rattle.std.specs.Prelude.{◌≡◌, Some, None};
ghost use Rattle.std.specs.Result.{result_ok};
ghost use Rattle.meaning.specs.Lists.{of_one, of_two};
ghost use Rattle.meaning.specs.Hosts.{fails};
ghost use Rattle.meaning.specs.HostCode.{read_all, reply_of};
ghost use Rattle.hosts.specs.Labels.{label_function, labels, labels_takes, labels_types, labels_gives};
ghost use Rattle.hosts.specs.Labels.{starts_type, length_reply};
ghost use Rattle.hosts.specs.Labels.{begins, BeginsIsAFront, starts_reply};
ghost use Rattle.hosts.specs.LawsOfLabels.{labels_lawful, labels_names};

use crate::calls::{DOES_NOT_BIND, UnknownCode, type_of_one};
use meaning::answers::{Constant, Reply, RuleAnswer};
use meaning::host::Host;
use meaning::texts::Texts;
use vocabulary::types::{DType, Kind};
use vocabulary::values::Value;

/// The code of the length of a text.
// Kept a number, as the next: a call names a function by its code.
pub const LENGTH: u16 = 0;

/// The code of the test whether a text begins with another.
pub const STARTS_WITH: u16 = 1;

/// The functions of the host.
#[derive(Clone, Copy)]
pub enum LabelFunction {
    /// How many bytes a text has.
    Length,
    /// Whether a text begins with another.
    StartsWith,
}

impl TryFrom<u16> for LabelFunction {
    type Error = UnknownCode;

    ghost try_from_gives = { λ code r. result_ok r ≡ label_function code };

    fn try_from(code: u16) -> Result<LabelFunction, UnknownCode> {
        match code {
            LENGTH => Ok(LabelFunction::Length),
            STARTS_WITH => Ok(LabelFunction::StartsWith),
            _ => Err(UnknownCode),
        }
    }
}

impl LabelFunction {
    /// Whether it takes so many arguments.
    fn takes(self, count: u8) -> bool
        ensures { result ≡ labels_takes (Some self) count }
    {
        match self {
            LabelFunction::Length => count == 1,
            LabelFunction::StartsWith => count == 2,
        }
    }

    /// Its type over those types.
    fn type_of(self, types: &[DType]) -> Option<DType>
        ensures { result ≡ labels_types (Some self) types.now }
    {
        match self {
            LabelFunction::Length => type_of_one(types, Kind::Utf8, Kind::U64),
            LabelFunction::StartsWith => starts_type(types),
        }
    }

    /// What it replies to those arguments.
    fn value_of(self, args: &[Value], texts: Texts) -> Reply
        ensures { reply_of result ≡ labels_gives (Some self)
            (read_all texts.entry.arena.now texts.entry.row.now args.now) }
    {
        match self {
            LabelFunction::Length => length(args, texts),
            LabelFunction::StartsWith => starts_with(args, texts),
        }
    }
}

/// Two functions: the length of one Utf8 in bytes, and whether a first Utf8 begins with a second.
#[derive(Clone, Copy)]
pub struct Labels;

// Kept beside the other host's: `has`, `takes` and `type_of` are one call of its enum each, and one host over any enum
// would need a trait with the meaning, both laws and all five methods again.
impl Host for Labels {
    ghost meaning = { λ _. labels };

    ghost lawful = { λ h. labels_lawful };

    ghost names = { λ h. labels_names };

    fn has(&self, code: u16) -> bool {
        LabelFunction::try_from(code).is_ok()
    }

    fn takes(&self, code: u16, count: u8) -> bool {
        LabelFunction::try_from(code).is_ok_and(|function| function.takes(count))
    }

    fn type_of(&self, code: u16, types: &[DType]) -> Option<DType> {
        LabelFunction::try_from(code).ok()?.type_of(types)
    }

    fn value_of(&self, code: u16, args: &[Value], texts: Texts) -> Reply {
        match LabelFunction::try_from(code) {
            Ok(function) => function.value_of(args, texts),
            Err(UnknownCode) => Reply::Fails(DOES_NOT_BIND),
        }
    }

    fn rule(
        &self,
        _code: u16,
        _types: &[DType],
        _literals: &[Option<Value>],
        _arena: &[u8],
    ) -> RuleAnswer {
        RuleAnswer::nothing()
    }
}

/// The type of the test over those types.
fn starts_type(types: &[DType]) -> Option<DType>
    ensures { result ≡ of_two None starts_type types.now }
{
    match types {
        [text, front] if text.kind() == Kind::Utf8 && front.kind() == Kind::Utf8 => {
            let nullable = text.is_nullable() || front.is_nullable();
            Some(DType::new(Kind::Bool, nullable))
        }
        _ => None,
    }
}

/// What the length replies to those arguments.
fn length(args: &[Value], texts: Texts) -> Reply
    ensures { reply_of result ≡ of_one (fails 0) length_reply
        (read_all texts.entry.arena.now texts.entry.row.now args.now) }
{
    match args {
        [Value::Null] => Reply::Plain(Constant::Null),
        [Value::Utf8(text)] => Reply::Plain(Constant::U64(texts.bytes_of(*text).len() as u64)),
        _ => Reply::Fails(DOES_NOT_BIND),
    }
}

/// Whether the bytes begin with those in front.
#[tactic(auto, using(crate::proofs::Fronts::begun, crate::proofs::Fronts::begins_is_a_front))]
fn begins(bytes: &[u8], front: &[u8]) -> bool
    ensures value { result ≡ begins bytes.now front.now }
    ensures law { BeginsIsAFront }
{
    bytes.starts_with(front)
}

/// What the test replies to those arguments.
fn starts_with(args: &[Value], texts: Texts) -> Reply
    ensures { reply_of result ≡ of_two (fails 0) starts_reply
        (read_all texts.entry.arena.now texts.entry.row.now args.now) }
{
    match args {
        [Value::Null, _] | [Value::Utf8(_), Value::Null] => Reply::Plain(Constant::Null),
        [Value::Utf8(text), Value::Utf8(front)] => {
            let text = texts.bytes_of(*text);
            let front = texts.bytes_of(*front);
            Reply::Plain(Constant::Bool(begins(text, front)))
        }
        _ => Reply::Fails(DOES_NOT_BIND),
    }
}
