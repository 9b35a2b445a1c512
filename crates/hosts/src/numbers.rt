ghost use Rattle.std.specs.Prelude.{◌≡◌, ℕ, ◌<◌, List, length, position, IfSome, Some};
ghost use Rattle.std.specs.Result.{result_ok};
ghost use Rattle.meaning.specs.Lists.{of_one};
ghost use Rattle.meaning.specs.Hosts.{fails};
ghost use Rattle.meaning.specs.HostCode.{read_all, reply_of, answer_of};
ghost use Rattle.hosts.specs.Numbers.{number_function, numbers, numbers_takes, numbers_types, numbers_gives};
ghost use Rattle.hosts.specs.Numbers.{numbers_rule, abs_number, abs_reply};
ghost use Rattle.hosts.specs.Numbers.{all_alike, all_nullable, coalesce_type, coalesce_rule};
ghost use Rattle.hosts.specs.Numbers.{is_given, coalesce_reply, CoalesceIsTheFirst};
ghost use Rattle.hosts.specs.LawsOfNumbers.{numbers_lawful, numbers_names};

use crate::calls::{DOES_NOT_BIND, UnknownCode, type_of_one};
use meaning::answers::{Constant, Reply, RuleAnswer};
use meaning::host::Host;
use meaning::texts::Texts;
use vocabulary::nodes::MAX_CHILDREN;
use vocabulary::types::{DType, Kind};
use vocabulary::values::Value;

/// The code of `abs`.
// Kept a number, as the next: a call names a function by its code.
pub const ABS: u16 = 0;

/// The code of `coalesce`.
pub const COALESCE: u16 = 1;

/// The fault of `abs` of the smallest I64.
pub const NO_POSITIVE: u16 = 1;

/// The functions of the host.
#[derive(Clone, Copy)]
pub enum NumberFunction {
    /// A number without its sign.
    Abs,
    /// The first argument that is not null.
    Coalesce,
}

impl TryFrom<u16> for NumberFunction {
    type Error = UnknownCode;

    ghost try_from_gives = { λ code r. result_ok r ≡ number_function code };

    fn try_from(code: u16) -> Result<NumberFunction, UnknownCode> {
        match code {
            ABS => Ok(NumberFunction::Abs),
            COALESCE => Ok(NumberFunction::Coalesce),
            _ => Err(UnknownCode),
        }
    }
}

impl NumberFunction {
    /// Whether it takes so many arguments.
    fn takes(self, count: u8) -> bool
        ensures { result ≡ numbers_takes (Some self) count }
    {
        match self {
            NumberFunction::Abs => count == 1,
            NumberFunction::Coalesce => (2..=MAX_CHILDREN).contains(&count),
        }
    }

    /// Its type over those types.
    fn type_of(self, types: &[DType]) -> Option<DType>
        ensures { result ≡ numbers_types (Some self) types.now }
    {
        match self {
            NumberFunction::Abs => type_of_one(types, Kind::I64, Kind::I64),
            NumberFunction::Coalesce => coalesce_type(types),
        }
    }

    /// What it replies to those arguments, whatever the texts are.
    fn value_of(self, args: &[Value]) -> Reply
        ensures { (arena row : List ℕ) → reply_of result ≡ numbers_gives (Some self) (read_all arena row args.now) }
    {
        match self {
            NumberFunction::Abs => abs(args),
            NumberFunction::Coalesce => coalesce(args),
        }
    }

    /// What a call of it over those types is rewritten to.
    fn rule(self, types: &[DType]) -> RuleAnswer
        ensures { answer_of result ≡ numbers_rule (Some self) types.now }
    {
        match self {
            NumberFunction::Abs => RuleAnswer::nothing(),
            NumberFunction::Coalesce => coalesce_rule(types),
        }
    }
}

/// Two functions: `abs` of one I64, and `coalesce` of two to eight arguments of alike types.
#[derive(Clone, Copy)]
pub struct Numbers;

// Kept beside the other host's: `has`, `takes` and `type_of` are one call of its enum each, and one host over any enum
// would need a trait with the meaning, both laws and all five methods again.
impl Host for Numbers {
    ghost meaning = { λ _. numbers };

    ghost lawful = { λ h. numbers_lawful };

    ghost names = { λ h. numbers_names };

    fn has(&self, code: u16) -> bool {
        NumberFunction::try_from(code).is_ok()
    }

    fn takes(&self, code: u16, count: u8) -> bool {
        NumberFunction::try_from(code).is_ok_and(|function| function.takes(count))
    }

    fn type_of(&self, code: u16, types: &[DType]) -> Option<DType> {
        NumberFunction::try_from(code).ok()?.type_of(types)
    }

    fn value_of(&self, code: u16, args: &[Value], _texts: Texts) -> Reply {
        match NumberFunction::try_from(code) {
            Ok(function) => function.value_of(args),
            Err(UnknownCode) => Reply::Fails(DOES_NOT_BIND),
        }
    }

    fn rule(
        &self,
        code: u16,
        types: &[DType],
        _literals: &[Option<Value>],
        _arena: &[u8],
    ) -> RuleAnswer {
        match NumberFunction::try_from(code) {
            Ok(function) => function.rule(types),
            Err(UnknownCode) => RuleAnswer::nothing(),
        }
    }
}

/// The number without its sign, or the fault where no I64 has it.
fn abs_number(number: i64) -> Reply
    ensures { reply_of result ≡ abs_number number }
{
    match number.checked_abs() {
        Some(positive) => Reply::Plain(Constant::I64(positive)),
        None => Reply::Fails(NO_POSITIVE),
    }
}

/// What `abs` replies to those arguments, whatever the texts are.
fn abs(args: &[Value]) -> Reply
    ensures { (arena row : List ℕ) → reply_of result ≡ of_one (fails 0) abs_reply (read_all arena row args.now) }
{
    match args {
        [Value::Null] => Reply::Plain(Constant::Null),
        [Value::I64(number)] => abs_number(*number),
        _ => Reply::Fails(DOES_NOT_BIND),
    }
}

/// Whether each of the types is alike that one.
fn all_alike(dtype: DType, types: &[DType]) -> bool
    ensures { result ≡ all_alike dtype types.now }
{
    types
        .iter()
        .all(|other| dtype.eq_ignore_nullability(*other))
}

/// Whether each of the types is nullable.
fn all_nullable(types: &[DType]) -> bool
    ensures { result ≡ all_nullable types.now }
{
    types.iter().all(|dtype| dtype.is_nullable())
}

/// The type of `coalesce` over those types.
fn coalesce_type(types: &[DType]) -> Option<DType>
    ensures { result ≡ coalesce_type types.now }
{
    let (first, rest) = types.split_first()?;
    all_alike(*first, rest).then(|| DType::new(first.kind(), all_nullable(types)))
}

/// The place of the first argument that is not null.
fn first_given(args: &[Value]) -> Option<usize>
    ensures value { result ≡ position is_given args.now }
    ensures within { IfSome result (λ place. place < length args.now) }
{
    args.iter()
        .position(|argument| !matches!(argument, Value::Null))
}

/// What `coalesce` replies to those arguments, whatever the texts are. Its value is the first of them that is not
/// null.
#[tactic(auto, using(crate::specs::LawsOfNumbers::coalesce_is_the_first))]
fn coalesce(args: &[Value]) -> Reply
    ensures value { (arena row : List ℕ) → reply_of result ≡ coalesce_reply (read_all arena row args.now) }
    ensures law { CoalesceIsTheFirst }
{
    if args.len() > usize::from(MAX_CHILDREN) {
        return Reply::Fails(DOES_NOT_BIND);
    }
    match first_given(args) {
        Some(place) => Reply::Argument(place as u8),
        None => Reply::Plain(Constant::Null),
    }
}

/// What `coalesce` is rewritten to: its first argument, if that is never null.
fn coalesce_rule(types: &[DType]) -> RuleAnswer
    ensures { answer_of result ≡ coalesce_rule types.now }
{
    match types {
        [first, ..] if !first.is_nullable() => RuleAnswer::child(0),
        _ => RuleAnswer::nothing(),
    }
}
