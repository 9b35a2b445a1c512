ghost use Rattle.std.specs.Prelude.{◌≡◌};
ghost use Rattle.meaning.specs.Hosts.{Meaning};
ghost use Rattle.meaning.specs.Lawful.{Lawful, NamesArguments};
ghost use Rattle.meaning.specs.HostCode.{read_all, read_literals, reply_of, answer_of};

use crate::answers::{Reply, RuleAnswer};
use crate::texts::Texts;
use vocabulary::types::DType;
use vocabulary::values::Value;

/// The functions that a customer adds to expressions. A call names one by its code.
///
/// A host says by its `meaning` what its functions compute, and each method answers just that. So a method
/// depends on nothing but the host and its arguments, and a call that is repeated has the same answer.
pub trait Host {
    ghost meaning: { Self → Meaning };

    /// Whether the host has a function of that code. A call of any other code does not bind.
    fn has(&self, code: u16) -> bool
        ensures { result ≡ (meaning self.now).has code };

    /// Whether the function takes so many arguments. A call has at most eight.
    fn takes(&self, code: u16, count: u8) -> bool
        ensures { result ≡ (meaning self.now).takes code count };

    /// The type of a call over arguments of those types, or `None` where the function does not take them.
    fn type_of(&self, code: u16, types: &[DType]) -> Option<DType>
        ensures { result ≡ (meaning self.now).types code types.now };

    /// What the function replies to those arguments, when a call is evaluated. `Texts::bytes_of`
    /// reads those that are texts.
    fn value_of(&self, code: u16, args: &[Value], texts: Texts) -> Reply
        ensures { reply_of result ≡ (meaning self.now).gives code
            (read_all texts.entry.arena.now texts.entry.row.now args.now) };

    /// What replaces a call when an expression is optimized, by the types of its arguments and the values of
    /// those that are literals, whose texts lie in the arena's: `Texts { arena, row: &[] }` reads them. A host
    /// without rules answers `RuleAnswer::nothing()`.
    // Kept as two lists: `type_of` takes the types alone, and the meaning of a rule is of any two lists.
    fn rule(
        &self,
        code: u16,
        types: &[DType],
        literals: &[Option<Value>],
        arena: &[u8],
    ) -> RuleAnswer
        ensures { answer_of result ≡ (meaning self.now).rule code types.now
            (read_literals arena.now literals.now) };

    /// A call's value fits its type, which is plain; a rule keeps the type and the value of a call, and has
    /// each child at most once.
    ghost lawful: { (h : Self) → Lawful (meaning h) };

    /// A reply that is an argument names one that is there.
    ghost names: { (h : Self) → NamesArguments (meaning h) };
}
