ghost use Rattle.std.specs.Prelude.{◌≡◌, [], length};
ghost use Rattle.vocabulary.specs.Types.{carried};
ghost use Rattle.meaning.specs.HostCode.{read};
ghost use Rattle.typing.specs.Asked.{new_of, value_of};
ghost use Rattle.arena.specs.Answered.{Gives};
ghost use Rattle.arena.specs.Building.{rebuild_by};
ghost use Rattle.arena.specs.Drafting.{drafted};
ghost use Rattle.arena.specs.Rebuilding.{again, is_itself};

use crate::memory::Memory;
use meaning::texts::Texts;
use typing::asking::{NewFunction, NewLiteral};
use typing::typist::Typist;
use vocabulary::nodes::{Function, Node};
use vocabulary::refusals::Refusal;
use vocabulary::types::Kind;
use vocabulary::values::Value;

impl Memory {
    /// Makes a node of the same function, on the same text, over the children. A Root over none is itself.
    pub(crate) fn rebuild<T: Typist>(
        &mut self,
        typist: &T,
        node: u32,
        children: &[u32],
    ) -> Result<u32, Refusal>
        ensures { Gives result self.old self.new (rebuild_by (T.Typist.typing typist.now) node
            children.now (length children.now)) }
    {
        let old = *self.node(node)?;
        if is_itself(old.function, children.len()) {
            return Ok(node);
        }
        let anew = self.redraft(typist, node, &old, children)?;
        Ok(self.enter(anew, &[]))
    }

    /// The record of a node over other children.
    fn redraft<T: Typist>(
        &self,
        typist: &T,
        node: u32,
        old: &Node,
        children: &[u32],
    ) -> Result<Node, Refusal>
        ensures { result ≡ drafted (T.Typist.typing typist.now) self.now node
            (again self.now.text.items old.now.dtype old.now.function)
            (λ _. old.now.function) 0 children.now (length children.now) }
    {
        let asked = self.asked_again(old);
        let bound = self.bind(typist, node, &asked, children)?;
        self.span_for(node, 0)?;
        Ok(bound.record(old.function, children))
    }

    /// What the node was asked for, its text as it was recorded.
    fn asked_again(&self, node: &Node) -> NewFunction<'_>
        ensures { new_of result
            ≡ again self.now.text.items node.now.dtype node.now.function }
    {
        match node.function {
            Function::Root => NewFunction::Root(carried(node.dtype.kind())),
            Function::Literal(dtype, value) => {
                NewFunction::Literal(dtype, self.literal_again(value))
            }
            Function::GetItem(name) => NewFunction::GetItem(self.text_at(name)),
            Function::Cast(dtype) => NewFunction::Cast(dtype),
            Function::Binary(operator) => NewFunction::Binary(operator),
            Function::Between(options) => NewFunction::Between(options),
            Function::Host(code) => NewFunction::Host(code),
        }
    }

    /// What the literal was asked for.
    fn literal_again(&self, value: Value) -> NewLiteral<'_>
        ensures { value_of result ≡ read self.now.text.items [] value }
    {
        value.map(|text| {
            let texts = Texts {
                arena: self.text.as_slice(),
                row: &[],
            };
            texts.bytes_of(text)
        })
    }
}

/// Whether a node over so many children is itself: a Root over none.
fn is_itself(function: Function, count: usize) -> bool
    ensures { result ≡ is_itself function count }
{
    matches!(function, Function::Root) && count == 0
}

/// The number that an Extension or a Row carries; 0 of the other kinds.
// Kept a number: an `Option` would be no plainer, since the model asks for a Root in this way, whatever the kind.
fn carried(kind: Kind) -> u8
    ensures { result ≡ carried kind }
{
    match kind {
        Kind::Extension(number) | Kind::Row(number) => number,
        _ => 0,
    }
}
