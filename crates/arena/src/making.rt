ghost use Rattle.std.specs.Prelude.{◌≡◌, ◌+◌, ◌<◌, ◌≤◌, true, [], reverse, length};
ghost use Rattle.meaning.specs.Columns.{Schemas};
ghost use Rattle.model.specs.Stores.{grown};
ghost use Rattle.model.specs.Wanted.{new_bytes};
ghost use Rattle.typing.specs.Asked.{new_of};
ghost use Rattle.typing.specs.Placing.{function_at};
ghost use Rattle.arena.specs.Answered.{Gives};
ghost use Rattle.arena.specs.Building.{make_by};
ghost use Rattle.arena.specs.Drafting.{bound_by, bound_over, drafted, noted};
ghost use Rattle.arena.specs.Opened.{store};
ghost use Rattle.arena.specs.Standing.{stands};

use crate::bounds::{Bound, Kin};
use crate::memory::Memory;
use typing::asking::NewFunction;
use typing::typist::Typist;
use vocabulary::nodes::{Function, Node};
use vocabulary::refusals::Refusal;

impl Memory {
    // Kept as parameters, here and below: a struct of place, function and children would be taken apart at each use.
    /// Makes a node over the children, and answers its number. Its text goes behind the text.
    pub(crate) fn make<T: Typist>(
        &mut self,
        typist: &T,
        place: u32,
        asked: NewFunction<'_>,
        children: &[u32],
    ) -> Result<u32, Refusal>
        ensures { Gives result self.old self.new (make_by (T.Typist.typing typist.now) place
            (new_of asked.entry) children.now (length children.now)) }
    {
        let node = self.draft(typist, place, &asked, children)?;
        Ok(self.enter(node, asked.bytes()))
    }

    /// Records a node, with bytes behind the text, and answers its number.
    pub(crate) fn enter(&mut self, node: Node, more: &[u8]) -> u32
        requires room { length self.old.nodes.items < self.old.nodes.limit }
        requires text_room { length self.old.text.items + length more.now ≤ self.old.text.limit }
        requires standing { stands (length self.old.text.items + length more.now)
            (reverse self.old.nodes.items) node ≡ true }
        ensures number { result ≡ length self.old.nodes.items }
        ensures after { (ss : Schemas) → store ss self.new
            ≡ grown node more.now (store ss self.old) }
    {
        let number = self.nodes.len() as u32;
        self.text.extend(more);
        self.nodes.push(node);
        number
    }

    /// The record of a node over the children, with its text behind the text.
    fn draft<T: Typist>(
        &self,
        typist: &T,
        place: u32,
        asked: &NewFunction<'_>,
        children: &[u32],
    ) -> Result<Node, Refusal>
        ensures { result ≡ drafted (T.Typist.typing typist.now) self.now place (new_of asked.now)
            (λ p. function_at p (new_of asked.now)) (length (new_bytes (new_of asked.now)))
            children.now (length children.now) }
    {
        let bound = self.bind(typist, place, asked, children)?;
        let span = self.span_for(place, asked.bytes().len())?;
        Ok(bound.record(asked.placed(span), children))
    }

    /// The type, the depth and the size of a node over the children.
    pub(crate) fn bind<T: Typist>(
        &self,
        typist: &T,
        place: u32,
        asked: &NewFunction<'_>,
        children: &[u32],
    ) -> Result<Bound, Refusal>
        ensures { result ≡ bound_by (T.Typist.typing typist.now) (store [] self.now) place
            (new_of asked.now) children.now (length children.now) }
    {
        let kin = self.survey(children)?;
        kin.bind(typist, place, asked, children.len())
    }
}

impl Kin {
    /// The same over so many children, which come to this.
    fn bind<T: Typist>(
        &self,
        typist: &T,
        place: u32,
        asked: &NewFunction<'_>,
        count: usize,
    ) -> Result<Bound, Refusal>
        ensures { result ≡ bound_over (T.Typist.typing typist.now) place (new_of asked.now) count self.now }
    {
        let dtype = typist.type_of(place, asked, count, self.types.as_slice())?;
        let depth = self.depth_above(place)?;
        let size = self.size_above(place)?;
        Ok(Bound { dtype, depth, size })
    }
}

impl Bound {
    /// The record of a node of which this was found.
    pub(crate) fn record(&self, function: Function, children: &[u32]) -> Node
        ensures { result ≡ noted function children.now (length children.now) self.now }
    {
        Node::new(function, children, self.dtype, self.depth, self.size)
    }
}
