ghost use Rattle.std.specs.Prelude.{◌≡◌, Some};
ghost use Rattle.vocabulary.specs.Printed.{layer_name, cause_words, place_words, why_words, refusal_words};
ghost use Rattle.vocabulary.specs.declared.refusals.Refusal.TheVariants.{Memory, Binding, Walk, Rules, Evaluation};
ghost use Rattle.vocabulary.specs.Refusals.{number_of, layer_of, place_of};

use std::fmt;
use thiserror::Error;

/// What memory refuses.
#[derive(Clone, Copy, Debug, Error)]
pub enum MemoryRefusal {
    /// The memory asked for is outside the limits of an arena.
    OutsideLimits,
    /// The machine has not the memory asked for.
    NoHeap,
    /// No node has the number asked.
    NoSuchNode(u32),
    /// No schema has the number asked.
    NoSuchSchema(u8),
    RecordsFull(u32),
    TextFull(u32),
    /// The work or the results memory lent to the call is too short.
    WorkShort(u32),
}

/// What binding refuses, of a column or of a node.
#[derive(Clone, Copy, Debug, Error)]
pub enum BindingRefusal {
    /// A column breaks a rule; it would have had that place in the schema.
    BadColumn { schema: u8, column: u8 },
    NoSuchCode(u32),
    WrongChildCount(u32),
    /// Types or a name do not bind, or a null is of a type that is not nullable.
    DoesNotBind(u32),
    TooDeep(u32),
    TooLarge(u32),
}

/// What a walk refuses.
#[derive(Clone, Copy, Debug, Error)]
pub enum WalkRefusal {
    /// A rewrite's path is over 256 nodes, or it made over 65,535 visits on the way down.
    TooLong(u32),
    /// A visitor or a rewriter faulted at the node, with that code.
    VisitorFault { node: u32, code: u16 },
}

/// What the rules refuse.
#[derive(Clone, Copy, Debug, Error)]
pub enum RulesRefusal {
    /// A hundred rounds changed the node, and one more would.
    TooManyRounds(u32),
}

/// What evaluation refuses.
#[derive(Clone, Copy, Debug, Error)]
pub enum EvaluationRefusal {
    /// The first Root that is of another schema than the row.
    OtherSchema(u32),
    /// The first column whose value does not fit, is missing or is one too many.
    UnfitValue(u8),
    /// A result outside its kind, or a zero divisor.
    Arithmetic(u32),
    UnlikeTypes(u32),
    /// A function of the host faulted at the node, with that code.
    HostFault { node: u32, code: u16 },
}

/// Why a call was refused.
#[derive(Clone, Copy, Debug, Error)]
pub enum Refusal {
    Memory(MemoryRefusal),
    Binding(BindingRefusal),
    Walk(WalkRefusal),
    Rules(RulesRefusal),
    Evaluation(EvaluationRefusal),
}

/// The layer that a refusal comes from.
#[derive(Clone, Copy)]
pub enum Layer {
    Memory,
    Binding,
    Walk,
    Rules,
    Evaluation,
}

/// What a refusal names besides its number.
#[derive(Clone, Copy, Debug, PartialEq, Eq)]
pub enum Place {
    Nothing,
    SchemaColumn { schema: u8, column: u8 },
    /// The number that was asked for.
    Asked(u32),
    Node(u32),
    Column(u8),
    NodeCode { node: u32, code: u16 },
}

// By hand: a derived `From` has no contract, and contracts name the refusal that a `?` makes.
impl From<MemoryRefusal> for Refusal {
    ghost from_gives = { λ e r. r ≡ Memory e };

    fn from(e: MemoryRefusal) -> Refusal {
        Refusal::Memory(e)
    }
}

impl From<BindingRefusal> for Refusal {
    ghost from_gives = { λ e r. r ≡ Binding e };

    fn from(e: BindingRefusal) -> Refusal {
        Refusal::Binding(e)
    }
}

impl From<WalkRefusal> for Refusal {
    ghost from_gives = { λ e r. r ≡ Walk e };

    fn from(e: WalkRefusal) -> Refusal {
        Refusal::Walk(e)
    }
}

impl From<RulesRefusal> for Refusal {
    ghost from_gives = { λ e r. r ≡ Rules e };

    fn from(e: RulesRefusal) -> Refusal {
        Refusal::Rules(e)
    }
}

impl From<EvaluationRefusal> for Refusal {
    ghost from_gives = { λ e r. r ≡ Evaluation e };

    fn from(e: EvaluationRefusal) -> Refusal {
        Refusal::Evaluation(e)
    }
}

impl MemoryRefusal {
    fn number(self) -> u8
        ensures { result ≡ number_of (Memory self) }
    {
        match self {
            MemoryRefusal::OutsideLimits | MemoryRefusal::NoHeap => 1,
            MemoryRefusal::NoSuchNode(_) | MemoryRefusal::NoSuchSchema(_) => 3,
            MemoryRefusal::RecordsFull(_) => 9,
            MemoryRefusal::TextFull(_) => 10,
            MemoryRefusal::WorkShort(_) => 11,
        }
    }

    fn place(self) -> Place
        ensures { result ≡ place_of (Memory self) }
    {
        match self {
            MemoryRefusal::OutsideLimits | MemoryRefusal::NoHeap => Place::Nothing,
            MemoryRefusal::NoSuchNode(asked) => Place::Asked(asked),
            MemoryRefusal::NoSuchSchema(asked) => Place::Asked(u32::from(asked)),
            MemoryRefusal::RecordsFull(node)
            | MemoryRefusal::TextFull(node)
            | MemoryRefusal::WorkShort(node) => Place::Node(node),
        }
    }

    fn cause(self) -> &'static str
        ensures { result.now ≡ cause_words (number_of (Memory self)) }
    {
        match self {
            MemoryRefusal::OutsideLimits | MemoryRefusal::NoHeap => "memory outside its limits",
            MemoryRefusal::NoSuchNode(_) | MemoryRefusal::NoSuchSchema(_) =>
                "no such node or schema",
            MemoryRefusal::RecordsFull(_) => "records full",
            MemoryRefusal::TextFull(_) => "text full",
            MemoryRefusal::WorkShort(_) => "work or results memory short",
        }
    }
}

impl BindingRefusal {
    fn number(self) -> u8
        ensures { result ≡ number_of (Binding self) }
    {
        match self {
            BindingRefusal::BadColumn { .. } => 2,
            BindingRefusal::NoSuchCode(_) => 4,
            BindingRefusal::WrongChildCount(_) => 5,
            BindingRefusal::DoesNotBind(_) => 6,
            BindingRefusal::TooDeep(_) => 7,
            BindingRefusal::TooLarge(_) => 8,
        }
    }

    fn place(self) -> Place
        ensures { result ≡ place_of (Binding self) }
    {
        match self {
            BindingRefusal::BadColumn { schema, column } => Place::SchemaColumn { schema, column },
            BindingRefusal::NoSuchCode(node)
            | BindingRefusal::WrongChildCount(node)
            | BindingRefusal::DoesNotBind(node)
            | BindingRefusal::TooDeep(node)
            | BindingRefusal::TooLarge(node) => Place::Node(node),
        }
    }

    fn cause(self) -> &'static str
        ensures { result.now ≡ cause_words (number_of (Binding self)) }
    {
        match self {
            BindingRefusal::BadColumn { .. } => "a column breaks a rule",
            BindingRefusal::NoSuchCode(_) => "no such host code",
            BindingRefusal::WrongChildCount(_) => "wrong child count",
            BindingRefusal::DoesNotBind(_) => {
                "types or a name do not bind, or a null of a type that is not nullable"
            }
            BindingRefusal::TooDeep(_) => "too deep",
            BindingRefusal::TooLarge(_) => "too large",
        }
    }
}

impl EvaluationRefusal {
    fn number(self) -> u8
        ensures { result ≡ number_of (Evaluation self) }
    {
        match self {
            EvaluationRefusal::OtherSchema(_) | EvaluationRefusal::UnfitValue(_) => 14,
            EvaluationRefusal::Arithmetic(_) => 15,
            EvaluationRefusal::UnlikeTypes(_) => 16,
            EvaluationRefusal::HostFault { .. } => 17,
        }
    }

    fn place(self) -> Place
        ensures { result ≡ place_of (Evaluation self) }
    {
        match self {
            EvaluationRefusal::UnfitValue(column) => Place::Column(column),
            EvaluationRefusal::HostFault { node, code } => Place::NodeCode { node, code },
            EvaluationRefusal::OtherSchema(node)
            | EvaluationRefusal::Arithmetic(node)
            | EvaluationRefusal::UnlikeTypes(node) => Place::Node(node),
        }
    }

    fn cause(self) -> &'static str
        ensures { result.now ≡ cause_words (number_of (Evaluation self)) }
    {
        match self {
            EvaluationRefusal::OtherSchema(_) | EvaluationRefusal::UnfitValue(_) => {
                "a root of another schema, or a row value that does not fit"
            }
            EvaluationRefusal::Arithmetic(_) => "arithmetic fault",
            EvaluationRefusal::UnlikeTypes(_) => "unlike types compared",
            EvaluationRefusal::HostFault { .. } => "host fault",
        }
    }
}

impl Refusal {
    /// Its number, 1 to 18.
    pub fn number(self) -> u8
        ensures { result ≡ number_of self }
    {
        match self {
            Refusal::Memory(e) => e.number(),
            Refusal::Binding(e) => e.number(),
            Refusal::Walk(WalkRefusal::TooLong(_)) => 12,
            Refusal::Walk(WalkRefusal::VisitorFault { .. }) => 18,
            Refusal::Rules(RulesRefusal::TooManyRounds(_)) => 13,
            Refusal::Evaluation(e) => e.number(),
        }
    }

    /// The layer that it comes from.
    pub fn layer(self) -> Layer
        ensures { result ≡ layer_of self }
    {
        match self {
            Refusal::Memory(_) => Layer::Memory,
            Refusal::Binding(_) => Layer::Binding,
            Refusal::Walk(_) => Layer::Walk,
            Refusal::Rules(_) => Layer::Rules,
            Refusal::Evaluation(_) => Layer::Evaluation,
        }
    }

    /// What it names: the node it is about, or what else its cause calls for.
    pub fn place(self) -> Place
        ensures { result ≡ place_of self }
    {
        match self {
            Refusal::Memory(e) => e.place(),
            Refusal::Binding(e) => e.place(),
            Refusal::Walk(WalkRefusal::TooLong(node)) => Place::Node(node),
            Refusal::Walk(WalkRefusal::VisitorFault { node, code }) => Place::NodeCode {
                node,
                code,
            },
            Refusal::Rules(RulesRefusal::TooManyRounds(node)) => Place::Node(node),
            Refusal::Evaluation(e) => e.place(),
        }
    }

    /// Its cause in words, by its number alone.
    fn cause(self) -> &'static str
        ensures { result.now ≡ cause_words (number_of self) }
    {
        match self {
            Refusal::Memory(e) => e.cause(),
            Refusal::Binding(e) => e.cause(),
            Refusal::Walk(WalkRefusal::TooLong(_)) => {
                "a rewrite's path over 256 nodes, or over 65535 visits on the way down"
            }
            Refusal::Walk(WalkRefusal::VisitorFault { .. }) => "visitor's or rewriter's fault",
            Refusal::Rules(RulesRefusal::TooManyRounds(_)) => "a 101st changing round",
            Refusal::Evaluation(e) => e.cause(),
        }
    }
}

impl fmt::Display for Layer {
    ghost output = { λ l. Some (layer_name l) };

    fn fmt<W: fmt::Write>(&self, f: &mut fmt::Formatter<W>) -> fmt::Result {
        match self {
            Layer::Memory => write!(f, "memory"),
            Layer::Binding => write!(f, "binding"),
            Layer::Walk => write!(f, "walk"),
            Layer::Rules => write!(f, "rules"),
            Layer::Evaluation => write!(f, "evaluation"),
        }
    }
}

/// In words; where nothing is named there are none.
impl fmt::Display for Place {
    ghost output = { λ p. Some (place_words p) };

    fn fmt<W: fmt::Write>(&self, f: &mut fmt::Formatter<W>) -> fmt::Result {
        match self {
            Place::Nothing => Ok(()),
            Place::SchemaColumn { schema, column } => write!(f, "schema {schema}, column {column}"),
            Place::Asked(number) => write!(f, "asked {number}"),
            Place::Node(node) => write!(f, "node {node}"),
            Place::Column(column) => write!(f, "column {column}"),
            Place::NodeCode { node, code } => write!(f, "node {node}, code {code}"),
        }
    }
}

/// Why a call was refused, in words: the cause, and behind a comma what it names.
// A wrapper: each layer's refusals print it alone, and `Refusal` behind its number and its layer.
#[derive(Clone, Copy)]
struct Why(Refusal);

impl fmt::Display for Why {
    ghost output = { λ w. Some (why_words w.0) };

    fn fmt<W: fmt::Write>(&self, f: &mut fmt::Formatter<W>) -> fmt::Result {
        let cause = self.0.cause();
        match self.0.place() {
            Place::Nothing => write!(f, "{cause}"),
            place => write!(f, "{cause}, {place}"),
        }
    }
}

// By hand, as the next four: what a derive prints has no contract.
impl fmt::Display for MemoryRefusal {
    ghost output = { λ e. Some (why_words (Memory e)) };

    fn fmt<W: fmt::Write>(&self, f: &mut fmt::Formatter<W>) -> fmt::Result {
        write!(f, "{}", Why(Refusal::Memory(*self)))
    }
}

impl fmt::Display for BindingRefusal {
    ghost output = { λ e. Some (why_words (Binding e)) };

    fn fmt<W: fmt::Write>(&self, f: &mut fmt::Formatter<W>) -> fmt::Result {
        write!(f, "{}", Why(Refusal::Binding(*self)))
    }
}

impl fmt::Display for WalkRefusal {
    ghost output = { λ e. Some (why_words (Walk e)) };

    fn fmt<W: fmt::Write>(&self, f: &mut fmt::Formatter<W>) -> fmt::Result {
        write!(f, "{}", Why(Refusal::Walk(*self)))
    }
}

impl fmt::Display for RulesRefusal {
    ghost output = { λ e. Some (why_words (Rules e)) };

    fn fmt<W: fmt::Write>(&self, f: &mut fmt::Formatter<W>) -> fmt::Result {
        write!(f, "{}", Why(Refusal::Rules(*self)))
    }
}

impl fmt::Display for EvaluationRefusal {
    ghost output = { λ e. Some (why_words (Evaluation e)) };

    fn fmt<W: fmt::Write>(&self, f: &mut fmt::Formatter<W>) -> fmt::Result {
        write!(f, "{}", Why(Refusal::Evaluation(*self)))
    }
}

/// In words: its number, its layer, its cause and what it names.
impl fmt::Display for Refusal {
    ghost output = { λ r. Some (refusal_words r) };

    fn fmt<W: fmt::Write>(&self, f: &mut fmt::Formatter<W>) -> fmt::Result {
        let number = self.number();
        let layer = self.layer();
        let why = Why(*self);
        write!(f, "refused {number} ({layer}): {why}")
    }
}
