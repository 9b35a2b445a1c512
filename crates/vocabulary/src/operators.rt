ghost use Rattle.std.specs.Prelude.{◌≡◌};
ghost use Rattle.vocabulary.specs.Operators.{is_arithmetic, is_comparison, swapped, inverted, family_of, strict_as};
ghost use Rattle.vocabulary.specs.Operators.{is_strict};

/// What a `Binary` node does with its two operands.
#[derive(Clone, Copy)]
pub enum Operator {
    Eq,
    NotEq,
    Gt,
    Gte,
    Lt,
    Lte,
    /// Kleene's And.
    And,
    /// Kleene's Or.
    Or,
    Add,
    Sub,
    Mul,
    Div,
}

/// The six comparisons.
#[derive(Clone, Copy)]
pub enum CompareOperator {
    Eq,
    NotEq,
    Gt,
    Gte,
    Lt,
    Lte,
}

/// The two connectives of Kleene's three-valued logic.
#[derive(Clone, Copy)]
pub enum Connective {
    And,
    Or,
}

/// The four operations on numbers.
#[derive(Clone, Copy)]
pub enum Arithmetic {
    Add,
    Sub,
    Mul,
    Div,
}

/// An operator, told apart by what it takes and gives.
// Kept beside `Operator`, whose twelve names are those of the crate this is a port of.
#[derive(Clone, Copy)]
pub enum Family {
    Compare(CompareOperator),
    Connect(Connective),
    Compute(Arithmetic),
}

impl Operator {
    /// The family that the operator belongs to.
    pub fn family(self) -> Family
        ensures { result ≡ family_of self }
    {
        match self {
            Operator::Eq => Family::Compare(CompareOperator::Eq),
            Operator::NotEq => Family::Compare(CompareOperator::NotEq),
            Operator::Gt => Family::Compare(CompareOperator::Gt),
            Operator::Gte => Family::Compare(CompareOperator::Gte),
            Operator::Lt => Family::Compare(CompareOperator::Lt),
            Operator::Lte => Family::Compare(CompareOperator::Lte),
            Operator::And => Family::Connect(Connective::And),
            Operator::Or => Family::Connect(Connective::Or),
            Operator::Add => Family::Compute(Arithmetic::Add),
            Operator::Sub => Family::Compute(Arithmetic::Sub),
            Operator::Mul => Family::Compute(Arithmetic::Mul),
            Operator::Div => Family::Compute(Arithmetic::Div),
        }
    }

    pub fn is_comparison(self) -> bool
        ensures { result ≡ is_comparison self }
    {
        matches!(self.family(), Family::Compare(_))
    }

    pub fn is_arithmetic(self) -> bool
        ensures { result ≡ is_arithmetic self }
    {
        matches!(
            self,
            Operator::Add | Operator::Sub | Operator::Mul | Operator::Div
        )
    }

    /// The operator that gives the same answer with the operands exchanged, if there is one.
    pub fn swap(self) -> Option<Operator>
        ensures { result ≡ swapped self }
    {
        match self {
            Operator::Gt => Some(Operator::Lt),
            Operator::Gte => Some(Operator::Lte),
            Operator::Lt => Some(Operator::Gt),
            Operator::Lte => Some(Operator::Gte),
            Operator::Sub | Operator::Div => None,
            _ => Some(self),
        }
    }

    /// The comparison that holds just where this one does not, if this is a comparison.
    pub fn inverse(self) -> Option<Operator>
        ensures { result ≡ inverted self }
    {
        match self {
            Operator::Eq => Some(Operator::NotEq),
            Operator::NotEq => Some(Operator::Eq),
            Operator::Gt => Some(Operator::Lte),
            Operator::Gte => Some(Operator::Lt),
            Operator::Lt => Some(Operator::Gte),
            Operator::Lte => Some(Operator::Gt),
            _ => None,
        }
    }
}

/// Whether a bound of a `Between` excludes the bound itself.
#[derive(Clone, Copy)]
pub enum StrictComparison {
    /// `<`
    Strict,
    /// `<=`
    NonStrict,
}

impl StrictComparison {
    // A method and no `From`: the name is the crate's.
    pub fn to_operator(self) -> Operator
        ensures { result ≡ strict_as self }
    {
        match self {
            StrictComparison::Strict => Operator::Lt,
            StrictComparison::NonStrict => Operator::Lte,
        }
    }

    pub fn is_strict(self) -> bool
        ensures { result ≡ is_strict self }
    {
        matches!(self, StrictComparison::Strict)
    }
}

/// How a `Between` compares its column with each of its bounds.
#[derive(Clone, Copy)]
pub struct BetweenOptions {
    pub lower_strict: StrictComparison,
    pub upper_strict: StrictComparison,
}
