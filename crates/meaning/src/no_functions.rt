ghost use Rattle.meaning.specs.NoFunctions.{no_functions};
ghost use Rattle.std.proofs.Common.{rules};

use crate::answers::{Reply, RuleAnswer};
use crate::host::Host;
use crate::texts::Texts;
use vocabulary::types::DType;
use vocabulary::values::Value;

/// The host without functions.
#[derive(Clone, Copy)]
pub struct NoFunctions;

impl Host for NoFunctions {
    ghost meaning = { λ _. no_functions };

    ghost lawful = { Prim.search rules };

    ghost names = { Prim.search rules };

    fn has(&self, _code: u16) -> bool {
        false
    }

    fn takes(&self, _code: u16, _count: u8) -> bool {
        false
    }

    fn type_of(&self, _code: u16, _types: &[DType]) -> Option<DType> {
        None
    }

    fn value_of(&self, code: u16, _args: &[Value], _texts: Texts) -> Reply {
        Reply::Fails(code)
    }

    fn rule(
        &self,
        _code: u16,
        _types: &[DType],
        _literals: &[Option<Value>],
        _arena: &[u8],
    ) -> RuleAnswer {
        RuleAnswer::nothing()
    }
}
