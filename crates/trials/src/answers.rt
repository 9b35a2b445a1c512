use vocabulary::refusals::{Place, Refusal};

/// The number of the refusal, if the call was refused.
pub(crate) fn number_of<T: Drop>(answer: Result<T, Refusal>) -> Option<u8> {
    Some(answer.err()?.number())
}

/// The number of the refusal and what it names, if the call was refused.
pub(crate) fn told<T: Drop>(answer: Result<T, Refusal>) -> Option<(u8, Place)> {
    let refusal = answer.err()?;
    Some((refusal.number(), refusal.place()))
}
