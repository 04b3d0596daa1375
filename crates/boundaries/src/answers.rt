//! What the tests compare: a refusal by its number.
use elementary::error::Refusal;

pub fn told<T, E: Into<Refusal>>(answer: Result<T, E>) -> Result<T, Refusal> {
    answer.map_err(Into::into)
}
