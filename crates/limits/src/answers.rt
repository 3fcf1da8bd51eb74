// What is printed of an answer. What is written cannot be said in a contract, so these have none.
use scope::scope::Scope;
use std::fmt;
use text::refusal::Refusal;

// What a call answered: the counts after it, or the refusal's number.
#[derive(Clone, Copy)]
pub struct Answer(pub Result<Scope, Refusal>);

impl fmt::Display for Answer {
    fn fmt<W: fmt::Write>(&self, f: &mut fmt::Formatter<W>) -> fmt::Result {
        match self.0 {
            Ok(
                Scope {
                    contexts,
                    entries,
                    parsed,
                },
            ) => write!(
                f,
                "done, contexts {contexts}, entries {entries}, parsed names {parsed}"
            ),
            Err(refusal) => {
                let n = u32::from(refusal);
                write!(f, "refused with {n}")
            }
        }
    }
}
