//! The table of operators.
ghost use Rattle.std.specs.Prelude.{◌≡◌};
ghost use Rattle.std.specs.Option.{option_copied};
ghost use Rattle.store_model.specs.Operator.{meaning};
ghost use Rattle.operators.specs.Means.{AnswersMeaning};

use store_model::{OpValue, Value};

/// An operator as a closure: the new value from the old one and an argument, or None where the
/// operator has no value there.
pub type OpBox = Box<dyn Fn(&Option<Value>, &OpValue) -> Option<OpValue> + Send + Sync>;

/// The operators of a store: 1 is add, 2 is max, 3 is join.
#[derive(Drop)]
pub struct Operators {
    add: OpBox,
    max: OpBox,
    join: OpBox,
    ghost add_callable: { OpBox.IsAlwaysCallable add },
    ghost max_callable: { OpBox.IsAlwaysCallable max },
    ghost join_callable: { OpBox.IsAlwaysCallable join },
    ghost add_means: { AnswersMeaning 1 (OpBox.post add) },
    ghost max_means: { AnswersMeaning 2 (OpBox.post max) },
    ghost join_means: { AnswersMeaning 3 (OpBox.post join) },
}

impl Operators {
    /// The table of these three closures.
    pub fn new(add: OpBox, max: OpBox, join: OpBox) -> Operators
        requires add_callable { OpBox.IsAlwaysCallable add }
        requires max_callable { OpBox.IsAlwaysCallable max }
        requires join_callable { OpBox.IsAlwaysCallable join }
        requires add_means { AnswersMeaning 1 (OpBox.post add) }
        requires max_means { AnswersMeaning 2 (OpBox.post max) }
        requires join_means { AnswersMeaning 3 (OpBox.post join) }
    {
        Operators { add, max, join }
    }

    /// The value that the operator of this number gives, or None where it gives none. No operator
    /// but 1, 2 and 3 gives any.
    #[tactic(auto, unfolding(crate::specs::Means::made_by))]
    pub fn apply(&self, id: u8, old: Option<&Value>, argument: &OpValue) -> Option<OpValue>
        ensures { result ≡ meaning id (option_copied old.entry) argument.now }
    {
        let old = old.map(|value| value.copied());
        match id {
            1 => (self.add)(&old, argument),
            2 => (self.max)(&old, argument),
            3 => (self.join)(&old, argument),
            _ => None,
        }
    }
}
