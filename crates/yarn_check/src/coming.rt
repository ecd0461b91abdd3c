//! What came to an instruction.
ghost use Rattle.std.specs.Prelude.{◌≡◌};
ghost use Rattle.yarn_check.specs.Pass.{and_shape};
ghost use Rattle.yarn_check.specs.Views.{stack_of, coming_of};

use crate::stack::Stack;

/// What came to an instruction so far: no shape, one, or several that differ.
#[derive(Debug, Drop)]
pub(crate) enum Coming {
    Nothing,
    Alone(Box<Stack>),
    Several,
}

impl Coming {
    /// What came, and this shape.
    pub(crate) fn and(self, stack: Box<Stack>) -> Coming
        ensures { coming_of result ≡ and_shape (stack_of stack.value) (coming_of self) }
    {
        match self {
            Coming::Nothing => Coming::Alone(stack),
            Coming::Alone(one) => {
                if one.is_same(&stack) {
                    Coming::Alone(one)
                } else {
                    Coming::Several
                }
            }
            Coming::Several => Coming::Several,
        }
    }
}
