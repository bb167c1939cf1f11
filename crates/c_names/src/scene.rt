//! What is round the constructs of a file.

ghost use Rattle.std.specs.Prelude.{◌≡◌, IfOk};
ghost use Rattle.c_names.specs.Code.{function_number_in};

use crate::facts::Facts;
use crate::operations::bodiless_number;
use c_expr_rules::Surroundings;
use std::alloc::AllocError;

/// What is round a construct: what is told of its file, and what is round the expressions in it.
#[derive(Drop)]
pub struct Scene<'a, S> {
    pub facts: &'a Facts,
    pub around: &'a S,
}

impl<S: Surroundings> Scene<'_, S> {
    /// The number of the function of this name: the place of its body, or one behind the bodies and the operations,
    /// where it hangs on whether the function is from int to int.
    pub fn function_number(&self, takes_and_gives_int: bool, name: u32) -> Result<u32, AllocError>
        ensures { IfOk result (λ number. number ≡ function_number_in self.now.facts.now
            (S.told self.now.around.now) takes_and_gives_int name) }
    {
        let bodies = &self.facts.bodies;
        match bodies.place_of(name) {
            Some(number) => Ok(number),
            None => {
                let letters = self.around.spelling(name);
                bodiless_number(bodies.len(), letters, takes_and_gives_int, name)
            }
        }
    }
}
