//! Integers where their contents octets lie.
ghost use Rattle.std.specs.Prelude.{◌≡◌, pos};
ghost use Rattle.der.specs.Number.{number_content};
ghost use Rattle.tsp.specs.Parser.{integer_value_of};

use der::is_number_content;
use std::marker::Model;

/// An INTEGER of any size, by its contents octets where they lie (X.690 8.3).
#[derive(Drop)]
pub struct Integer<'a> {
    content: &'a [u8],
}

impl<'a> Model for Integer<'a> {
    ghost use Rattle.std.specs.Prelude.{◌≡◌, ℤ};
    ghost use Rattle.der.specs.Number.{number_content, twos_value};

    ghost Value = { ℤ };

    ghost view = { λ integer. twos_value integer.content.now };

    ghost invariant = { λ integer. number_content (twos_value integer.content.now) ≡ integer.content.now };
}

impl<'a> Integer<'a> {
    /// The number whose contents octets these are; none where they are not the fewest that have its value.
    #[tactic(auto, unfolding(crate::specs::Parser::integer_value_of))]
    pub fn from_content(content: &'a [u8]) -> Option<Integer<'a>>
        ensures { result ≡ integer_value_of content.now }
    {
        if is_number_content(content) {
            Some(Integer { content })
        } else {
            None
        }
    }

    /// The number 1.
    #[tactic(auto, unfolding(der::specs::Number::number_content))]
    pub(crate) fn one() -> Integer<'a>
        ensures { result ≡ pos 1 }
    {
        Integer { content: &[1] }
    }

    /// The contents octets: two's complement, most significant octet first, in the fewest octets.
    pub fn content(&self) -> &'a [u8]
        ensures { result.now ≡ number_content self.now }
    {
        self.content
    }
}
