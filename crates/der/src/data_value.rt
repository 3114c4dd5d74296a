ghost use Rattle.std.specs.Prelude.{◌≡◌, true};
ghost use Rattle.der.specs.DataValue.{is_value, are_values};

use crate::cursor::Element;

/// A lawful value where it lies in octets that were read: X.690 8.1.1 at every level, and at most 32 levels.
#[derive(Clone, Copy)]
pub struct DataValue<'a> {
    /// Its identifier octet, its contents octets, and all its octets.
    pub element: Element<'a>,
    pub ghost lawful: { is_value element.whole.now ≡ true },
}

/// Lawful values one after the other, where they lie in octets that were read, from which the first is taken at a time.
#[derive(Clone, Copy)]
pub struct DataValues<'a> {
    /// The octets of the values that are left.
    pub rest: &'a [u8],
    pub ghost lawful: { are_values rest.now ≡ true },
}
