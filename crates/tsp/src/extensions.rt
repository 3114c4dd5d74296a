//! Extensions where their encodings lie.
ghost use Rattle.std.specs.Prelude.{◌≡◌, ◌↔◌, [], IsTrue};
ghost use Rattle.der.specs.DataValueView.{values_view};
ghost use Rattle.std.specs.Iterator.{YieldsFirstBy, item_count};
ghost use Rattle.tsp.specs.{View.extension_view, ExtensionsInPlace.extensions_in, ExtensionsInPlace.AreExtensions};

use crate::object_identifier::ObjectIdentifier;
use crate::parser::extension_from;
use der::DataValues;
use std::marker::Model;

/// An extension (RFC 5280 4.1, Extension).
#[derive(Drop)]
pub struct Extension<'a> {
    /// Its object identifier (extnID).
    pub identifier: ObjectIdentifier<'a>,
    /// Whether who doesn't know the extension has to refuse it.
    pub critical: bool,
    /// The octets of its value (extnValue).
    pub value: &'a [u8],
}

/// Extensions one after the other where their encodings lie, in their order (RFC 5280 4.1, Extensions). The iterator
/// reads each where it stands, and takes no memory.
#[derive(Drop)]
pub struct Extensions<'a> {
    members: DataValues<'a>,
}

// A clause sees the extensions that are left.
impl<'a> Model for Extensions<'a> {
    ghost use Rattle.std.specs.Prelude.{List};
    ghost use Rattle.tsp.specs.Request.{ExtensionValue};

    ghost Value = { List ExtensionValue };

    ghost use Rattle.der.specs.DataValueView.{values_view};
    ghost use Rattle.tsp.specs.ExtensionsInPlace.{extensions_in, AreExtensions};

    ghost view = { λ extensions. extensions_in (values_view extensions.members) };

    ghost invariant = { λ extensions. AreExtensions (values_view extensions.members) };
}

impl<'a> Extensions<'a> {
    /// No extension.
    #[tactic(auto, unfolding(crate::specs::Parser::extensions_of, crate::specs::ExtensionsInPlace::extensions_in))]
    pub(crate) fn none() -> Extensions<'a>
        ensures { result ≡ [] }
    {
        Extensions {
            members: DataValues::none(),
        }
    }

    /// Those that the values are.
    pub(crate) fn of(members: DataValues<'a>) -> Extensions<'a>
        requires { AreExtensions (values_view members) }
        ensures { result ≡ extensions_in (values_view members.entry) }
    {
        Extensions { members }
    }

    /// The same extensions once more.
    pub fn again(&self) -> Extensions<'a>
        ensures { result ≡ self.now }
    {
        Extensions {
            members: self.members,
        }
    }

    /// Whether no extension is left.
    #[tactic(auto, using(crate::proofs::ExtensionRuns::no_extensions, crate::proofs::ExtensionRuns::end_extensions))]
    pub fn is_empty(&self) -> bool
        ensures { IsTrue result ↔ (self.now ≡ []) }
    {
        self.members.is_empty()
    }
}

impl<'a> Iterator for Extensions<'a> {
    type Item = Extension<'a>;

    ghost next_gives = { YieldsFirstBy extension_view (λ extensions. extensions) };

    ghost remaining = { item_count (λ extensions. extensions) };

    fn next(&mut self) -> Option<Extension<'a>> {
        extension_from(true, self.members.next()?)
    }
}
