ghost use Rattle.std.specs.Prelude.{◌≡◌, ◌<◌, ◌%◌, ◌/◌, ◌==◌, MatchOption};

/// An identifier octet: the class in bits 8 and 7, bit 6 set where further values follow, and in bits 5 to 1 the tag
/// number, 0 to 30 (X.690 8.1.2.2).
#[derive(Clone, Copy, PartialEq, Eq)]
pub struct Tag {
    /// The octet itself.
    pub octet: u8,
    pub ghost low_tag_number: { octet % 32 < 31 },
}

impl Tag {
    /// BOOLEAN (X.690 8.2).
    pub const BOOLEAN: Tag = Tag { octet: 0x01 };
    /// INTEGER (X.690 8.3).
    pub const INTEGER: Tag = Tag { octet: 0x02 };
    /// OCTET STRING (X.690 8.7).
    pub const OCTET_STRING: Tag = Tag { octet: 0x04 };
    /// NULL (X.690 8.8).
    pub const NULL: Tag = Tag { octet: 0x05 };
    /// OBJECT IDENTIFIER (X.690 8.19).
    pub const OBJECT_IDENTIFIER: Tag = Tag { octet: 0x06 };
    /// GeneralizedTime (X.690 8.25, 11.7).
    pub const GENERALIZED_TIME: Tag = Tag { octet: 0x18 };
    /// SEQUENCE and SEQUENCE OF (X.690 8.9, 8.10).
    pub const SEQUENCE: Tag = Tag { octet: 0x30 };
    /// SET and SET OF (X.690 8.11, 8.12).
    pub const SET: Tag = Tag { octet: 0x31 };

    /// The tag of an identifier octet; none where bits 5 to 1 are all set, which begins a tag number of 31 and above.
    pub fn new(octet: u8) -> Option<Tag>
        ensures { MatchOption result (octet % 32 ≡ 31) (λ tag. tag.octet ≡ octet) }
    {
        if octet % 32 < 31 {
            Some(Tag { octet })
        } else {
            None
        }
    }

    /// Whether bit 6 is set: further values follow, and not contents octets (X.690 8.1.2.5).
    pub fn is_constructed(self) -> bool
        ensures { result ≡ (self.octet / 32 % 2 == 1) }
    {
        self.octet / 32 % 2 == 1
    }
}
