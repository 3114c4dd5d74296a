ghost use Rattle.std.specs.Prelude.{◌≡◌, ◌↔◌, ◌<◌, ◌≤◌, ◌^◌, ℕ, Bool, List, [], Option, Some, None, Err, option_map};
ghost use Rattle.std.specs.Prelude.{length, IfOk, IfErr, IfSome, IsTrue, ◌⊎◌, MatchResult};
ghost use Rattle.der.specs.Node.{Node, primitive, encoding, AreOctets, IsLawful};
ghost use Rattle.der.specs.{Number.number_content, DataValueView.value_view};
ghost use Rattle.der.specs.ObjectIdentifier.{IsOid, oid_content};
ghost use Rattle.gentime.specs.GenTime.{last_moment};
ghost use Rattle.tsp.specs.{Parser.request_of, Parser.only, View.request_view, View.tst_view};
ghost use Rattle.tsp.specs.Request.{RequestValue, IsRequest, unstated, time_stamp_req, sha256_request, Spells};
ghost use Rattle.tsp.specs.{Rules.HasVersionOne, Rules.HasPlainParameters, Spellings.HasNoFalse, Spellings.AreRequest};
ghost use Rattle.tsp.specs.Tst.{TstValue, IsTst, IsTsaName, tst_info, answer};
ghost use Rattle.tsp.specs.declared.fault.TspFault.TheVariants.{Form, TooLong};

use crate::extensions::Extensions;
use crate::fault::TspFault;
use crate::imprint::MessageImprint;
use crate::integer::Integer;
use crate::object_identifier::ObjectIdentifier;
use crate::parser::{
    end, extensions, flag, imprint_from, integer_from, optional_integer, optional_oid,
};
use crate::tags::REQUEST_EXTENSIONS;
use crate::tst::TstInfo;
use der::{DataValue, Tag, numbers_have_one_content, read_value};
use gentime::GenTime;

/// How many octets a request may have.
const MAX_OCTETS: usize = 65_536;

/// A time-stamp request (RFC 3161 2.4.1, TimeStampReq), whose parts lie in the octets that `read_request` read.
#[derive(Drop)]
pub struct Request<'a> {
    pub(crate) version: Integer<'a>,
    pub(crate) imprint: MessageImprint<'a>,
    pub(crate) policy: Option<ObjectIdentifier<'a>>,
    pub(crate) nonce: Option<Integer<'a>>,
    pub(crate) cert_req: bool,
    pub(crate) extensions: Extensions<'a>,
}

impl<'a> Request<'a> {
    /// The request of version 1 for a SHA-256 digest, whose algorithm has NULL parameters (RFC 3161 2.4.1, RFC 5754
    /// 2.2): no policy, no nonce and no extensions.
    pub fn of_sha256(digest: &'a [u8; 32], cert_req: bool) -> Request<'a>
        ensures made { request_view result ≡ sha256_request digest.now cert_req }
        ensures spelled { Spells (encoding (time_stamp_req unstated (request_view result))) (request_view result) }
        ensures short { length (encoding (time_stamp_req unstated (request_view result))) ≤ 65536 }
    {
        sha256_parts(digest, cert_req)
    }

    /// The contents octets of the version (RFC 3161 2.4.1).
    pub fn version(&self) -> &'a [u8]
        ensures { result.now ≡ number_content (request_view self.now).version }
    {
        self.version.content()
    }

    /// The contents octets of the hash algorithm's object identifier (RFC 3161 2.4.1, X.690 8.19).
    pub fn algorithm(&self) -> &'a [u8]
        ensures { result.now ≡ oid_content (request_view self.now).imprint.algorithm }
    {
        self.imprint.algorithm.content()
    }

    /// The encoding of the algorithm's parameters, where there are any (RFC 5280 4.1.1.2).
    pub fn parameters(&self) -> Option<&'a [u8]>
        ensures { option_map (λ octets. octets.now) result
            ≡ option_map encoding (request_view self.now).imprint.parameters }
    {
        match &self.imprint.parameters {
            None => None,
            Some(parameters) => Some(parameters.octets()),
        }
    }

    /// The octets of the hash of what is to be stamped (RFC 3161 2.4.1, hashedMessage).
    pub fn hash(&self) -> &'a [u8]
        ensures { result.now ≡ (request_view self.now).imprint.hash }
    {
        self.imprint.hash
    }

    /// The contents octets of the object identifier of the policy that is asked for, where one is (RFC 3161 2.4.1,
    /// reqPolicy).
    pub fn policy(&self) -> Option<&'a [u8]>
        ensures { option_map (λ content. content.now) result ≡ option_map oid_content (request_view self.now).policy }
    {
        match &self.policy {
            None => None,
            Some(policy) => Some(policy.content()),
        }
    }

    /// The contents octets of the nonce, where there is one (RFC 3161 2.4.1).
    pub fn nonce(&self) -> Option<&'a [u8]>
        ensures { option_map (λ content. content.now) result ≡ option_map number_content (request_view self.now).nonce }
    {
        match &self.nonce {
            None => None,
            Some(nonce) => Some(nonce.content()),
        }
    }

    /// Whether the token is to come with the signer's certificate (RFC 3161 2.4.1, certReq).
    pub fn cert_req(&self) -> bool
        ensures { result ≡ (request_view self.now).cert_req }
    {
        self.cert_req
    }

    /// Whether the version is 1 (RFC 3161 2.4.1).
    pub fn has_version_one(&self) -> bool
        ensures { IsTrue result ↔ HasVersionOne (request_view self.now) }
    {
        numbers_have_one_content();
        self.version() == [1].as_slice()
    }

    /// Whether the algorithm's parameters are absent or NULL (RFC 5280 4.1.1.2).
    pub fn has_plain_parameters(&self) -> bool
        ensures { IsTrue result ↔ HasPlainParameters (request_view self.now) }
    {
        match &self.imprint.parameters {
            None => true,
            Some(parameters) => matches!(parameters.contents_under(Tag::NULL), Some([])),
        }
    }

    /// The extensions, in their order (RFC 3161 2.4.1); none where they are absent.
    pub fn extensions(&self) -> Extensions<'a>
        ensures { result ≡ (request_view self.now).extensions }
    {
        self.extensions.again()
    }

    /// The TSTInfo that answers the request (RFC 3161 2.4.2): imprint, nonce and extensions as they stand in it, and
    /// the policy, serial number, genTime, accuracy (in microseconds), ordering and name of the authority that are
    /// given. Each is taken as it is: that the accuracy can be stated, the serial number is a new one, and the name is
    /// a Name, is the caller's.
    pub fn into_tst_info(
        self,
        policy: ObjectIdentifier<'a>,
        serial: u64,
        gen_time: GenTime,
        accuracy: u32,
        ordering: bool,
        tsa: Option<DataValue<'a>>,
    ) -> TstInfo<'a>
        ensures { tst_view result ≡ answer (request_view self.entry) policy.entry serial gen_time accuracy ordering
            (option_map value_view tsa.entry) }
    {
        TstInfo {
            policy,
            imprint: self.imprint,
            serial,
            gen_time,
            accuracy,
            ordering,
            nonce: self.nonce,
            tsa,
            extensions: self.extensions,
        }
    }
}

/// The value NULL (X.690 8.8).
fn null<'a>() -> DataValue<'a>
    ensures { value_view result ≡ primitive 0x05 [] }
{
    match read_value(&[0x05, 0x00]) {
        Ok(value) => value,
        Err(_) => unreachable!(),
    }
}

/// The parts of the request for a SHA-256 digest.
fn sha256_parts(digest: &[u8; 32], cert_req: bool) -> Request<'_>
    ensures { request_view result ≡ sha256_request digest.now cert_req }
{
    Request {
        version: Integer::one(),
        imprint: MessageImprint {
            algorithm: ObjectIdentifier::sha256(),
            parameters: Some(null()),
            hash: digest,
        },
        policy: None,
        nonce: None,
        cert_req,
        extensions: Extensions::none(),
    }
}

/// Requests and what is said of them: octets spell one request; the TSTInfo that answers a request of at most 65,536
/// octets is lawful, so that `write_tst` writes it; the authority's name in it has at most 29 levels and 65,536 octets.
pub fn requests_have_one_reading()
    ensures one { (octets : List ℕ) (r s : RequestValue) → Spells octets r → Spells octets s → r ≡ s }

    // Spellings of one request differ in the octets of its FALSEs alone, which may be stated or left away, and in the
    // lengths that count them; a request without a FALSE has one spelling.
    ensures parts { (octets : List ℕ) (r : RequestValue) → Spells octets r → AreRequest octets r }
    ensures one_spelling { (octets others : List ℕ) (r : RequestValue) → HasNoFalse r → Spells octets r
        → Spells others r → octets ≡ others }

    // Without its stated FALSEs a request of at most 65,536 octets is lawful too. What `write_request` writes spells
    // it, so it is read back.
    ensures unstated { (octets : List ℕ) (r : RequestValue) → Spells octets r → length octets ≤ 65536
        → IsLawful (time_stamp_req unstated r) }
    ensures written { (r : RequestValue) → IsRequest r → IsLawful (time_stamp_req unstated r)
        → Spells (encoding (time_stamp_req unstated r)) r }
    ensures sha256 { (digest : List ℕ) (cert_req : Bool) → AreOctets digest → length digest ≤ 32
        → Spells (encoding (time_stamp_req unstated (sha256_request digest cert_req))) (sha256_request digest cert_req)
        × (length (encoding (time_stamp_req unstated (sha256_request digest cert_req))) ≤ 65536) }
    ensures lawful { (octets : List ℕ) (r : RequestValue) (t : TstValue) → Spells octets r → length octets ≤ 65536
        → IsTst t → t.imprint ≡ r.imprint → t.nonce ≡ r.nonce → t.extensions ≡ r.extensions → IfSome t.tsa IsTsaName
        → IsLawful (tst_info t) }
    ensures answer { (octets : List ℕ) (r : RequestValue) → Spells octets r → length octets ≤ 65536
        → (policy : List ℕ) (serial gen_time accuracy : ℕ) (ordering : Bool) (tsa : Option Node) → IsOid policy
        → 1 ≤ serial → serial < 2 ^ 63 → gen_time ≤ last_moment → 1 ≤ accuracy → accuracy ≤ 1000000
        → IfSome tsa IsTsaName → IsTst (answer r policy serial gen_time accuracy ordering tsa)
        × IsLawful (tst_info (answer r policy serial gen_time accuracy ordering tsa)) }
{}

/// Reads a TimeStampReq (RFC 3161 2.4.1) in its distinguished encoding where it lies, but that certReq's and each
/// `critical`'s FALSE may be stated. It takes no memory, and its work grows as the number of the octets.
///
/// Refused as `TooLong` where there are more than 65,536 octets, which is judged first, and as `Form` where no request
/// has these octets.
pub fn read_request(octets: &[u8]) -> Result<Request<'_>, TspFault>
    ensures found { IfOk result (λ request. Spells octets.now (request_view request)) }
    ensures short { IfOk result (λ request. length octets.now ≤ 65536) }
    ensures only { (r : RequestValue) → Spells octets.now r → length octets.now ≤ 65536 →
        MatchResult result (λ request. request_view request ≡ r) (λ fault. ⊥) }
    ensures form { result ≡ Err Form → (r : RequestValue) → Spells octets.now r → ⊥ }
    ensures too_long { (result ≡ Err TooLong) ↔ (65536 < length octets.now) }
    ensures refusals { IfErr result (λ fault. (fault ≡ Form) ⊎ (fault ≡ TooLong)) }
{
    if octets.len() > MAX_OCTETS {
        return Err(TspFault::TooLong);
    }
    match read_value(octets) {
        Ok(value) => request_from(value).ok_or(TspFault::Form),
        Err(_) => Err(TspFault::Form),
    }
}

/// The request that a value is.
#[tactic(auto, unfolding(crate::specs::Parser::request_of, crate::specs::Parser::only))]
fn request_from(value: DataValue<'_>) -> Option<Request<'_>>
    ensures { option_map request_view result ≡ request_of (value_view value.entry) }
{
    let Some(mut rest) = value.components_under(Tag::SEQUENCE) else {
        return None;
    };
    let Some(part) = rest.next() else { return None };
    let Some(version) = integer_from(part) else {
        return None;
    };
    let Some(part) = rest.next() else { return None };
    let Some(imprint) = imprint_from(part) else {
        return None;
    };
    let Some(policy) = optional_oid(&mut rest) else {
        return None;
    };
    let Some(nonce) = optional_integer(&mut rest) else {
        return None;
    };
    let Some(cert_req) = flag(true, &mut rest) else {
        return None;
    };
    let Some(extensions) = extensions(true, REQUEST_EXTENSIONS, &mut rest) else {
        return None;
    };
    let Some(_) = end(&rest) else { return None };
    Some(Request {
        version,
        imprint,
        policy,
        nonce,
        cert_req,
        extensions,
    })
}
