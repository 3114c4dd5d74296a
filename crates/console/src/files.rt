//! The files that say whose certificate tokens name, and who signs.
ghost use Rattle.std.specs.Prelude.{◌≡◌, ◌⊎◌, ◌≤◌, [], length, None, IfOk, IfErr, option_map};
ghost use Rattle.cms.specs.Certificate.{IsAlgorithm};
ghost use Rattle.console.specs.Files.{IsAlgorithmOf, IsKeyOf, Reads, ReadsAs, ReadsChain, ReadsIdentity};
ghost use Rattle.console.specs.Files.{most_of_algorithm, most_of_key, octets_of, source_of};
ghost use Rattle.console.specs.{Fault.IsFileFault, Identity.IsIdentity};

use crate::fault::{Fault, InputFault};
use crate::source::FileSource;
use cms::{Algorithm, Identity, KeyedHash};
use std::alloc::Global;

/// One octet more than a certificate may have.
const BEYOND_A_CERTIFICATE: u64 = 16_385;

/// One octet more than an AlgorithmIdentifier may have.
const BEYOND_AN_ALGORITHM: u64 = 257;

/// So many octets of a chain decide how it is refused: two certificates, one value more of the most contents that a
/// value has, and an octet behind that.
const MOST_OF_A_CHAIN: u64 = 2 * 16_384 + 5 + 16_777_215 + 1;

/// The most octets of a signing key.
const MOST_OF_A_KEY: usize = 256;

/// Reads a certificate, and then its chain, where a file is named for one. A file that can't be read is `input` 2. One
/// that is no certificate or no chain of some, or that has a certificate of more than 16,384 octets, more than three in
/// the chain, or one twice, is `cms` with the number of its refusal. Where memory runs out it is `input` 7 over a file,
/// and `cms` 3 over what it has.
pub fn read_identity<F: FileSource + AllocGlobal>(
    rt: &F,
    path: &str,
    chain: Option<&str>,
) -> Result<Identity, Fault>
    ensures reads { ReadsIdentity (source_of F.opens F.refuses F.File.remaining rt.now) path.now
        (option_map (λ path. path.now) chain.entry) result }

    // No contract says what a file of the machine holds. So the identity is that of some certificate and some chain.
    ensures found { IfOk result IsIdentity }
    ensures alone { chain.entry ≡ None → IfOk result (λ identity. identity.chain ≡ []) }
    ensures faults { IfErr result IsFileFault }
{
    let certificate = read_beginning(rt, path, BEYOND_A_CERTIFICATE)?;
    let chain = read_chain(rt, certificate.as_slice(), chain)?;
    Ok(Identity::from_parts(rt.alloc(), certificate.as_slice(), chain.as_slice())?)
}

/// Reads the chain of a certificate, none where no file is named. What is wrong with the certificate is told before the
/// file is looked for.
fn read_chain<F: FileSource + AllocGlobal>(
    rt: &F,
    certificate: &[u8],
    path: Option<&str>,
) -> Result<Vec<u8>, Fault>
    ensures reads { ReadsChain (source_of F.opens F.refuses F.File.remaining rt.now) certificate.now
        (option_map (λ path. path.now) path.entry) (octets_of result) }
    ensures none { path.entry ≡ None → IfOk result (λ octets. octets.items ≡ []) }
    ensures faults { IfErr result IsFileFault }
{
    let Some(path) = path else {
        return Ok(Vec::new(rt.alloc()));
    };
    Identity::from_certificate(rt.alloc(), certificate)?;
    Ok(read_beginning(rt, path, MOST_OF_A_CHAIN)?)
}

/// Reads the key of the stand-in signer. A file that can't be read, or hasn't 1 to 256 octets, is `input` 2. Where
/// memory runs out it is `input` 7 over the file, and `cms` 3 over the signer.
pub fn read_signer<F: FileSource + AllocGlobal>(rt: &F, path: &str) -> Result<KeyedHash, Fault>
    ensures reads { ReadsAs (source_of F.opens F.refuses F.File.remaining rt.now) path.now most_of_key IsKeyOf result }
    ensures some { IfOk result (λ signer. 1 ≤ length signer) }
    ensures few { IfOk result (λ signer. length signer ≤ 256) }
    ensures faults { IfErr result IsFileFault }
{
    let octets = read_beginning(rt, path, MOST_OF_A_KEY as u64 + 1)?;
    key_of(rt.alloc(), octets.as_slice())
}

/// The stand-in signer with that key. One that hasn't 1 to 256 octets is `File`.
fn key_of(alloc: Global, octets: &[u8]) -> Result<KeyedHash, Fault>
    ensures is { IsKeyOf octets.now result }
    ensures some { IfOk result (λ signer. 1 ≤ length signer) }
    ensures few { IfOk result (λ signer. length signer ≤ 256) }
    ensures faults { IfErr result IsFileFault }
{
    if octets.is_empty() || octets.len() > MOST_OF_A_KEY {
        return Err(Fault::Input(InputFault::File));
    }
    Ok(KeyedHash::new(alloc, octets)?)
}

/// Reads an algorithm. A file that can't be read is `input` 2, and one that is no AlgorithmIdentifier, or one of more
/// than 256 octets, `cms` with the number of its refusal. Where memory runs out it is `input` 7 over the file, and
/// `cms` 3 over the algorithm.
pub fn read_algorithm<F: FileSource + AllocGlobal>(rt: &F, path: &str) -> Result<Algorithm, Fault>
    ensures reads { ReadsAs (source_of F.opens F.refuses F.File.remaining rt.now) path.now most_of_algorithm
        IsAlgorithmOf result }

    // No contract says what a file of the machine holds. So it is some algorithm.
    ensures found { IfOk result (λ algorithm. (length algorithm ≤ 256) × IsAlgorithm algorithm) }
    ensures faults { IfErr result IsFileFault }
{
    let octets = read_beginning(rt, path, BEYOND_AN_ALGORITHM)?;
    Ok(Algorithm::from_bytes(rt.alloc(), octets.as_slice())?)
}

/// The beginning of a file, so many octets where it has them. It is `Memory` where memory runs out, and else `File`.
fn read_beginning<F: FileSource + AllocGlobal>(
    rt: &F,
    path: &str,
    most: u64,
) -> Result<Vec<u8>, InputFault>
    ensures reads { Reads (source_of F.opens F.refuses F.File.remaining rt.now) path.now most (octets_of result) }
    ensures faults { IfErr result (λ fault. (fault ≡ InputFault.File) ⊎ (fault ≡ InputFault.Memory)) }
{
    Ok(rt.read(path, most)?)
}
