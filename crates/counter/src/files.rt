//! The files that say by what requests are answered, and who signs.
ghost use Rattle.std.specs.Prelude.{◌≡◌, List, ℕ, [], Ok, None, IfOk, IfErr};
ghost use Rattle.policy.specs.{Meaning.meaning_of, View.policy_view};
ghost use Rattle.console.specs.Fault.{IsFileFault, IsSettingFault};
ghost use Rattle.console.specs.Files.{ReadsIdentity, ReadsText, source_of};
ghost use Rattle.operations.specs.SignerSource.{algorithm_of};
ghost use Rattle.counter.specs.Files.{RefusesFiles, RefusesSigner, SignsAs, path_of};

use cms::{Algorithm, Identity};
use command_line::{DeskWords, SignerWords};
use console::{Fault, FileSource, read_algorithm, read_identity, read_policy, read_signer};
use operations::SignerSource;
use policy::Policy;

/// What the files say.
#[derive(Drop)]
pub struct Files<'a> {
    /// The policy.
    pub policy: Policy,
    /// Whose certificate the tokens name.
    pub identity: Identity,
    /// Who signs.
    pub signing: SignerSource<'a>,
    /// The algorithm that the tokens name, the signer's.
    pub algorithm: Algorithm,
}

/// Reads the policy file, the certificate, its chain and the signer's file, in this order. Refused as `read_policy`,
/// `read_identity` and `read_signing`.
pub fn read_files<'a, S: FileSource + AllocGlobal>(
    rt: &S,
    words: &DeskWords<'a>,
) -> Result<Files<'a>, Fault>
    ensures meant { IfOk result (λ files. (text : List ℕ)
        × ReadsText (source_of S.opens S.refuses S.File.remaining rt.now) words.now.rules.now (Ok text)
        × (meaning_of text ≡ Ok (policy_view files.policy))) }
    ensures identity { IfOk result (λ files. ReadsIdentity (source_of S.opens S.refuses S.File.remaining rt.now)
        words.now.certificate.now (path_of words.now.chain) (Ok files.identity)) }
    ensures alone { words.now.chain ≡ None → IfOk result (λ files. files.identity.chain ≡ []) }
    ensures signs { IfOk result (λ files. SignsAs (source_of S.opens S.refuses S.File.remaining rt.now)
        words.now.signer files.signing) }
    ensures algorithm { IfOk result (λ files. files.algorithm ≡ algorithm_of files.signing) }

    // The first fault of these files, in the order in which they are read.
    ensures first { IfErr result (RefusesFiles (source_of S.opens S.refuses S.File.remaining rt.now) words.now) }
    ensures faults { IfErr result IsSettingFault }
{
    let policy = read_policy(rt, words.rules)?;
    let identity = read_identity(rt, words.certificate, words.chain)?;
    let signing = read_signing(rt, words.signer)?;
    let algorithm = Algorithm::from_bytes(rt.alloc(), signing.algorithm().as_slice())?;
    Ok(Files {
        policy,
        identity,
        signing,
        algorithm,
    })
}

/// Reads who signs: the key of the stand-in signer, or the algorithm of a key holder at an address. Refused as
/// `read_signer` and `read_algorithm`.
fn read_signing<'a, S: FileSource + AllocGlobal>(
    rt: &S,
    words: SignerWords<'a>,
) -> Result<SignerSource<'a>, Fault>
    ensures found { IfOk result (SignsAs (source_of S.opens S.refuses S.File.remaining rt.now) words.entry) }
    ensures refused { IfErr result (RefusesSigner (source_of S.opens S.refuses S.File.remaining rt.now) words.entry) }
    ensures faults { IfErr result IsFileFault }
{
    match words {
        SignerWords::Key(path) => Ok(SignerSource::Keyed(read_signer(rt, path)?)),
        SignerWords::Session {
            address,
            algorithm: path,
        } => {
            let algorithm = read_algorithm(rt, path)?;
            Ok(SignerSource::Session { address, algorithm })
        }
    }
}
