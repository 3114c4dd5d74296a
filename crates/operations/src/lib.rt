//! What the words of the program do to the database at a path.
#![tactic(auto)]

mod addition;
mod audits;
mod carried;
mod continuation;
mod database;
mod desk_operation;
mod explanation;
mod fault;
mod host;
mod kept;
mod laws;
mod operation;
mod past;
mod question;
mod signers;
mod void_stamp;

pub use addition::{Addition, add};
pub use audits::{AuditFault, Examination, audit, examine_stamps};
pub use continuation::continue_in;
pub use database::{Database, DatabaseFiles, OpenDatabase, init, migrate};
pub use desk_operation::{DatabaseDesk, DeskOperation, SignedDesk, perform_at_desk};
pub use explanation::explain;
pub use fault::{ContinuationFault, OperationFault};
pub use host::{HostFiles, HostSigners, Renewal, SignerSource};
pub use laws::journeys_go_over_continuations;
pub use question::{Question, answer};
pub use signers::{AnySigner, HostSigner, Signers};
pub use sqlite::{FileFrom, Start, Unknown};
pub use sqlite_disk::Disk;
pub use store::Paths;
pub use void_stamp::Floor;
