//! Identities that follow one another: the statement that adds one, inside a transaction, and the look-ups.

ghost use Rattle.std.specs.Prelude.{◌≡◌};
ghost use Rattle.sqlite.specs.Held.{state};
ghost use Rattle.book.specs.{History.Installed, Values.installed_of};
ghost use Rattle.tables.specs.Queries.{LooksUp, ShowsIdentity};
ghost use Rattle.tables.specs.{Changes.applied, Found.IsFoundAs, Tables.is_identity, Transaction.Carries};

use crate::base::Base;
use crate::fault::TableFault;
use crate::queries::{FromRow, number, number_in, octets};
use crate::rows::column;
use crate::stamps::LAST_STAMP;
use book::IdentityRow;
use sqlite::types::ValueRef;
use sqlite::{Alter, Error, Row, Transaction};

const INSERT_IDENTITY: &str =
    "INSERT INTO identity (n, after_serial, certificate, chain) VALUES (?1, ?2, ?3, ?4)";

const IDENTITY: &str = "SELECT n, after_serial, certificate, chain FROM identity WHERE n = ?1";

const GREATEST_IDENTITY: &str = "SELECT n FROM identity ORDER BY n DESC LIMIT 1";

/// Adds an identity, under the number that comes next, after the stamps that are there.
pub(crate) fn put_identity<S: Alter>(
    tx: &mut Transaction<'_, S>,
    certificate: &[u8],
    chain: &[u8],
) -> Result<usize, Error>
    ensures same_reference { tx.new.conn.ghost_name ≡ tx.old.conn.ghost_name }
    ensures carries { Carries (applied (Installed (installed_of certificate.now chain.now)))
        (state S.Store tx.old.conn.now) (state S.Store tx.new.conn.now) result }
{
    let greatest = number_in(tx, GREATEST_IDENTITY)?;
    let serial = number_in(tx, LAST_STAMP)?;
    let number = column(greatest + 1)?;
    let after_serial = column(serial)?;
    tx.execute(
        INSERT_IDENTITY,
        &[
            number,
            after_serial,
            ValueRef::Blob(certificate),
            ValueRef::Blob(chain),
        ],
    )
}

impl FromRow for IdentityRow {
    ghost use Rattle.std.specs.Prelude.{◌≡◌};
    ghost use Rattle.tables.specs.{Queries.identity_view, auxiliary.Shown.identity_shown, Tables.InstalledRow};

    ghost shows = { λ row i. (x : InstalledRow) → row ≡ identity_shown x → identity_view i ≡ x };

    fn from_row(row: &Row) -> Result<IdentityRow, Error> {
        let n = number(row, 0)?;
        let after_serial = number(row, 1)?;
        let certificate = octets(row, 2)?;
        let chain = octets(row, 3)?;
        Ok(IdentityRow {
            number: n,
            after_serial,
            certificate,
            chain,
        })
    }
}

impl<S: Alter + Drop> Base<S> {
    /// The identity with the number.
    pub fn identity(&mut self, number: u64) -> Result<Option<IdentityRow>, TableFault>
        ensures { LooksUp S.Store (λ t found. IsFoundAs ShowsIdentity (is_identity number) t.identities found)
            self.old self.new result }
    {
        self.first_at(IDENTITY, number)
    }
}
