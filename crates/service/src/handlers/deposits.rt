//! `/deposits`: the list of deposits.
ghost use Rattle.std.specs.Prelude.{◌≡◌, Ok};
ghost use Rattle.desk.specs.Command.{ListAll};
ghost use Rattle.policy.specs.View.{account_view};
ghost use Rattle.service.specs.{Handlers.Handles, Requests.Step, Served.TellsFailureOnceListed};

use crate::answer::Media;
use crate::context::Context;
use crate::lists::listed_lines;
use crate::refusal::Refusal;
use crate::responses::{out_of_memory, refuse, succeed};
use crate::served::Served;
use audit::Output;
use book::Book;
use cms::Signer;
use desk::Desk;
use policy::Account;

/// Lists an account's deposits, as long as the writer has time. Their lines take memory.
pub(crate) fn list<W: Output, B: Book + Drop, G: Signer>(
    context: &Context<'_>,
    desk: &mut Desk<'_, B>,
    _signer: &mut G,
    writer: &mut W,
    account: &Account,
) -> Served
    ensures setting { desk.new.setting ≡ desk.old.setting }
    ensures honest { B.honest desk.new.store → B.honest desk.old.store }
    ensures served { Handles B.Standing G.signs G.fault_count W.contents context.now.at.reading
        (Ok (Step (ListAll (account_view account.now)))) writer.old writer.new desk.old desk.new _signer.old _signer.new
        result }
    ensures failed { TellsFailureOnceListed W.contents W.failures writer.old writer.new result }
{
    let rows = match desk.list_within(account, writer) {
        Ok(rows) => rows,
        Err(fault) => return refuse(writer, context.at, Refusal::from(fault)),
    };
    match listed_lines(context.alloc, &rows) {
        Some(lines) => succeed(writer, context.at, Media::Text, &lines),
        None => out_of_memory(writer, context.at),
    }
}
