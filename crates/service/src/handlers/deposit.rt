//! `/deposits/{number}`, and what is below it: the octets of a deposit, its token, and who may see it.
ghost use Rattle.std.specs.Prelude.{◌≡◌, Ok};
ghost use Rattle.policy.specs.View.{account_view};
ghost use Rattle.service.specs.{Handlers.Handles, Requests.asked_of_deposit, Routes.segment, Served.TellsFailure};

use crate::answer::Media;
use crate::context::Context;
use crate::readers::serve_readers;
use crate::responses::{write_done, write_shown};
use crate::routes::{DepositAction, segment};
use crate::served::Served;
use audit::Output;
use book::Book;
use cms::Signer;
use desk::Desk;
use policy::Account;

/// Answers an account that asks for this, of the deposit with a number.
pub(crate) fn answer<W: Output, B: Book + Drop, G: Signer>(
    what: DepositAction,
    context: &Context<'_>,
    desk: &mut Desk<'_, B>,
    _signer: &mut G,
    writer: &mut W,
    account: &Account,
    number: u64,
) -> Served
    ensures setting { desk.new.setting ≡ desk.old.setting }
    ensures honest { B.honest desk.new.store → B.honest desk.old.store }
    ensures served { Handles B.Standing G.signs G.fault_count W.contents context.now.at.reading
        (Ok (asked_of_deposit (account_view account.now) number
        (segment 4 context.now.head.target.now) what))
        writer.old writer.new desk.old desk.new _signer.old _signer.new result }
    ensures failed { TellsFailure (W.failures writer.old) (W.failures writer.new) result }
{
    let at = context.at;
    let name = segment(context.head.target, 4);
    match what {
        DepositAction::Show => {
            let shown = desk.show(account, number);
            write_shown(writer, at, Media::Octets, shown)
        }
        DepositAction::Token => {
            let shown = desk.token_of(account, number);
            write_shown(writer, at, Media::Reply, shown)
        }
        DepositAction::Readers => serve_readers(context, writer, desk, account, number),
        DepositAction::Right(change, kind) => {
            let outcome = desk.change_right(account, number, kind.named(name), change);
            write_done(writer, at, outcome)
        }
    }
}
