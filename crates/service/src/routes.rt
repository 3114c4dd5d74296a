//! Targets, and what methods do there.
ghost use Rattle.std.specs.{Prelude.◌≡◌, Prelude.map, Prelude.Option, Prelude.IfOk, Prelude.OnOk, Str.bytes_eq};
ghost use Rattle.book.specs.Entries.{reader_view};
ghost use Rattle.service.specs.Routes.{line_view, table, with_route, routes, methods_at, action_of, reader_of, segment};

use book::Reader;
use desk::Change;
use matchit::{InsertError, Router};
use std::alloc::{AllocError, Global};

/// What a method does with the deposit of a number.
#[derive(Clone, Copy)]
pub(crate) enum DepositAction {
    /// Shows it.
    Show,
    /// Shows its token.
    Token,
    /// Tells its owner who may read it.
    Readers,
    /// Gives the reader of the target's name the right to see it, or takes it.
    Right(Change, ReaderKind),
}

/// Whether a target's name is an account's or a group's.
#[derive(Clone, Copy)]
pub(crate) enum ReaderKind {
    Account,
    Group,
}

impl ReaderKind {
    /// The reader of that name.
    pub(crate) fn named(self, name: &str) -> Reader<'_>
        ensures { reader_view result ≡ reader_of self name.now }
    {
        match self {
            ReaderKind::Account => Reader::Account(name),
            ReaderKind::Group => Reader::Group(name),
        }
    }
}

/// What a method does at a target.
#[derive(Clone, Copy)]
pub(crate) enum Action {
    /// Answers a time-stamp request.
    Stamp,
    /// Takes a deposit.
    Keep,
    /// Lists deposits.
    List,
    /// Does that with the deposit of the target's number.
    Deposit(DepositAction),
    /// Writes stamps out for an auditor.
    Extract,
    /// Adds a calibration for an operator.
    Calibrate,
    /// Adds a hold for an operator.
    Hold,
    /// Tells an operator or an auditor of the counter's state.
    Status,
    /// Tells an account of itself.
    Account,
}

/// What each method does at a target, if anything.
#[derive(Clone, Copy)]
pub struct Methods {
    pub(crate) get: Option<Action>,
    pub(crate) post: Option<Action>,
    pub(crate) put: Option<Action>,
    pub(crate) delete: Option<Action>,
}

/// No method does anything.
const NOTHING: Methods = Methods {
    get: None,
    post: None,
    put: None,
    delete: None,
};

/// What these methods do; no other does anything.
macro_rules! on {
    ($($method:ident $action:ident),+) => {
        Methods { $($method: Some(Action::$action),)+ ..NOTHING }
    };
}

/// What these methods do with the deposit of a target's number; no other does anything.
macro_rules! on_deposit {
    ($($method:ident $action:ident),+) => {
        Methods { $($method: Some(Action::Deposit(DepositAction::$action)),)+ ..NOTHING }
    };
}

/// What these methods do with the right of a reader of that kind to see the deposit of a target's number.
macro_rules! on_right {
    ($kind:ident) => {
        Methods {
            put: Some(Action::Deposit(DepositAction::Right(Change::Give, ReaderKind::$kind))),
            delete: Some(Action::Deposit(DepositAction::Right(Change::Take, ReaderKind::$kind))),
            ..NOTHING
        }
    };
}

/// Each target's text, in which a name in braces stands for a segment that isn't empty, and what the methods do there.
static ROUTES: &[(&str, Methods)] = &[
    ("/tsp", on!(post Stamp)),
    ("/calibrations", on!(post Calibrate)),
    ("/holds", on!(post Hold)),
    ("/status", on!(get Status)),
    ("/account", on!(get Account)),
    ("/deposits", on!(get List, post Keep)),
    ("/deposits/{number}", on_deposit!(get Show)),
    ("/deposits/{number}/token", on_deposit!(get Token)),
    ("/deposits/{number}/readers", on_deposit!(get Readers)),
    ("/deposits/{number}/readers/{name}", on_right!(Account)),
    ("/deposits/{number}/groups/{name}", on_right!(Group)),
    ("/audit/{from}/{to}", on!(get Extract)),
];

/// The lines of the table.
fn lines() -> &'static [(&'static str, Methods)]
    ensures { map line_view result.now ≡ table }
{
    ROUTES
}

/// Whether a method has that name, letter by letter.
fn is_named(method: &[u8], name: &str) -> bool
    ensures { result ≡ bytes_eq method.now name.now }
{
    method == name.as_bytes()
}

impl Methods {
    /// What the method of a name does, if anything.
    pub(crate) fn action(self, method: &[u8]) -> Option<Action>
        ensures { result ≡ action_of self method.now }
    {
        if is_named(method, "GET") {
            self.get
        } else if is_named(method, "POST") {
            self.post
        } else if is_named(method, "PUT") {
            self.put
        } else if is_named(method, "DELETE") {
            self.delete
        } else {
            None
        }
    }
}

/// Adds a route.
fn add(router: &mut Router<Methods>, text: &str, methods: Methods) -> Result<(), InsertError>
    ensures { OnOk result (router.new ≡ with_route router.old (text.now, methods)) }
{
    router.insert(text, methods)
}

/// All routes.
fn all_routes(alloc: Global) -> Result<Router<Methods>, InsertError>
    ensures { IfOk result (λ router. router ≡ routes) }
{
    let mut router = Router::new(alloc);
    for line in lines() {
        add(&mut router, line.0, line.1)?;
    }
    Ok(router)
}

/// The routes, made once for all requests.
#[derive(Drop)]
pub struct Routes {
    router: Router<Methods>,
    ghost all: { router ≡ routes },
}

impl Routes {
    /// All routes. An error where memory runs out.
    pub fn new(alloc: Global) -> Result<Routes, AllocError> {
        let router = all_routes(alloc).map_err(|_| AllocError)?;
        Ok(Routes { router })
    }

    /// What the methods do at a target, as it was sent. None where no route has it.
    pub(crate) fn methods_at(&self, target: &str) -> Option<Methods>
        ensures { result ≡ methods_at target.now }
    {
        Some(*self.router.at(target).ok()?.value)
    }
}

/// The segment of a target at a place, as it was sent: what stands between slashes, and before the first of them at 0.
/// It is empty where there is none.
pub(crate) fn segment(target: &str, place: usize) -> &str
    ensures { result.now ≡ segment place target.now }
{
    match target.split('/').nth(place) {
        Some(segment) => segment,
        None => "",
    }
}
