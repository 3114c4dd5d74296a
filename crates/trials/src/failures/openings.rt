//! A counter over two files, from their opening to a stop.
use crate::books::{Opened, OverBook, OverConnection, opened, over_store};
use crate::failures::checks::{check, check_succession, check_void};
use crate::failures::dump::{Dump, dump_of};
use crate::failures::journey;
use crate::failures::ledger::{Ledger, Tables};
use crate::failures::platter::{Fate, Outcome, Platter, Reading};
use crate::failures::soundness::are_sound;
use crate::failures::versions::take_back;
use crate::setting::Setting;
use desk::{Desk, Fault};
use sqlite::{Alter, Connection, FileStore, Options};
use sqlite_disk::{Crash, Files, Fuse};
use std::alloc::{AllocError, Global};
use std::io;
use store::{Book, Store, StoreFault};

/// What both files hold.
#[derive(Drop)]
pub struct Image {
    pub log: Vec<u8>,
    pub db: Vec<u8>,
}

impl Image {
    /// Two files of no octets.
    pub fn empty(alloc: Global) -> Image {
        Image {
            log: Vec::new(alloc),
            db: Vec::new(alloc),
        }
    }
}

/// When each of the two files fails.
#[derive(Clone, Copy, Debug)]
pub struct Fates {
    pub log: Fate,
    pub db: Fate,
}

impl Fates {
    /// Neither does.
    pub const NONE: Fates = Fates {
        log: Fate::NONE,
        db: Fate::NONE,
    };
}

/// What is looked at of a history once the files are opened, and after the last step. It makes calls of the disk.
#[derive(Clone, Copy)]
pub enum Look {
    /// Nothing.
    None,
    /// All that has to hold of it.
    Whole,
    /// That too, and before the first step the extract, which has to be of one void stamp.
    Void,
}

/// How files are opened, and what is done then.
#[derive(Clone, Copy)]
pub struct Course<'s> {
    pub alloc: Global,
    pub setting: &'s Setting,
    pub reading: Reading,
    pub fates: Fates,
    pub look: Look,
    /// How many steps are taken at most.
    pub steps: u64,
    /// How often each of them is tried.
    pub tries: u64,
}

/// What was left.
#[derive(Drop)]
pub struct Left {
    pub image: Image,
    /// Whether the files were opened as the counter's.
    pub is_opened: bool,
    /// How many commands were refused before each step was acknowledged; none where one wasn't.
    pub refusals: Option<u64>,
}

fn hold<D: Platter>(course: Course<'_>, octets: &[u8], fate: Fate) -> io::Result<Fuse<D>> {
    let file = D::holding(course.alloc, octets, course.reading, fate)?;
    Ok(Fuse::new(file, fate.calls))
}

fn files_of<D: Platter>(course: Course<'_>, image: &Image) -> io::Result<Files<Fuse<D>>> {
    Ok(Files {
        log: hold(course, &image.log, course.fates.log)?,
        db: hold(course, &image.db, course.fates.db)?,
    })
}

/// What a stop leaves of a file.
fn octets_left<D: Platter>(course: Course<'_>, file: Fuse<D>) -> io::Result<Vec<u8>> {
    let mut file = file;
    if course.reading.outcome != Outcome::Written {
        file.crash();
    }
    Ok(Vec::from_slice(course.alloc, file.inner().octets())?)
}

/// What a stop leaves of both.
fn image_left<D: Platter>(course: Course<'_>, files: Files<Fuse<D>>) -> io::Result<Image> {
    let Files { log, db } = files;
    Ok(Image {
        log: octets_left(course, log)?,
        db: octets_left(course, db)?,
    })
}

/// A connection over the files, or these where they are refused.
fn connect<D: Platter>(
    alloc: Global,
    files: Files<Fuse<D>>,
) -> Result<Connection<FileStore<Fuse<D>>>, Files<Fuse<D>>> {
    if !files.may_be_used() {
        return Err(files);
    }
    match Connection::open_files(alloc, files, Options::new(7)) {
        Ok(conn) => Ok(conn),
        Err((_error, left)) => Err(left.into_files()),
    }
}

/// Whether the tables are what a migration makes of those of an earlier version or, unless it is done, these still.
fn are_kept<S: Alter + Drop>(
    alloc: Global,
    tables: &Tables,
    conn: &mut Connection<S>,
    is_done: bool,
) -> anyhow::Result<bool> {
    let Tables::Earlier(earlier) = tables else {
        return Ok(true);
    };
    let found = dump_of(alloc, conn)?;
    Ok(found.is_migrated(earlier) || !is_done && found == *earlier)
}

/// Looks whether the tables are kept, where that is asked for.
fn look_at_tables<S: Alter + Drop>(
    course: Course<'_>,
    ledger: &mut Ledger,
    conn: &mut Connection<S>,
    is_done: bool,
    wrong: &'static str,
) -> anyhow::Result<()> {
    if course.look != Look::None {
        let are_kept = are_kept(course.alloc, &ledger.tables, conn, is_done)?;
        ledger.expect(are_kept, wrong);
    }
    Ok(())
}

/// Has a migration made: whether it is done.
fn is_migrated<S: Alter + Drop>(ledger: &mut Ledger, conn: &mut Connection<S>) -> bool {
    if !conn.is_autocommit() {
        return false;
    }
    match Store::migrate(conn) {
        Ok(()) => true,
        Err(fault) => {
            let is_stores = fault == StoreFault::Database;
            ledger.expect(is_stores, "another refusal of a migration");
            false
        }
    }
}

/// Takes tables of an earlier version to that of now, unless that was told: whether it is then.
fn migrate<S: Alter + Drop>(
    course: Course<'_>,
    ledger: &mut Ledger,
    conn: &mut Connection<S>,
) -> anyhow::Result<bool> {
    if !matches!(&ledger.tables, Tables::Earlier(_)) {
        return Ok(true);
    }
    look_at_tables(course, ledger, conn, false, "a stop leaves other tables")?;
    if !is_migrated(ledger, conn) {
        return Ok(false);
    }
    look_at_tables(course, ledger, conn, true, "a migration makes other tables")?;
    ledger.tables = Tables::Made;
    Ok(true)
}

/// A store over the connection, whose tables are made where none are there and none were told of.
fn store_over<S: Alter + Drop>(alloc: Global, conn: Connection<S>, is_made: bool) -> Opened<S> {
    match opened(alloc, conn, false) {
        Ok(store) => Ok(store),
        Err((StoreFault::NotOurs, conn)) if !is_made => opened(alloc, conn, true),
        Err(refused) => Err(refused),
    }
}

/// Looks at a desk's history, where that is asked for.
fn look_at<B: Book + Drop>(
    course: Course<'_>,
    ledger: &mut Ledger,
    desk: &mut Desk<'_, B>,
) -> Result<(), AllocError> {
    if course.look != Look::None {
        check(course.alloc, course.setting, desk, ledger)?;
    }
    Ok(())
}

/// Goes on at a desk: how many refusals there were, or none where a step is refused each time.
fn go_on_at<'s, B: Book + Drop>(
    course: Course<'s>,
    ledger: &mut Ledger,
    desk: &mut Desk<'s, B>,
) -> Result<Option<u64>, AllocError> {
    if course.look == Look::Void {
        check_void(course.alloc, desk, ledger);
    }
    look_at(course, ledger, desk)?;
    let refusals = journey::go_on(
        desk,
        course.setting,
        ledger,
        course.steps,
        course.tries,
        course.look,
    );
    look_at(course, ledger, desk)?;
    Ok(refusals)
}

/// A desk over a book, under the identity that was told last.
fn open<'s, B: Book + Drop>(
    course: Course<'s>,
    ledger: &Ledger,
    book: B,
) -> Result<Desk<'s, B>, (Fault, B)> {
    let settings = course.setting.settings_after(ledger.is_succeeded);
    Desk::open(course.alloc, settings, book)
}

/// A course over files, and what it leaves.
#[derive(Drop)]
struct Going<'c, 'l> {
    course: Course<'c>,
    ledger: &'l mut Ledger,
    left: Left,
}

impl OverBook for Going<'_, '_> {
    fn over<B: Book + Drop>(&mut self, book: B) -> anyhow::Result<B> {
        let mut book = book;
        if self.course.look != Look::None {
            check_succession(self.course.setting, &mut book, self.ledger);
        }
        match open(self.course, self.ledger, book) {
            Ok(mut desk) => {
                self.left.refusals = go_on_at(self.course, self.ledger, &mut desk)?;
                self.left.is_opened = true;
                Ok(desk.into_store())
            }
            Err((fault, book)) => {
                self.ledger
                    .expect(fault == Fault::Store, "another refusal of a desk");
                Ok(book)
            }
        }
    }
}

/// Goes on over a store, whose connection is given back.
fn go_on_over<S: Alter + Drop>(
    going: &mut Going<'_, '_>,
    store: Store<S>,
) -> anyhow::Result<Connection<S>> {
    going.ledger.tables = Tables::Made;
    let mut conn = over_store(store, going)?.into_connection();
    if going.course.look != Look::None {
        going
            .ledger
            .expect(are_sound(&mut conn), "tables aren't sound");
    }
    Ok(conn)
}

impl OverConnection for Going<'_, '_> {
    fn over<S: Alter + Drop>(&mut self, conn: Connection<S>) -> anyhow::Result<Connection<S>> {
        let mut conn = conn;
        if !migrate(self.course, self.ledger, &mut conn)? {
            return Ok(conn);
        }
        let is_made = matches!(&self.ledger.tables, Tables::Made);
        match store_over(self.course.alloc, conn, is_made) {
            Ok(store) => go_on_over(self, store),
            Err((fault, conn)) => {
                let is_stores = fault == StoreFault::Database;
                self.ledger
                    .expect(is_stores, "another refusal of an opening");
                Ok(conn)
            }
        }
    }
}

/// Does the work over a connection, and gives its storage back.
fn over_storage<S: Alter + Drop, W: OverConnection>(
    conn: Connection<S>,
    work: &mut W,
) -> anyhow::Result<S> {
    Ok(work.over(conn)?.into_store())
}

/// Opens files that hold what the image says, does the work over them unless they are refused, and stops: what the stop
/// leaves. No other function takes files in memory for a storage.
fn over_files<D: Platter, W: OverConnection>(
    course: Course<'_>,
    image: &Image,
    work: &mut W,
) -> anyhow::Result<Image> {
    let files: Files<Fuse<D>> = files_of(course, image)?;
    let files = match connect(course.alloc, files) {
        Ok(conn) => over_storage(conn, work)?.close(),
        Err(files) => files,
    };
    Ok(image_left(course, files)?)
}

/// Opens files that hold what the image says, goes on with the journey, and stops: what the stop leaves.
pub fn run<D: Platter>(
    course: Course<'_>,
    ledger: &mut Ledger,
    image: &Image,
) -> anyhow::Result<Left> {
    let left = Left {
        image: Image::empty(course.alloc),
        is_opened: false,
        refusals: None,
    };
    let mut going = Going {
        course,
        ledger,
        left,
    };
    let image = over_files::<D, _>(course, image, &mut going)?;
    Ok(Left {
        image,
        is_opened: going.left.is_opened,
        refusals: going.left.refusals,
    })
}

/// Tables that are taken back to an earlier version, and what they hold then.
#[derive(Drop)]
struct Aging {
    alloc: Global,
    version: i64,
    dump: Option<Dump>,
}

impl OverConnection for Aging {
    fn over<S: Alter + Drop>(&mut self, conn: Connection<S>) -> anyhow::Result<Connection<S>> {
        let mut conn = conn;
        take_back(&mut conn, self.version)?;
        self.dump = Some(dump_of(self.alloc, &mut conn)?);
        Ok(conn)
    }
}

/// Takes the tables in files that hold what the image says back to an earlier version: what the files hold then, and
/// what the tables do.
pub fn age<D: Platter>(
    course: Course<'_>,
    image: &Image,
    version: i64,
) -> anyhow::Result<(Image, Dump)> {
    let mut aging = Aging {
        alloc: course.alloc,
        version,
        dump: None,
    };
    let image = over_files::<D, _>(course, image, &mut aging)?;
    match aging.dump {
        Some(dump) => Ok((image, dump)),
        None => anyhow::bail!("the files aren't opened"),
    }
}
