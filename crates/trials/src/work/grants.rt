//! Tokens over a database.
use crate::books::{OverBook, over_path};
use crate::setting::{CERTIFICATE, Setting, open_desk};
use crate::work::setting::{REQUEST, setting_of};
use book::Book;
use cms::{KeyedHash, Signer};
use desk::{Desk, Reply};
use policy::Account;
use sqlite_disk::Unknown;
use std::alloc::Global;

/// Answers that are given over a book, and how many of them had a token.
#[derive(Drop)]
struct Granting<'s> {
    alloc: Global,
    setting: &'s Setting,
    count: u64,
    granted: u64,
}

impl OverBook for Granting<'_> {
    fn over<B: Book + Drop>(&mut self, book: B) -> anyhow::Result<B> {
        let mut signer = KeyedHash::new(self.alloc, b"k")?;
        let mut desk = open_desk(self.alloc, self.setting, book)?;
        let account = self.setting.policy.anonymous();
        self.granted = answered(&mut desk, account, &mut signer, self.count);
        Ok(desk.into_store())
    }
}

/// Answers the request as many times, over the database at a path, and tells how many times by a token.
pub fn grants(rt: &HostRuntime, path: &str, count: u64) -> anyhow::Result<u64> {
    let setting = setting_of(rt.alloc(), CERTIFICATE)?;
    let mut granting = Granting {
        alloc: rt.alloc(),
        setting: &setting,
        count,
        granted: 0,
    };
    over_path(rt, path, Unknown, &mut granting)?;
    Ok(granting.granted)
}

fn answered<B: Book + Drop, G: Signer>(
    desk: &mut Desk<'_, B>,
    account: Option<&Account>,
    signer: &mut G,
    count: u64,
) -> u64 {
    let mut granted = 0u64;
    for _ in 0..count {
        if let Reply::Granted {
            serial: _,
            bytes: _,
        } = desk.answer(account, 0, &REQUEST, signer)
        {
            granted = granted.saturating_add(1);
        }
    }
    granted
}
