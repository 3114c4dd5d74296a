//! Requests over HTTP, through the service.
use crate::desks::serve_octets;
use crate::fields::word;
use crate::octets::answers::is_answer;
use crate::octets::changes::{Subject, try_all};
use crate::tally::Tally;
use cms::Signer;
use desk::Desk;
use service::Served;
use std::alloc::Global;
use std::io;
use store::Book;

/// A desk that is asked over HTTP, and what it answered.
#[derive(Drop)]
struct Asked<'d, 's, 'p, B: Book + Drop, G: Signer> {
    alloc: Global,
    desk: &'d mut Desk<'p, B>,
    signer: &'s mut G,
    /// The answer that was written last.
    answer: Vec<u8>,
    /// How many answers had a status below 300.
    done: u64,
}

impl<B: Book + Drop, G: Signer> Subject for Asked<'_, '_, '_, B, G> {
    fn takes(&mut self, octets: &[u8]) -> bool {
        self.answer.clear();
        let (served, _left) = serve_octets(
            self.alloc,
            self.desk,
            self.signer,
            octets,
            &mut self.answer,
        );
        match served {
            Served::Closed => octets.is_empty() && self.answer.is_empty(),
            Served::Answered(status) => {
                if status < 300 {
                    self.done = self.done.saturating_add(1);
                }
                is_answer(&self.answer, status)
            }
            _ => false,
        }
    }
}

/// A deposit of alice's, under the number 1.
fn deposit<B: Book + Drop, G: Signer>(desk: &mut Desk<'_, B>, signer: &mut G) -> bool {
    match desk.policy().account_named("alice") {
        Some(alice) => desk.deposit(alice, 0, "plan-7", b"abc", signer).is_ok(),
        None => false,
    }
}

/// Tries octets at a desk: how many, and how many of them weren't refused.
fn try_octets<B: Book + Drop, G: Signer>(
    rt: &HostRuntime,
    desk: &mut Desk<'_, B>,
    signer: &mut G,
    octets: &mut [u8],
) -> io::Result<(Tally, u64)> {
    let mut asked = Asked {
        alloc: rt.alloc(),
        desk,
        signer,
        answer: Vec::new(rt.alloc()),
        done: 0,
    };
    let tally = try_all(rt, &mut asked, octets)?;
    Ok((tally, asked.done))
}

/// Tries the request of a line, its name and its text, at a desk with a deposit of alice's. Tells how many were tried,
/// how many of them weren't refused, and how many were wrong.
pub fn try_line<B: Book + Drop, G: Signer>(
    rt: &HostRuntime,
    desk: &mut Desk<'_, B>,
    signer: &mut G,
    line: &str,
) -> anyhow::Result<Tally> {
    let (name, text) = word(line);
    if !deposit(desk, signer) {
        anyhow::bail!("no deposit");
    }
    let text = text.replace(rt.alloc(), "\\r\\n", "\r\n")?;
    let mut octets = Vec::from_slice(rt.alloc(), text.as_bytes())?;
    let (tally, done) = try_octets(rt, desk, signer, &mut octets)?;
    print!(rt; "head {name}: {} tried, {done} not refused", tally.tried)?;
    println!(rt; "; {} wrong", tally.wrong)?;
    Ok(tally)
}
